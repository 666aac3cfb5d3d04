// Posting charges on the accounts: each raises the payee's credits and the payer's debits. The ledger is lent, and changed where it
// stands. The tables that charges go by are numbers that a caller lends, too.
#![tactic(auto)]

ghost use Rattle.std.specs.Prelude.{◌≡◌, not, ◌&&◌, [], ◌∷◌, ℕ, ◌+◌, ◌<◌, ◌≤◌, eqb, ltb, length, get_or};
ghost use Rattle.laws.specs.Limits.{ACCOUNTS, SHEET_CELLS};
ghost use Rattle.rules.specs.Charges.{buy_in_charge};
ghost use Rattle.plain.specs.Charging.{raise, posted, charge};
ghost use Rattle.ledger.specs.Parts.{award_fines_of, late_fines_of, close_charges_of};
ghost use Rattle.ledger.specs.Tabled.{Chargeable, AwardsFinable, LateFinable, CloseFinable, Priceable, PricedOn};
ghost use Rattle.laws.specs.declared.BusinessDay.{BusinessDay};
ghost use Rattle.tables.specs.Tables.{positions};
ghost use Rattle.tables.specs.Late.{LateBefore};
ghost use Rattle.tables.specs.Lent.{position_table, award_table, piece_table};
ghost use Rattle.ledger.specs.Settling.{highest_long, price_of, payments_at, settlement_of, Settleable};

use laws::{ACCOUNTS, AWARD_CELLS, POSITION_CELLS, SHEET_CELLS};
use plain::{Ledger, Position};
use register::Register;
use rules::Amount;
use tables::Prices;

const HOUSE: u8 = 0;

// One column of the ledger, lent.
fn raise_place(column: &mut [u64; ACCOUNTS], account: u8, cents: u64)
    requires { (account < ACCOUNTS) × (get_or column.old account 0 + cents ≤ 18446744073709551615) }
    ensures { column.new ≡ raise column.old account cents }
{
    let k = account as usize;
    column[k] += cents;
}

pub fn post(ledger: &mut Ledger, payer: u8, payee: u8, cents: u64)
    requires { Chargeable ledger.old (record { payer = payer; payee = payee; cents = cents }) }
    ensures { ledger.new ≡ posted ledger.old (record { payer = payer; payee = payee; cents = cents } ∷ []) }
{
    raise_place(&mut ledger.credits, payee, cents);
    raise_place(&mut ledger.debits, payer, cents);
}

// A charge to the house, or the credit that a negative one is.
pub fn post_buy_in(ledger: &mut Ledger, member: u8, quantity: u32, price: u32, reference: u32)
    requires { Chargeable ledger.old (charge member (buy_in_charge quantity price reference)) }
    ensures { ledger.new ≡ posted ledger.old (charge member (buy_in_charge quantity price reference) ∷ []) }
{
    let amount = rules::buy_in_charge(quantity, price, reference);
    match amount {
        Amount::Debit(cents) => post(ledger, member, HOUSE, cents),
        Amount::Credit(cents) => post(ledger, HOUSE, member, cents),
    }
}

// An unconfirmed award costs its offerer, where the security has a price.
fn award_is_fined(confirmed: bool, latest: u32) -> bool
    ensures { result ≡ (not confirmed && ltb 0 latest) }
{
    !confirmed && 0 < latest
}

// A class 1 short that is due costs its member, where the security has a price.
fn short_is_fined(position: Position, class: u8, latest: u32) -> bool
    ensures { result ≡ (position.short && eqb class 1 && ltb 0 latest) }
{
    position.short && class == 1 && 0 < latest
}

pub fn post_award_fines(
    ledger: &mut Ledger,
    awards: &[u32; AWARD_CELLS],
    awarded: usize,
    rows: &[u32; POSITION_CELLS],
    held: usize,
    prices: Prices,
    register: Register,
)
    requires { AwardsFinable ledger.old (award_table awards.now awarded) (position_table rows.now held) prices register }
    ensures { ledger.new ≡ posted ledger.old (award_fines_of (award_table awards.now awarded) (position_table rows.now held) prices register) }
{
    for i in 0..awarded {
        let award = rows::award_at(awards, i);
        let place = (award.position - 1) as usize;
        let short = rows::row_at(rows, place);
        let k = (short.security - 1) as usize;
        let latest = prices.latest[k];
        if award_is_fined(award.confirmed, latest) {
            let class = register.classes[k];
            let fine = rules::award_fine(class, rules::value_of(award.quantity, latest));
            post(ledger, award.offerer, HOUSE, fine);
        }
    }
}

// The positions before the place `until` are those that are due on a day: which day that is, and how many positions there are, need not be given.
pub fn post_late_fines(
    ledger: &mut Ledger,
    rows: &[u32; POSITION_CELLS],
    until: usize,
    prices: Prices,
    register: Register,
)
    requires { (held : ℕ) × (day : BusinessDay) × (LateFinable ledger.old (position_table rows.now held) prices register day) × (LateBefore (day.0 + 1) (positions (position_table rows.now held)) until) }
    ensures { (held : ℕ) (day : BusinessDay) → LateFinable ledger.old (position_table rows.now held) prices register day → LateBefore (day.0 + 1) (positions (position_table rows.now held)) until → ledger.new ≡ posted ledger.old (late_fines_of (position_table rows.now held) prices register day) }
{
    for i in 0..until {
        let short = rows::row_at(rows, i);
        let k = (short.security - 1) as usize;
        let class = register.classes[k];
        let latest = prices.latest[k];
        if short_is_fined(short, class, latest) {
            let fine = rules::late_fine(rules::value_of(short.unsettled, latest));
            post(ledger, short.member, HOUSE, fine);
        }
    }
}

pub fn post_close(
    ledger: &mut Ledger,
    awards: &[u32; AWARD_CELLS],
    awarded: usize,
    rows: &[u32; POSITION_CELLS],
    held: usize,
    until: usize,
    prices: Prices,
    register: Register,
)
    requires { (day : BusinessDay) × (CloseFinable ledger.old (award_table awards.now awarded) (position_table rows.now held) prices register day) × (LateBefore (day.0 + 1) (positions (position_table rows.now held)) until) }
    ensures { (day : BusinessDay) → CloseFinable ledger.old (award_table awards.now awarded) (position_table rows.now held) prices register day → LateBefore (day.0 + 1) (positions (position_table rows.now held)) until → ledger.new ≡ posted ledger.old (close_charges_of (award_table awards.now awarded) (position_table rows.now held) prices register day) }
{
    if 0 < awarded {
        post_award_fines(ledger, awards, awarded, rows, held, prices, register);
    }
    post_late_fines(ledger, rows, until, prices, register);
}

// The first pass of a cash settlement over its pieces: the highest reference price among their longs.
fn highest_reference(
    rows: &[u32; POSITION_CELLS],
    held: usize,
    sheet: &[u64; SHEET_CELLS],
    dealt: usize,
) -> u32
    requires { Priceable (piece_table sheet.now dealt) (position_table rows.now held) }
    ensures { result ≡ highest_long (position_table rows.now held) (piece_table sheet.now dealt) }
{
    let mut highest: u32 = 0;
    // Not a chain with `map` and `max`: its goals `max-requires-clause-can` and `returns` stay open.
    for i in 0..dealt {
        let number = pieces::long_at(sheet, i);
        let place = (number - 1) as usize;
        let long = rows::row_at(rows, place);
        highest = highest.max(long.reference);
    }
    highest
}

// The second pass: each piece gets its cents at the price of the settlement and is paid for, on the lent sheet.
fn post_payments(
    ledger: &mut Ledger,
    rows: &[u32; POSITION_CELLS],
    held: usize,
    sheet: &mut [u64; SHEET_CELLS],
    dealt: usize,
    payer: u8,
    price: u64,
)
    requires { (Settleable ledger.old (payments_at price (position_table rows.now held) (piece_table sheet.old dealt)) (position_table rows.now held) (piece_table sheet.old dealt) payer) × (length sheet.old ≡ SHEET_CELLS) }
    ensures { (PricedOn sheet.old dealt price sheet.new) × (ledger.new ≡ posted ledger.old (payments_at price (position_table rows.now held) (piece_table sheet.old dealt))) }
{
    for i in 0..dealt {
        let number = pieces::long_at(sheet, i);
        let units = pieces::units_at(sheet, i);
        let place = (number - 1) as usize;
        let long = rows::row_at(rows, place);
        let cents = (units as u64) * price;
        pieces::put_cents(sheet, i, cents);
        post(ledger, payer, long.member, cents);
    }
}

// The payments at the one price of the settlement, and the fee of the short, which is given as it was before the settlement.
pub fn post_cash(
    ledger: &mut Ledger,
    rows: &[u32; POSITION_CELLS],
    held: usize,
    sheet: &mut [u64; SHEET_CELLS],
    dealt: usize,
    short: Position,
    class: u8,
    latest: u32,
)
    requires { (Settleable ledger.old (settlement_of class latest short (position_table rows.now held) (piece_table sheet.old dealt)) (position_table rows.now held) (piece_table sheet.old dealt) short.member) × (length sheet.old ≡ SHEET_CELLS) }
    ensures { (PricedOn sheet.old dealt (price_of class latest short (position_table rows.now held) (piece_table sheet.old dealt)) sheet.new) × (ledger.new ≡ posted ledger.old (settlement_of class latest short (position_table rows.now held) (piece_table sheet.old dealt))) }
{
    let long = highest_reference(rows, held, sheet, dealt);
    let price = rules::cash_price(class, short.reference, long, latest);
    post_payments(ledger, rows, held, sheet, dealt, short.member, price);
    let fee = rules::cash_fee(rules::value_of(short.unsettled, latest));
    post(ledger, short.member, HOUSE, fee);
}
