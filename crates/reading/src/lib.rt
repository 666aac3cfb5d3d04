// What a caller reads of a book. Nothing is changed.
#![tactic(auto)]

ghost use Rattle.std.specs.Prelude.{◌≡◌};
ghost use Rattle.reading.specs.Reading.{position_answer, award_answer, price_answer, balance_answer};
ghost use Rattle.machine.specs.declared.Core.{Core};
ghost use Rattle.machine.specs.declared.Numbers.{Numbers};
ghost use Rattle.machine.specs.View.{on_rows, on_awards, on_ledger, book_of, Held};

use laws::{AWARD_CELLS, BusinessDay, MEMBERS, POSITION_CELLS, Refusal};
use machine::{Core, latest_of};
use plain::{Award, Latest, Ledger, Position};
use rules::Amount;

pub fn day(core: Core) -> BusinessDay
    ensures { result ≡ core.day }
{
    core.day
}

// The ISINs of the register, 12 bytes each.
pub fn isins(core: Core) -> [u8; 384]
    ensures { result ≡ core.opening.register.isins }
{
    core.opening.register.isins
}

pub fn position_count(core: Core) -> usize
    ensures { result ≡ core.positions }
{
    core.positions
}

pub fn position(core: Core, rows: &[u32; POSITION_CELLS], number: u16) -> Result<Position, Refusal>
    requires { (others : Numbers) × Held core (on_rows others rows.now) }
    ensures { (others : Numbers) → Held core (on_rows others rows.now) → result ≡ position_answer (book_of core (on_rows others rows.now)) number }
{
    let n = number as usize;
    if !refusals::is_within(1, core.positions, n) {
        return Err(Refusal::NotThere);
    }
    Ok(rows::row_at(rows, n - 1))
}

pub fn award_at(core: Core, awards: &[u32; AWARD_CELLS], number: u16) -> Result<Award, Refusal>
    requires { (others : Numbers) × Held core (on_awards others awards.now) }
    ensures { (others : Numbers) → Held core (on_awards others awards.now) → result ≡ award_answer (book_of core (on_awards others awards.now)) number }
{
    let n = number as usize;
    if !refusals::is_within(1, core.awards, n) {
        return Err(Refusal::NotThere);
    }
    Ok(rows::award_at(awards, n - 1))
}

// The latest price of a security, of any age, and the day on which it was given.
pub fn latest_price(core: Core, security: u16) -> Result<Option<Latest>, Refusal>
    requires { (a : Numbers) × Held core a }
    ensures { (a : Numbers) → result ≡ price_answer (book_of core a) security }
{
    if !refusals::is_within(1, core.opening.register.count as usize, security as usize) {
        return Err(Refusal::NotRegistered);
    }
    Ok(latest_of(core.prices, security))
}

// The balance of an account. A balance of 0 is a credit.
pub fn balance(ledger: &Ledger, account: u8) -> Result<Amount, Refusal>
    ensures { (core : Core) (others : Numbers) → result ≡ balance_answer (book_of core (on_ledger others ledger.now)) account }
{
    if MEMBERS < account {
        return Err(Refusal::NoMember);
    }
    let k = account as usize;
    let credit = ledger.credits[k];
    let debit = ledger.debits[k];
    if credit < debit {
        return Ok(Amount::Debit(debit - credit));
    }
    Ok(Amount::Credit(credit - debit))
}
