// Document 01, 'Trades and netting', and document 02, Slip 5: the positions that a day's trades make, put into the lent table of positions.
#![tactic(auto)]

ghost use Rattle.std.specs.Prelude.{◌≡◌, ◌∷◌, [], ◌<◌, ◌≤◌, max, length, replicate};
ghost use Rattle.std.specs.Option.{option_copied};
ghost use Rattle.laws.specs.Lists.{each, range, some};
ghost use Rattle.laws.specs.Asked.{Within};
ghost use Rattle.laws.specs.Limits.{MEMBERS, POSITION_CELLS, SECURITIES};
ghost use Rattle.plain.specs.Invariants.{TradeFits};
ghost use Rattle.tables.specs.Tables.{today};
ghost use Rattle.netting.specs.Gathering.{no_total, key_for, key_of, party_of, party_kind_of, place_of, added, raised, total_in, Addable, Gatherable, Gathered};
ghost use Rattle.netting.specs.Members.{net_from, kind_positions, member_positions, Unequal, KindFits, MembersFit, Appended};
ghost use Rattle.netting.specs.Netting.{is_client, DayFits, DayNetted};
ghost use Rattle.tables.specs.Lent.{position_table, trade_table};

use events::Trade;
use laws::{BusinessDay, MEMBERS, POSITION_CELLS, SECURITIES, TRADE_CELLS};
use plain::{Kind, Position};

// The side of a trade that a member stands on.
#[derive(Clone, Copy)]
enum Side {
    Sale,
    Purchase,
}

// The units that a member sold, or bought, of a security, and the highest price of those trades.
#[derive(Clone, Copy)]
struct Total {
    units: u32,
    highest: u32,
}

// The kind byte of business that is a member's own.
const OWN: u8 = 0;

// The totals of a kind of business: one for each of members 1 to 63 with each of securities 1 to 32, on each side.
const TOTALS: usize = 4032;

const NO_TOTAL: Total = Total {
    units: 0,
    highest: 0,
};

// The place of a total: by member, then security, then side.
fn place_of(side: Side, member: u8, security: u16) -> usize
    requires { (Within 1 MEMBERS member) × Within 1 SECURITIES security }
    ensures place { result ≡ place_of side member security }
    ensures within { result < TOTALS }
{
    let key = SECURITIES * (member as usize - 1) + (security as usize - 1);
    match side {
        Side::Sale => 2 * key,
        Side::Purchase => 2 * key + 1,
    }
}

// The member that trades on a side, and the byte of that side's kind.
fn party(side: Side, trade: Trade) -> (u8, u8)
    ensures { (result.0 ≡ party_of side trade) × (result.1 ≡ party_kind_of side trade) }
{
    match side {
        Side::Sale => (trade.seller, trade.sellerkind),
        Side::Purchase => (trade.buyer, trade.buyerkind),
    }
}

fn with_trade(total: Total, trade: Trade) -> Total
    requires { Addable total trade }
    ensures { result ≡ added trade total }
{
    Total {
        units: total.units + trade.quantity,
        highest: total.highest.max(trade.price),
    }
}

// One more trade in the total of its party on a side, where that side is business of the kind.
fn raise(totals: &mut [Total; TOTALS], kind: Kind, side: Side, trade: Trade)
    requires { (TradeFits SECURITIES trade) × Addable (total_in totals.old side (key_of kind side trade)) trade }
    ensures { totals.new ≡ raised kind side trade totals.old }
{
    let (member, traded) = party(side, trade);
    if traded != u8::from(kind) {
        return;
    }
    let place = place_of(side, member, trade.security);
    totals[place] = with_trade(totals[place], trade);
}

// The totals of today's business of a kind, in one pass over the trades.
// Not a struct of the trades and their two counts: the contracts cite `trade_table trades.now count netted`, three names of the lent table.
fn gather(
    totals: &mut [Total; TOTALS],
    kind: Kind,
    trades: &[u32; TRADE_CELLS],
    netted: usize,
    count: usize,
)
    requires { (Gatherable (trade_table trades.now count netted)) × (totals.old ≡ replicate TOTALS no_total) }
    ensures { Gathered kind (trade_table trades.now count netted) totals.new }
{
    for i in netted..count {
        let trade = rows::trade_at(trades, i);
        raise(totals, kind, Side::Sale, trade);
        raise(totals, kind, Side::Purchase, trade);
    }
}

// A side of the trade is client business.
fn is_client(trade: Trade) -> bool
    ensures { result ≡ is_client trade }
{
    trade.sellerkind != OWN || trade.buyerkind != OWN
}

// A side of one of today's trades is client business.
fn has_client(trades: &[u32; TRADE_CELLS], netted: usize, count: usize) -> bool
    requires { Gatherable (trade_table trades.now count netted) }
    ensures { result ≡ some is_client (today (trade_table trades.now count netted)) }
{
    // Not `any`: over a range its goal `returns` stays open.
    for place in netted..count {
        if is_client(rows::trade_at(trades, place)) {
            return true;
        }
    }
    false
}

// What is sold beyond what is bought is short, at the highest sale; else long, at the highest purchase.
fn position_of(
    day: BusinessDay,
    member: u8,
    kind: Kind,
    security: u16,
    bought: Total,
    sold: Total,
) -> Position
    requires { Unequal day bought sold }
    ensures { net_from day.0 (key_for member kind security) bought sold ≡ result ∷ [] }
{
    let settlement = BusinessDay(day.0 + 2);
    let (short, reference, netted) = if bought.units < sold.units {
        (true, sold.highest, sold.units - bought.units)
    } else {
        (false, bought.highest, bought.units - sold.units)
    };
    Position {
        member,
        kind,
        security,
        short,
        settlement,
        reference,
        netted,
        delivered: 0,
        bought: 0,
        cash: 0,
        paired: 0,
        unsettled: netted,
    }
}

// How many positions the table holds with those of one member's business of a kind, by rising security.
fn net_kind(
    rows: &mut [u32; POSITION_CELLS],
    totals: &[Total; TOTALS],
    day: BusinessDay,
    member: u8,
    kind: Kind,
    securities: u16,
    held: usize,
) -> usize
    requires { (KindFits totals.now day member kind securities held) × (length rows.old ≡ POSITION_CELLS) }
    ensures { (Appended (position_table rows.old held) (kind_positions day.0 totals.now securities member kind) (position_table rows.new result)) × (length rows.new ≡ POSITION_CELLS) }
{
    let mut n = held;
    // Not 1..=securities: its last turn returns from the body, and the goal `returns-after-bought-sold` stays open.
    for security in 1..securities + 1 {
        let bought = totals[place_of(Side::Purchase, member, security)];
        let sold = totals[place_of(Side::Sale, member, security)];
        if bought.units != sold.units {
            let position = position_of(day, member, kind, security, bought, sold);
            rows::put_row(rows, n, position);
            n += 1;
        }
    }
    n
}

// How many positions the table holds with those of every member's business, its own before its clients', if there is any of those.
fn net_members(
    rows: &mut [u32; POSITION_CELLS],
    own: &[Total; TOTALS],
    clients: Option<&[Total; TOTALS]>,
    day: BusinessDay,
    securities: u16,
    held: usize,
) -> usize
    requires { (MembersFit (member_positions day.0 own.now (option_copied clients) securities) day securities held) × (length rows.old ≡ POSITION_CELLS) }
    ensures { (Appended (position_table rows.old held) (each (member_positions day.0 own.now (option_copied clients.entry) securities) (range 1 MEMBERS)) (position_table rows.new result)) × (length rows.new ≡ POSITION_CELLS) }
{
    let mut n = held;
    for member in 1..=MEMBERS {
        n = net_kind(rows, own, day, member, Kind::Own, securities, n);
        if let Some(client) = clients {
            n = net_kind(rows, client, day, member, Kind::Client, securities, n);
        }
    }
    n
}

// How many positions the table holds with those of a day that has client business.
fn net_clients(
    rows: &mut [u32; POSITION_CELLS],
    own: &[Total; TOTALS],
    held: usize,
    trades: &[u32; TRADE_CELLS],
    netted: usize,
    count: usize,
    day: BusinessDay,
    securities: u16,
) -> usize
    requires { (DayFits (position_table rows.old held) (trade_table trades.now count netted) day securities) × (Gathered Kind.Own (trade_table trades.now count netted) own.now) × (length rows.old ≡ POSITION_CELLS) }
    ensures { (DayNetted (position_table rows.old held) (trade_table trades.now count netted) day securities (position_table rows.new result)) × (length rows.new ≡ POSITION_CELLS) }
{
    let mut client = [NO_TOTAL; TOTALS];
    gather(&mut client, Kind::Client, trades, netted, count);
    net_members(rows, own, Some(&client), day, securities, held)
}

// How many positions the table holds with those that the day's trades make.
fn net_trades(
    rows: &mut [u32; POSITION_CELLS],
    held: usize,
    trades: &[u32; TRADE_CELLS],
    netted: usize,
    count: usize,
    day: BusinessDay,
    securities: u16,
) -> usize
    requires { (DayFits (position_table rows.old held) (trade_table trades.now count netted) day securities) × (length rows.old ≡ POSITION_CELLS) }
    ensures { (DayNetted (position_table rows.old held) (trade_table trades.now count netted) day securities (position_table rows.new result)) × (length rows.new ≡ POSITION_CELLS) }
{
    let mut own = [NO_TOTAL; TOTALS];
    gather(&mut own, Kind::Own, trades, netted, count);
    if has_client(trades, netted, count) {
        return net_clients(rows, &own, held, trades, netted, count, day, securities);
    }
    net_members(rows, &own, None, day, securities, held)
}

// How many positions the table holds with those of the day. A day without trades makes none.
pub fn net_day(
    rows: &mut [u32; POSITION_CELLS],
    held: usize,
    trades: &[u32; TRADE_CELLS],
    netted: usize,
    count: usize,
    day: BusinessDay,
    securities: u16,
) -> usize
    requires { (DayFits (position_table rows.old held) (trade_table trades.now count netted) day securities) × (length rows.old ≡ POSITION_CELLS) }
    ensures { (DayNetted (position_table rows.old held) (trade_table trades.now count netted) day securities (position_table rows.new result)) × (length rows.new ≡ POSITION_CELLS) }
{
    if netted == count {
        return held;
    }
    net_trades(rows, held, trades, netted, count, day, securities)
}
