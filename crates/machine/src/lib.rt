// The core of a book in place, and what all calls do with it. The core goes in and comes back by value; the tables of positions, trades and awards, the
// counts of late open shorts, the places where walks start, the words of failing members and the accounts are numbers that a caller lends. The core's
// fields are public: what protects a call is that it asks for a core and numbers that are held (`Held`), which opening and every call leave.
#![tactic(auto)]

ghost use Rattle.std.specs.Prelude.{◌≤◌, ◌≡◌, length, Ok, Err};
ghost use Rattle.laws.specs.Asked.{Within};
ghost use Rattle.register.specs.Accepted.{Registered};
ghost use Rattle.plain.specs.Book.{nth, no_price, looked_up, price_in};
ghost use Rattle.tables.specs.Tables as table;

use laws::{
    AWARD_CELLS, BusinessDay, COUNT_CELLS, POSITION_CELLS, Refusal, SECURITIES, TRADE_CELLS,
};
use plain::{Latest, Ledger, Opening};
use tables::{Auction, Marks, Prices};

// The small parts of a book, and how many places of each table are in use. The first `netted` trades are of earlier days. All positions
// before the place `late` are late, and from it on none is.
#[derive(Clone, Copy)]
pub struct Core {
    pub opening: Opening,
    pub day: BusinessDay,
    pub prices: Prices,
    pub auction: Auction,
    pub marks: Marks,
    pub late: usize,
    pub positions: usize,
    pub trades: usize,
    pub netted: usize,
    pub awards: usize,
}

// What is lent to the calls beside the core, and changed where it stands: the tables of positions, trades and awards, the counts of late open shorts, for each
// security the place where the walk of a discharge starts and its word of failing members, and the accounts.
#[derive(Drop)]
pub struct Numbers {
    pub rows: [u32; POSITION_CELLS],
    pub trades: [u32; TRADE_CELLS],
    pub awards: [u32; AWARD_CELLS],
    pub counts: [u32; COUNT_CELLS],
    pub starts: [usize; SECURITIES],
    pub words: [u64; SECURITIES],
    pub ledger: Ledger,
}

// What a call answers, refused or not, since a refused call hands back the very core that it was given: the core after it, its quantity or why it is turned down, and how many pieces it wrote on its sheet.
#[derive(Clone, Copy)]
pub struct Answered {
    pub core: Core,
    pub outcome: Result<u32, Refusal>,
    pub pieces: usize,
}

pub fn refused(core: Core, refusal: Refusal) -> Answered
    ensures { result ≡ record { core = core; outcome = Err refusal; pieces = 0 } }
{
    Answered {
        core,
        outcome: Err(refusal),
        pieces: 0,
    }
}

pub fn done(core: Core, quantity: u32, pieces: usize) -> Answered
    ensures { result ≡ record { core = core; outcome = Ok quantity; pieces = pieces } }
{
    Answered {
        core,
        outcome: Ok(quantity),
        pieces,
    }
}

pub fn class_of(opening: Opening, security: u16) -> u8
    requires { (Registered opening.register) × (1 ≤ security) × (security ≤ SECURITIES) }
    ensures { result ≡ nth 0 opening.register.classes security }
{
    let register = opening.register;
    let s = security as usize;
    register.classes[s - 1]
}

// The latest price of a security, of any age.
pub fn latest_of(prices: Prices, security: u16) -> Option<Latest>
    requires { (length (table.prices prices) ≡ SECURITIES) × (Within 1 SECURITIES security) }
    ensures { result ≡ looked_up (nth no_price (table.prices prices) security) }
{
    let k = (security - 1) as usize;
    let price = prices.latest[k];
    if price == 0 {
        return None;
    }
    let day = prices.days[k];
    Some(Latest { price, day })
}

// The price that a lookup told, 0 where none was given.
pub fn price_of(latest: Option<Latest>) -> u32
    ensures { result ≡ price_in latest }
{
    latest.map_or(0, |given| given.price)
}
