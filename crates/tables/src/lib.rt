// The small tables of the machine's book, by value: an array with the number of its places that are in use. It has no function.
// What stands past the count is free. The large tables, of positions, trades, awards and pieces, are numbers that a caller lends
// (`rows`, `pieces`); what these stand for is said in specs/.
#![tactic(auto)]

use events::Offer;
use laws::{ATTEMPTS, BusinessDay, OFFERS, PLACES, SECURITIES};
use plain::Piece;

// The latest price of each security, 0 where it never had one, and the day on which it was given: a column each, which are copied as a whole,
// where an array of structs is copied field by field.
#[derive(Clone, Copy)]
pub struct Prices {
    pub latest: [u32; SECURITIES],
    pub days: [BusinessDay; SECURITIES],
}

// The auction on a short; position 0: none runs, as `no_auction` of the plain book has it. Its offers and the marks and pieces below are arrays of the most
// places with a count, since the project has no heap.
#[derive(Clone, Copy)]
pub struct Auction {
    pub position: u16,
    pub ceiling: u64,
    pub offers: [Offer; OFFERS],
    pub count: usize,
}

// The positions that an attempt was opened on today.
#[derive(Clone, Copy)]
pub struct Marks {
    pub items: [u16; ATTEMPTS],
    pub count: usize,
}

// The pieces of one discharge, for a caller that wants them by value.
#[derive(Clone, Copy)]
pub struct Pieces {
    pub items: [Piece; PLACES],
    pub count: usize,
}
