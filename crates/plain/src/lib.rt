// The values that the plain book and the machine's book share.
#![tactic(auto)]

ghost use Rattle.std.specs.Prelude.{◌≡◌};

use laws::{ACCOUNTS, BusinessDay};
use register::Register;

// What a book is opened with.
#[derive(Clone, Copy)]
pub struct Opening {
    pub register: Register,
}

// The latest price of a security and the day on which it was given. In a table price 0 stands for none; a lookup answers an `Option`.
#[derive(Clone, Copy)]
pub struct Latest {
    pub price: u32,
    pub day: BusinessDay,
}

// The kind of business that a side of a trade, and a position, belongs to: a member's own or its clients'.
#[derive(Clone, Copy, PartialEq, Eq)]
pub enum Kind {
    Own = 0,
    Client = 1,
}

// The number of a kind, as a trade has it: 0 own, 1 client.
impl From<Kind> for u8 {
    ghost use Rattle.plain.specs.Netting.{kind_number};

    ghost from_gives = { λ kind n. n ≡ kind_number kind };

    fn from(kind: Kind) -> u8 {
        kind as u8
    }
}

// A member's netted quantity of a security in business of one kind, short or long.
#[derive(Clone, Copy)]
pub struct Position {
    pub member: u8,
    pub kind: Kind,
    pub security: u16,
    pub short: bool,
    // the delivery day S
    pub settlement: BusinessDay,
    // the reference price
    pub reference: u32,
    pub netted: u32,
    pub delivered: u32,
    // bought in
    pub bought: u32,
    // settled in cash
    pub cash: u32,
    // paired off
    pub paired: u32,
    // open
    pub unsettled: u32,
}

// How a piece discharges its two positions.
#[derive(Clone, Copy)]
pub enum Manner {
    Delivered,
    BoughtIn,
    Cash,
    Paired,
}

// A share of a discharge: units of a short that are dealt out to a long.
#[derive(Clone, Copy)]
pub struct Piece {
    pub short: u16,
    pub long: u16,
    pub quantity: u32,
    pub manner: Manner,
    pub cents: u64,
}

// What an offer was awarded in an auction on a short.
#[derive(Clone, Copy)]
pub struct Award {
    pub position: u16,
    pub offerer: u8,
    pub quantity: u32,
    pub price: u32,
    pub confirmed: bool,
}

// The accounts 0 to 63 as the cents that each was credited and debited in all: its balance is the difference. Two columns, as the definitions of charges
// raise them (`raise`, `Places`).
#[derive(Clone, Copy)]
pub struct Ledger {
    pub credits: [u64; ACCOUNTS],
    pub debits: [u64; ACCOUNTS],
}
