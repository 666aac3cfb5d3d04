// Definitions and laws that more than one crate cites, the limits of document 01, the two kinds of day, and the reasons that turn a call down.
#![tactic(auto)]

ghost use Rattle.std.specs.Prelude.{◌≡◌};

// A business day by its number, counted from a book's day 1.
// Document 01: "A business-day number is never taken for a calendar day."
#[derive(Clone, Copy)]
pub struct BusinessDay(pub u16);

// A calendar day by its number, counted from 2000-01-01, which is 0.
// Only the crate `calendar` turns one kind of day into the other.
#[derive(Clone, Copy)]
pub struct CalendarDay(pub u16);

// Why a call is turned down: document 01, 'Why a call is turned down', 1 to 31 in its order, and document 02 after them.
#[derive(Clone, Copy, PartialEq, Eq)]
pub enum Refusal {
    WrongSize,
    WrongClass,
    WrongIsin,
    RepeatedIsin,
    FileShape,
    UnknownKind,
    SpareByte,
    SmallSheet,
    NoMember,
    NotRegistered,
    NotThere,
    WrongQuantity,
    WrongPrice,
    SellerIsBuyer,
    TradesFull,
    Long,
    OutsideWindow,
    Auction,
    NoPrice,
    Attempted,
    Failing,
    AboveCeiling,
    OffersFull,
    NotEnough,
    Confirmed,
    NoNextDay,
    InvalidDate,
    WrongHolidays,
    NoBusinessDay,
    After2099,
    ShortPage,
    OldPrice,
    WrongKind,
    NotPairable,
}

// The number of a reason in the papers' list.
impl From<Refusal> for u8 {
    ghost use Rattle.laws.specs.Answers.{number};

    ghost from_gives = { λ refusal n. n ≡ number refusal };

    fn from(refusal: Refusal) -> u8 {
        match refusal {
            Refusal::WrongSize => 1,
            Refusal::WrongClass => 2,
            Refusal::WrongIsin => 3,
            Refusal::RepeatedIsin => 4,
            Refusal::FileShape => 5,
            Refusal::UnknownKind => 6,
            Refusal::SpareByte => 7,
            Refusal::SmallSheet => 8,
            Refusal::NoMember => 9,
            Refusal::NotRegistered => 10,
            Refusal::NotThere => 11,
            Refusal::WrongQuantity => 12,
            Refusal::WrongPrice => 13,
            Refusal::SellerIsBuyer => 14,
            Refusal::TradesFull => 15,
            Refusal::Long => 16,
            Refusal::OutsideWindow => 17,
            Refusal::Auction => 18,
            Refusal::NoPrice => 19,
            Refusal::Attempted => 20,
            Refusal::Failing => 21,
            Refusal::AboveCeiling => 22,
            Refusal::OffersFull => 23,
            Refusal::NotEnough => 24,
            Refusal::Confirmed => 25,
            Refusal::NoNextDay => 26,
            Refusal::InvalidDate => 27,
            Refusal::WrongHolidays => 28,
            Refusal::NoBusinessDay => 29,
            Refusal::After2099 => 30,
            Refusal::ShortPage => 31,
            Refusal::OldPrice => 32,
            Refusal::WrongKind => 33,
            Refusal::NotPairable => 34,
        }
    }
}

// Why a call that makes a value turns its argument down, with the value that it hands out all the same.
#[derive(Clone, Copy)]
pub struct TurnedDown<T> {
    pub refusal: Refusal,
    pub value: T,
}

// The reason alone, which `?` passes on where the value is not wanted.
impl<T: Drop> From<TurnedDown<T>> for Refusal {
    ghost from_gives = { λ turned_down refusal. refusal ≡ turned_down.refusal };

    fn from(turned_down: TurnedDown<T>) -> Refusal {
        turned_down.refusal
    }
}

// The limits of document 01, as `specs/Limits.antt` has them.
pub const MEMBERS: u8 = 63;

pub const ACCOUNTS: usize = 64;

pub const SECURITIES: usize = 32;

pub const TRADES: usize = 512;

pub const POSITIONS: usize = 1024;

// The places that a discharge asks of its sheet.
pub const PLACES: usize = 1024;

pub const ATTEMPTS: usize = 16;

pub const OFFERS: usize = 16;

pub const AWARDS: usize = 256;

pub const LAST_DAY: u16 = 9_999;

pub const MOST_QUANTITY: u32 = 1_000_000;

pub const MOST_PRICE: u32 = 10_000_000;

pub const EVENTS: usize = 2_048;

// How many numbers a row of each lent table has, and all of its rows; the late open shorts are counted in one number for each security and account.
pub const POSITION_WIDTH: usize = 12;

pub const POSITION_CELLS: usize = POSITION_WIDTH * POSITIONS;

pub const TRADE_WIDTH: usize = 7;

pub const TRADE_CELLS: usize = TRADE_WIDTH * TRADES;

pub const AWARD_WIDTH: usize = 5;

pub const AWARD_CELLS: usize = AWARD_WIDTH * AWARDS;

pub const PIECE_WIDTH: usize = 5;

pub const SHEET_CELLS: usize = PIECE_WIDTH * PLACES;

pub const COUNT_CELLS: usize = SECURITIES * ACCOUNTS;
