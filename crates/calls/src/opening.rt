// A new book: its core, and the tables that are lent with it.
ghost use Rattle.std.specs.Prelude.{◌≡◌, length, replicate};
ghost use Rattle.laws.specs.Limits.{ACCOUNTS, ATTEMPTS, AWARD_CELLS, COUNT_CELLS, OFFERS, POSITION_CELLS, SECURITIES, TRADE_CELLS};
ghost use Rattle.register.specs.Accepted.{Registered};
ghost use Rattle.plain.specs.Book.{no_price, new};
ghost use Rattle.tables.specs.Tables.{prices};
ghost use Rattle.calls.specs.Opening.{OpenedOn, no_numbers};
ghost use Rattle.machine.specs.declared.Numbers.{Numbers};
ghost use Rattle.machine.specs.View.{book_of, Held, Blank};

use events::Offer;
use laws::{
    ACCOUNTS, ATTEMPTS, AWARD_CELLS, BusinessDay, COUNT_CELLS, OFFERS, POSITION_CELLS, SECURITIES,
    TRADE_CELLS, TurnedDown,
};
use machine::{Core, Numbers};
use plain::{Ledger, Opening};
use tables::{Auction, Marks, Prices};

// The parts of a new book.
fn no_prices() -> Prices
    ensures { prices result ≡ replicate SECURITIES no_price }
{
    Prices {
        latest: [0; SECURITIES],
        days: [BusinessDay(0); SECURITIES],
    }
}

fn no_auction() -> Auction
    ensures { (result.position ≡ 0) × (result.ceiling ≡ 0) × (result.count ≡ 0) × (length result.offers ≡ OFFERS) }
{
    let none = Offer {
        position: 0,
        offerer: 0,
        quantity: 0,
        price: 0,
    };
    Auction {
        position: 0,
        ceiling: 0,
        offers: [none; OFFERS],
        count: 0,
    }
}

fn no_marks() -> Marks
    ensures { (result.count ≡ 0) × (length result.items ≡ ATTEMPTS) }
{
    Marks {
        items: [0; ATTEMPTS],
        count: 0,
    }
}

// A new book. Whatever stands in the tables of positions, trades and awards that are lent with it, no definition reads; counts, starts, words and accounts are 0.
pub fn new_core(opening: Opening) -> Core
    ensures { (a : Numbers) → Blank a → (book_of result a ≡ new opening) × (Registered opening.register → Held result a) }
{
    Core {
        opening,
        day: BusinessDay(1),
        prices: no_prices(),
        auction: no_auction(),
        marks: no_marks(),
        late: 0,
        positions: 0,
        trades: 0,
        netted: 0,
        awards: 0,
    }
}

// What is lent with a new book, each number 0.
pub fn new_numbers() -> Numbers
    ensures zeros { result ≡ no_numbers }
    ensures blank { Blank result }
{
    Numbers {
        rows: [0; POSITION_CELLS],
        trades: [0; TRADE_CELLS],
        awards: [0; AWARD_CELLS],
        counts: [0; COUNT_CELLS],
        starts: [0; SECURITIES],
        words: [0; SECURITIES],
        ledger: Ledger {
            credits: [0; ACCOUNTS],
            debits: [0; ACCOUNTS],
        },
    }
}

// The core of the new book on a register's bytes; where they are refused, of that on the empty register, beside the reason.
pub fn open_core(bytes: &[u8]) -> Result<Core, TurnedDown<Core>>
    ensures { OpenedOn bytes.now result }
{
    match register::read_register(bytes) {
        Ok(register) => Ok(new_core(Opening { register })),
        Err(turned_down) => Err(TurnedDown {
            refusal: turned_down.refusal,
            value: new_core(Opening {
                register: turned_down.value,
            }),
        }),
    }
}
