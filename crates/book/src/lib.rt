// The fails book as one value: a core with what is lent beside it, whose fields only this crate can change. `step` lends them to the event's call in place
// (`calls`), and each call is `step` of its event.
#![tactic(auto)]

ghost use Rattle.std.specs.Prelude.{◌≡◌, [], false, length, Err};
ghost use Rattle.events.specs.declared.Event.TheVariants as event;
ghost use Rattle.laws.specs.declared.Refusal.TheVariants.{SmallSheet};
ghost use Rattle.plain.specs.Calls.{call, is_discharge};
ghost use Rattle.plain.specs.Sound.{Places};
ghost use Rattle.plain.specs.Book as plain;
ghost use Rattle.machine.specs.View.{book_of, Held};
ghost use Rattle.calls.specs.Opening.{NewlyHeld, OpensAs};
ghost use Rattle.reading.specs.Reading.{position_answer, award_answer, price_answer, balance_answer};
ghost use Rattle.book.specs.View.{view, Valid, Returned};
ghost use Rattle.book.specs.Opening.{OpenedOn};
ghost use Rattle.book.specs.Stepping.{WithoutPieces, Stepped};

use calls::{Core, Numbers};
use events::{Attempt, Cash, Confirm, Delivery, Event, Offer, PairOff, Price, Trade};
use laws::{BusinessDay, PLACES, Refusal, TurnedDown};
use plain::{Award, Latest, Ledger, Position};
use rules::Amount;
use tables::Pieces;

#[derive(Drop)]
pub struct Book {
    core: Core,
    lent: Numbers,
}

// What a discharge answers: its quantity or why it is turned down, and its pieces.
#[derive(Drop)]
pub struct Discharged {
    pub outcome: Result<u32, Refusal>,
    pub pieces: Pieces,
}

// Whether the event is a discharge, whose call has a sheet.
fn is_discharge(e: Event) -> bool
    ensures { result ≡ is_discharge e }
{
    matches!(
        e,
        Event::Delivery(_) | Event::Confirm(_) | Event::Cash(_) | Event::PairOff(_)
    )
}

// A sheet that is too small turns a discharge down before anything else.
fn small_sheet() -> Discharged
    ensures { WithoutPieces (Err SmallSheet) result }
{
    Discharged {
        outcome: Err(Refusal::SmallSheet),
        pieces: Pieces {
            items: pieces::blank_pieces(),
            count: 0,
        },
    }
}

impl Book {
    // One value of a core and what was lent with it.
    pub fn made_of(core: Core, lent: Numbers) -> Book
        requires { Held core lent }
        ensures made { result ≡ record { core = core; lent = lent } }
        ensures valid { Valid result }
        ensures view { view result ≡ book_of core lent }
    {
        Book { core, lent }
    }

    // The book of a core that no call was made on yet.
    pub fn unplayed(core: Core) -> Book
        ensures view { (b : plain.Book) → OpensAs core b → view result ≡ b }
        ensures valid { NewlyHeld core → Valid result }
    {
        Book {
            core,
            lent: calls::new_numbers(),
        }
    }

    // The new book on a register's bytes; where they are refused, that on the empty register, beside the reason.
    pub fn new(bytes: &[u8]) -> Result<Book, TurnedDown<Book>>
        ensures { OpenedOn bytes.now result }
    {
        match calls::open_core(bytes) {
            Ok(core) => Ok(Book::unplayed(core)),
            Err(turned_down) => Err(TurnedDown {
                refusal: turned_down.refusal,
                value: Book::unplayed(turned_down.value),
            }),
        }
    }

    pub fn day(&self) -> BusinessDay
        requires { Valid self.now }
        ensures { result.0 ≡ (view self.now).day }
    {
        calls::day(self.core)
    }

    pub fn position_count(&self) -> usize
        requires { Valid self.now }
        ensures { result ≡ length (view self.now).positions }
    {
        calls::position_count(self.core)
    }

    pub fn position(&self, number: u16) -> Result<Position, Refusal>
        requires { Valid self.now }
        ensures { result ≡ position_answer (view self.now) number }
    {
        calls::position(self.core, &self.lent.rows, number)
    }

    pub fn award_at(&self, number: u16) -> Result<Award, Refusal>
        requires { Valid self.now }
        ensures { result ≡ award_answer (view self.now) number }
    {
        calls::award_at(self.core, &self.lent.awards, number)
    }

    // The latest price of a security, of any age, and the day on which it was given.
    pub fn latest_price(&self, security: u16) -> Result<Option<Latest>, Refusal>
        requires { Valid self.now }
        ensures { result ≡ price_answer (view self.now) security }
    {
        calls::latest_price(self.core, security)
    }

    pub fn balance(&self, account: u8) -> Result<Amount, Refusal>
        requires { Valid self.now }
        ensures { result ≡ balance_answer (view self.now) account }
    {
        calls::balance(&self.lent.ledger, account)
    }

    // All accounts at once.
    pub fn accounts(&self) -> Ledger
        requires { Valid self.now }
        ensures { (result ≡ (view self.now).ledger) × (Places result) }
    {
        self.lent.ledger
    }

    // One event, by the call of its kind: the only function that lends the fields of a book to a call.
    pub fn step(&mut self, sheet: usize, e: Event) -> Discharged
        requires { Valid self.old }
        ensures { Stepped self.old e sheet self.new result }
    {
        if sheet < PLACES && is_discharge(e) {
            return small_sheet();
        }
        let mut numbers = pieces::blank_numbers();
        let answered = calls::step(self.core, &mut self.lent, &mut numbers, e);
        self.core = answered.core;
        Discharged {
            outcome: answered.outcome,
            pieces: Pieces {
                items: pieces::pieces_of(&numbers),
                count: answered.pieces,
            },
        }
    }

    pub fn delivery(&mut self, sheet: usize, d: Delivery) -> Discharged
        requires { Valid self.old }
        ensures { Stepped self.old (event.Delivery d) sheet self.new result }
    {
        self.step(sheet, Event::Delivery(d))
    }

    pub fn confirm(&mut self, sheet: usize, c: Confirm) -> Discharged
        requires { Valid self.old }
        ensures { Stepped self.old (event.Confirm c) sheet self.new result }
    {
        self.step(sheet, Event::Confirm(c))
    }

    pub fn cash(&mut self, sheet: usize, c: Cash) -> Discharged
        requires { Valid self.old }
        ensures { Stepped self.old (event.Cash c) sheet self.new result }
    {
        self.step(sheet, Event::Cash(c))
    }

    pub fn pair_off(&mut self, sheet: usize, x: PairOff) -> Discharged
        requires { Valid self.old }
        ensures { Stepped self.old (event.PairOff x) sheet self.new result }
    {
        self.step(sheet, Event::PairOff(x))
    }

    // An event that is no discharge: its call has no sheet, and no piece is handed out.
    fn without_sheet(&mut self, e: Event) -> Result<u32, Refusal>
        requires valid { Valid self.old }
        requires bare { is_discharge e ≡ false }
        ensures { Returned self.old (call e 0) self.new result [] }
    {
        self.step(0, e).outcome
    }

    pub fn trade(&mut self, t: Trade) -> Result<u32, Refusal>
        requires { Valid self.old }
        ensures { Returned self.old (call (event.Trade t) 0) self.new result [] }
    {
        self.without_sheet(Event::Trade(t))
    }

    pub fn price(&mut self, p: Price) -> Result<u32, Refusal>
        requires { Valid self.old }
        ensures { Returned self.old (call (event.Price p) 0) self.new result [] }
    {
        self.without_sheet(Event::Price(p))
    }

    pub fn attempt(&mut self, a: Attempt) -> Result<u32, Refusal>
        requires { Valid self.old }
        ensures { Returned self.old (call (event.Attempt a) 0) self.new result [] }
    {
        self.without_sheet(Event::Attempt(a))
    }

    pub fn offer(&mut self, o: Offer) -> Result<u32, Refusal>
        requires { Valid self.old }
        ensures { Returned self.old (call (event.Offer o) 0) self.new result [] }
    {
        self.without_sheet(Event::Offer(o))
    }

    pub fn award(&mut self, a: events::Award) -> Result<u32, Refusal>
        requires { Valid self.old }
        ensures { Returned self.old (call (event.Award a) 0) self.new result [] }
    {
        self.without_sheet(Event::Award(a))
    }

    pub fn close(&mut self) -> Result<u32, Refusal>
        requires { Valid self.old }
        ensures { Returned self.old (call event.Close 0) self.new result [] }
    {
        self.without_sheet(Event::Close)
    }
}
