// The calls on a sheet of pieces that the caller lends. Each takes the sheet's length, makes its call, and writes the pieces.
#![tactic(auto)]

ghost use Rattle.std.specs.Prelude.{◌≡◌, ◌++◌, ◌≤◌, length, drop};
ghost use Rattle.events.specs.declared.Event.TheVariants as event;
ghost use Rattle.tables.specs.Tables as tables;
ghost use Rattle.book.specs.View.{Valid};
ghost use Rattle.sheet.specs.Lent.{ReturnedOn};

use book::Book;
use events::{Cash, Confirm, Delivery, Event, PairOff};
use laws::Refusal;
use plain::Piece;
use tables::Pieces;

// What a call on a lent sheet answers: its quantity or why it is turned down, and how many pieces it wrote.
#[derive(Clone, Copy)]
pub struct Written {
    pub outcome: Result<u32, Refusal>,
    pub count: usize,
}

// Copies the pieces into the first places of the sheet. The later places keep their content.
fn fill(sheet: &mut [Piece], pieces: &Pieces)
    requires { (tables.PiecesFit pieces.now) × (pieces.now.count ≤ length sheet.old) }
    ensures { sheet.new ≡ tables.pieces pieces.now ++ drop pieces.now.count sheet.old }
{
    let n = pieces.count;
    sheet[..n].copy_from_slice(&pieces.items[..n]);
}

// One event, by the call of its kind.
pub fn step(book: &mut Book, sheet: &mut [Piece], e: Event) -> Written
    requires { Valid book.old }
    ensures { ReturnedOn book.old e sheet.old sheet.new book.new result.outcome result.count }
{
    let done = book.step(sheet.len(), e);
    fill(sheet, &done.pieces);
    Written {
        outcome: done.outcome,
        count: done.pieces.count,
    }
}

pub fn delivery(book: &mut Book, sheet: &mut [Piece], d: Delivery) -> Written
    requires { Valid book.old }
    ensures { ReturnedOn book.old (event.Delivery d) sheet.old sheet.new book.new result.outcome result.count }
{
    step(book, sheet, Event::Delivery(d))
}

pub fn confirm(book: &mut Book, sheet: &mut [Piece], c: Confirm) -> Written
    requires { Valid book.old }
    ensures { ReturnedOn book.old (event.Confirm c) sheet.old sheet.new book.new result.outcome result.count }
{
    step(book, sheet, Event::Confirm(c))
}

pub fn cash(book: &mut Book, sheet: &mut [Piece], c: Cash) -> Written
    requires { Valid book.old }
    ensures { ReturnedOn book.old (event.Cash c) sheet.old sheet.new book.new result.outcome result.count }
{
    step(book, sheet, Event::Cash(c))
}

pub fn pair_off(book: &mut Book, sheet: &mut [Piece], x: PairOff) -> Written
    requires { Valid book.old }
    ensures { ReturnedOn book.old (event.PairOff x) sheet.old sheet.new book.new result.outcome result.count }
{
    step(book, sheet, Event::PairOff(x))
}
