// The static library for tests: what the last event of the player's input answers and prints, its call made on a lent sheet of pieces, after
// more closes than a file has room for; and the latest price of a security, which the player does not print. No desk calls it. The exported functions have no `requires`.
#![tactic(auto)]

ghost use Rattle.std.specs.Prelude.{◌-◌, ◌≡◌, length};
ghost use Rattle.files.specs.File.{events_of};
ghost use Rattle.plain.specs.Book as plain;
ghost use Rattle.plain.specs.Calls.{call};
ghost use Rattle.plain.specs.Refusals as refusals;
ghost use Rattle.plain.specs.Histories.{quantity};
ghost use Rattle.laws.specs.Answers.{answer};
ghost use Rattle.machine.specs.View.{book_of, Held};
ghost use Rattle.book.specs.View.{view, Valid};
ghost use Rattle.sheet.specs.Lent.{ReturnedOn};
ghost use Rattle.calls.specs.Opening.{NewlyHeld, OpensAs};
ghost use Rattle.report.specs.Pages.{Wrote};
ghost use Rattle.transcript.specs.Playing.{BLOCK};
ghost use Rattle.answers.specs.Packed as definition;
ghost use Rattle.probe.specs.Latest.{price_number, answer_number, latest_for};
ghost use Rattle.probe.specs.Last.{after_closes, last_event, before_last, LastAnswered, last_text, number_for, quantity_for, lines_for};

use book::Book;
use calls::{Core, Numbers};
use events::Event;
use laws::{PLACES, Refusal};
use plain::Latest;

// So many closes, the refused ones included. Those beyond a book's days are refused all alike, and not made.
fn closed(core: Core, lent: &mut Numbers, closes: u32) -> Core
    requires { Held core lent.old }
    ensures held { Held result lent.new }
    ensures closed { book_of result lent.new ≡ after_closes (book_of core lent.old) closes }
{
    let mut after = core;
    for _ in 0..closes.min(u32::from(laws::LAST_DAY)) {
        after = calls::close(after, lent).core;
    }
    after
}

// How many events stand before the last.
fn count_before_last(file: &[u8]) -> usize
    ensures { result ≡ length (events_of file.now) - 1 }
{
    (files::events_in(file) as usize).saturating_sub(1)
}

// The last event; a close where there is none.
fn last_event(file: &[u8]) -> Event
    ensures { result ≡ last_event (events_of file.now) }
{
    files::event_at(file, count_before_last(file))
}

// The book after so many closes and then all events of a file but the last, as one value. All are played in place, on what stands here.
fn before_last(core: Core, closes: u32, file: &[u8]) -> Book
    requires { NewlyHeld core }
    ensures valid { Valid result }
    ensures book { (b : plain.Book) → OpensAs core b → view result ≡ before_last (after_closes b closes) (events_of file.now) }
{
    let mut lent = calls::new_numbers();
    let mut sheet = pieces::blank_numbers();
    let later = closed(core, &mut lent, closes);
    let stop = count_before_last(file);
    let after = replay::play(later, &mut lent, &mut sheet, file, stop);
    Book::made_of(after, lent)
}

// What an event answers on a sheet of so many places. A longer sheet than 1,024 places is not made: it answers as one of 1,024.
fn outcome_on(book: Book, places: usize, e: Event) -> Result<u32, Refusal>
    requires { Valid book }
    ensures { result ≡ answer (refusals.refusal (view book) (call e places)) (quantity (view book) (call e places)) }
{
    let mut stepped = book;
    if places < PLACES {
        return stepped.step(places, e).outcome;
    }
    let mut items = pieces::blank_pieces();
    sheet::step(&mut stepped, &mut items, e).outcome
}

// What the last event of a file answers on a new book that was closed so many times and then played the events before it, where
// the last event's sheet has so many places. A file without events answers 0.
fn last_answer(core: Core, closes: u32, file: &[u8], sheet: usize) -> Result<u32, Refusal>
    requires { NewlyHeld core }
    ensures { (b : plain.Book) → OpensAs core b → LastAnswered b closes (events_of file.now) sheet result }
{
    if files::events_in(file) == 0 {
        return Ok(0);
    }
    let before = before_last(core, closes, file);
    outcome_on(before, sheet, last_event(file))
}

// The lines of the last event of a file, whose call is made on a lent sheet of pieces. The events before it are not shown.
fn last_lines(page: &mut [u8], file: &[u8], core: Core) -> usize
    requires { NewlyHeld core }
    ensures { (b : plain.Book) → OpensAs core b → Wrote BLOCK (last_text b (events_of file.now)) page.old page.new result }
{
    let count = files::events_in(file);
    if count == 0 {
        return 0;
    }
    if page.len() < transcript::BLOCK {
        return 0;
    }
    let mut book = before_last(core, 0, file);
    let mut items = pieces::blank_pieces();
    let done = sheet::step(&mut book, &mut items, last_event(file));
    let shown = pieces::numbers_of(items);
    transcript::answer_lines(page, u32::from(count), done.outcome, &shown, done.count)
}

// What the last event of the player's input answers, on a book that made so many closes before the first event, where the last event has a
// sheet of so many places: refusals 1 to 26, or 0 with its quantity.
#[unsafe(no_mangle)]
pub extern "C" fn probe_last_call(input: &[u8], closes: u32, sheet: u32) -> u64
    ensures { result ≡ definition.packed (number_for input.now closes sheet) (quantity_for input.now closes sheet) }
{
    let answer = match transcript::start(input) {
        Ok(started) => last_answer(started.core, closes, &input[started.file..], sheet as usize),
        Err(turned_down) => Err(turned_down.refusal),
    };
    answers::answered(answer)
}

// The lines that the player prints for the last event of its input, from a call on a lent sheet, into the first bytes of the page: how many
// bytes they have. An input that is refused by 1 to 7 or has no event has no line. A page with fewer than 82,000 bytes takes none.
#[unsafe(no_mangle)]
pub extern "C" fn probe_last_lines(input: &[u8], page: &mut [u8]) -> u32
    ensures { Wrote BLOCK (lines_for input.now) page.old page.new result }
{
    match transcript::start(input) {
        Ok(started) => last_lines(page, &input[started.file..], started.core) as u32,
        Err(_) => 0,
    }
}

// A price and its day as one number, 0 where none was given.
fn price_number(latest: Option<Latest>) -> u64
    ensures { result ≡ price_number latest }
{
    latest.map_or(
        0,
        |given| u64::from(given.price) * 65536 + u64::from(given.day.0),
    )
}

// The latest price of a security after all events of a file.
fn latest_after(register: &[u8], file: &[u8], security: u16) -> Result<Option<Latest>, Refusal>
    ensures { answer_number result ≡ latest_for register.now file.now security }
{
    replay::replay(register, file)?.latest_price(security)
}

// What the book answers of a security's latest price after all events of a file: refusals 1 to 7 and 10, 0 where it never had one, else the
// price times 65,536 and the day on which it was given.
#[unsafe(no_mangle)]
pub extern "C" fn probe_latest_price(register: &[u8], file: &[u8], security: u16) -> u64
    ensures { result ≡ latest_for register.now file.now security }
{
    match latest_after(register, file, security) {
        Ok(latest) => price_number(latest),
        Err(refusal) => u64::from(u8::from(refusal)),
    }
}
