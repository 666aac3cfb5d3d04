// What the player prints for an input, in blocks that are written into a lent page. Document 01, 'Event files and the player'.
#![tactic(auto)]

ghost use Rattle.std.specs.Prelude.{◌≡◌, ◌+◌, ◌*◌, min, length, take};
ghost use Rattle.laws.specs.Limits.{PLACES, SHEET_CELLS};
ghost use Rattle.pieces.specs.Sheet.{pieces_of};
ghost use Rattle.plain.specs.Histories.{calls_of};
ghost use Rattle.laws.specs.Answers.{number_in, quantity_of};
ghost use Rattle.replay.specs.Replay.{sheet_after};
ghost use Rattle.machine.specs.declared.Numbers.{Numbers};
ghost use Rattle.machine.specs.View.{on_rows, on_ledger, book_of, Held};
ghost use Rattle.report.specs.Lines.{LINE, event_lines};
ghost use Rattle.report.specs.Pages.{Wrote};
ghost use Rattle.transcript.specs.Transcript.{register_length, end_text};
ghost use Rattle.transcript.specs.Playing.{StartedOn, BLOCK, END, PlayedOn, between};

use calls::{Core, Numbers};
use events::Event;
use laws::{POSITION_CELLS, Refusal, SHEET_CELLS, TurnedDown};
use plain::Ledger;

// Where an input's file begins, and the core of its register's new book.
#[derive(Clone, Copy)]
pub struct Started {
    pub file: usize,
    pub core: Core,
}

// What some events of a file made: the core after them, the place of the next event, and the bytes of their lines.
#[derive(Clone, Copy)]
pub struct Played {
    pub core: Core,
    pub next: usize,
    pub used: usize,
}

// A page with fewer bytes takes no event, since the event may have 1,024 pieces.
pub const BLOCK: usize = 82_000;

// A page with fewer bytes is too short for 1,024 positions and 64 accounts.
pub const END: usize = 87_040;

// The bytes of an input that the program reads: of a longer one they print the same (`specs/Cut.antt`, `first-bytes`).
pub const INPUT: usize = 36_864;

// Where the register ends, by its own count, or the input does.
fn register_end(input: &[u8]) -> usize
    ensures { result ≡ min (register_length input.now) (length input.now) }
{
    let length = input.len();
    if length < 2 {
        return length;
    }
    let count = words::word16(input[0], input[1]) as usize;
    length.min(2 + 13 * count)
}

// Where the input is refused the same stands beside the reason, of the register that was read. Not inlined, as `replay::ready`.
#[inline(never)]
pub fn start(input: &[u8]) -> Result<Started, TurnedDown<Started>>
    ensures { StartedOn input.now result }
{
    let file = register_end(input);
    match replay::ready(&input[..file], &input[file..]) {
        Ok(core) => Ok(Started { file, core }),
        Err(turned_down) => Err(TurnedDown {
            refusal: turned_down.refusal,
            value: Started {
                file,
                core: turned_down.value,
            },
        }),
    }
}

// The number of an outcome, 0 where nothing turns the call down.
fn number_of(outcome: Result<u32, Refusal>) -> u8
    ensures { result ≡ number_in outcome }
{
    match outcome {
        Ok(_) => 0,
        Err(refusal) => u8::from(refusal),
    }
}

// The lines of an event, with those of its pieces, which stand in the first places of the sheet.
pub fn answer_lines(
    page: &mut [u8],
    number: u32,
    outcome: Result<u32, Refusal>,
    sheet: &[u64; SHEET_CELLS],
    pieces: usize,
) -> usize
    ensures { Wrote (LINE * (1 + min pieces PLACES)) (event_lines number (number_in outcome) (quantity_of outcome) (take pieces (pieces_of sheet.now))) page.old page.new result }
{
    let refusal = number_of(outcome);
    report::event_lines(page, number, refusal, outcome.unwrap_or(0), sheet, pieces)
}

// Events of a file, from a place on, as long as the page has room for one more with all its pieces. Each arm assigns the answer itself: where
// ways of returning a core join, as in `calls::step`, the compiler copies it. The loop has two tests, so it is no range.
pub fn play_events(
    page: &mut [u8],
    file: &[u8],
    core: Core,
    lent: &mut Numbers,
    sheet: &mut [u64; SHEET_CELLS],
    from: usize,
) -> Played
    requires { (Held core lent.old) × (length sheet.old ≡ SHEET_CELLS) }
    ensures { (PlayedOn file.now core lent.old from page.old page.new lent.new result) × (length sheet.new ≡ SHEET_CELLS) × (sheet.new ≡ sheet_after (book_of core lent.old) (calls_of (between file.now from result.next)) sheet.old) }
{
    let count = files::events_in(file) as usize;
    let room = page.len();
    let mut last = machine::done(core, 0, 0);
    let mut next = from;
    let mut used: usize = 0;
    while next < count && used + BLOCK <= room {
        let event = files::event_at(file, next);
        match event {
            Event::Trade(t) => last = calls::trade(last.core, &mut lent.trades, t),
            Event::Price(p) => last = calls::price(last.core, p),
            Event::Delivery(d) => last = calls::delivery(last.core, lent, sheet, d),
            Event::Attempt(a) => last = calls::attempt(last.core, &lent.rows, a),
            Event::Offer(o) => last = calls::offer(last.core, &lent.rows, &lent.words, o),
            Event::Award(a) => last = calls::award(last.core, &lent.rows, &mut lent.awards, a),
            Event::Confirm(c) => last = calls::confirm(last.core, lent, sheet, c),
            Event::Cash(c) => last = calls::cash(last.core, lent, sheet, c),
            Event::Close => last = calls::close(last.core, lent),
            Event::PairOff(x) => last = calls::pair_off(last.core, lent, sheet, x),
        }
        next += 1;
        used += answer_lines(
            &mut page[used..],
            next as u32,
            last.outcome,
            sheet,
            last.pieces,
        );
    }
    Played {
        core: last.core,
        next,
        used,
    }
}

// The lines of the positions and accounts.
pub fn end_lines(
    page: &mut [u8],
    core: Core,
    rows: &[u32; POSITION_CELLS],
    ledger: &Ledger,
) -> usize
    requires { (others : Numbers) × Held core (on_ledger (on_rows others rows.now) ledger.now) }
    ensures { (others : Numbers) → Wrote END (end_text (book_of core (on_ledger (on_rows others rows.now) ledger.now))) page.old page.new result }
{
    if page.len() < END {
        return 0;
    }
    let count = calls::position_count(core);
    let used = report::position_lines(page, rows, count);
    used + report::account_lines(&mut page[used..], ledger)
}
