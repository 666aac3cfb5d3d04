// A file of events played on a new book. Document 01, 'Event files and the player'.
#![tactic(auto)]

ghost use Rattle.std.specs.Prelude.{◌≤◌, ◌≡◌, length, take};
ghost use Rattle.laws.specs.Limits.{SHEET_CELLS};
ghost use Rattle.files.specs.File.{events_of};
ghost use Rattle.plain.specs.Book as plain;
ghost use Rattle.plain.specs.Histories.{run, calls_of};
ghost use Rattle.machine.specs.declared.Numbers.{Numbers};
ghost use Rattle.machine.specs.View.{book_of, Held, Blank};
ghost use Rattle.book.specs.View.{view, Valid};
ghost use Rattle.calls.specs.Opening.{NewlyHeld, OpensAs};
ghost use Rattle.history.specs.Runs.{stand_of, RunsTo};
ghost use Rattle.replay.specs.Replay.{ReadyFor, PlayedUpTo, sheet_after, ReplayedFrom};

use book::Book;
use calls::{Core, Numbers};
use laws::{SHEET_CELLS, TurnedDown};

// A book is opened on the register, and the file is checked. No event is played. Where either is refused the core that opening answered stands beside the reason.
// Not inlined: with the copies of a core that this makes in it, what a caller plays afterwards was compiled worse, 2,000 closes by a quarter.
#[inline(never)]
pub fn ready(register: &[u8], file: &[u8]) -> Result<Core, TurnedDown<Core>>
    ensures { ReadyFor register.now file.now result }
{
    let core = calls::open_core(register)?;
    match files::file_refusal(file) {
        Ok(()) => Ok(core),
        Err(refusal) => Err(TurnedDown {
            refusal,
            value: core,
        }),
    }
}

// The first `stop` events of a file, one after the other.
pub fn play(
    core: Core,
    lent: &mut Numbers,
    sheet: &mut [u64; SHEET_CELLS],
    file: &[u8],
    stop: usize,
) -> Core
    requires held { Held core lent.old }
    requires places { length sheet.old ≡ SHEET_CELLS }
    requires there { stop ≤ length (events_of file.now) }
    ensures played { PlayedUpTo core lent.old (take stop (events_of file.now)) result lent.new }
    ensures filled { sheet.new ≡ sheet_after (book_of core lent.old) (calls_of (take stop (events_of file.now))) sheet.old }
{
    let mut after = core;
    for i in 0..stop {
        after = calls::step(after, lent, sheet, files::event_at(file, i)).core;
    }
    after
}

// The book after all events of a file, as one value. They are played in place, on what stands here.
fn played(core: Core, file: &[u8]) -> Book
    requires { NewlyHeld core }
    ensures valid { Valid result }
    ensures book { (b : plain.Book) → OpensAs core b → view result ≡ run b (calls_of (events_of file.now)) }
    ensures runs { (a : Numbers) × (Blank a) × (RunsTo (record { core = core; numbers = a }) (calls_of (events_of file.now)) (stand_of result)) }
{
    let mut lent = calls::new_numbers();
    let mut sheet = pieces::blank_numbers();
    let count = files::events_in(file) as usize;
    let after = play(core, &mut lent, &mut sheet, file, count);
    Book::made_of(after, lent)
}

// The file is played on a book that is opened on the register. Nothing is played where either is refused; the new book stands beside the reason then.
pub fn replay(register: &[u8], file: &[u8]) -> Result<Book, TurnedDown<Book>>
    ensures { ReplayedFrom register.now file.now result }
{
    match ready(register, file) {
        Ok(core) => Ok(played(core, file)),
        Err(turned_down) => Err(TurnedDown {
            refusal: turned_down.refusal,
            value: Book::unplayed(turned_down.value),
        }),
    }
}
