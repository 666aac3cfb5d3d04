// The static library for the benchmark: an input played as the player plays it, its whole text written into a lent page and nothing printed.
// It stands alone, since a function that others use too is compiled otherwise than in the player, where each has one place.
#![tactic(auto)]

ghost use Rattle.std.specs.Prelude.{◌+◌, ◌*◌, ◌≤◌, ◌≡◌, length};
ghost use Rattle.laws.specs.Limits.{SHEET_CELLS};
ghost use Rattle.files.specs.File.{events_of};
ghost use Rattle.plain.specs.Book as plain;
ghost use Rattle.machine.specs.View.{book_of, Held};
ghost use Rattle.calls.specs.Opening.{NewlyHeld, OpensAs};
ghost use Rattle.report.specs.Pages.{Put, Wrote};
ghost use Rattle.transcript.specs.Transcript.{transcript};
ghost use Rattle.transcript.specs.Playing.{BLOCK, END};
ghost use Rattle.transcript.specs.Whole.{left};
ghost use Rattle.timed.specs.Play.{Begun, room_for};

use calls::{Core, Numbers};
use laws::SHEET_CELLS;

// The core after all events of a file, and how many bytes their lines have.
#[derive(Drop)]
pub struct Written {
    pub core: Core,
    pub bytes: usize,
}

// Writes the lines of all events of a file into the page's first bytes. How far a part goes is told by the call, so the loop counts no index.
fn write_events(
    page: &mut [u8],
    file: &[u8],
    core: Core,
    lent: &mut Numbers,
    sheet: &mut [u64; SHEET_CELLS],
) -> Written
    requires { (Held core lent.old) × (length sheet.old ≡ SHEET_CELLS) × (BLOCK * length (events_of file.now) ≤ length page.old) }
    ensures { (Held result.core lent.new) × (Begun (events_of file.now) (book_of core lent.old) page.old page.new (book_of result.core lent.new) (length (events_of file.now)) result.bytes) × (result.bytes ≤ BLOCK * length (events_of file.now)) × (result.bytes ≤ BLOCK * 65535) }
{
    let count = files::events_in(file) as usize;
    let mut played = core;
    let mut i: usize = 0;
    let mut bytes: usize = 0;
    while i < count {
        let some = transcript::play_events(&mut page[bytes..], file, played, lent, sheet, i);
        bytes += some.used;
        played = some.core;
        i = some.next;
    }
    Written {
        core: played,
        bytes,
    }
}

// The file is played on a new book, whose tables stand here, as in the player.
fn write_played(page: &mut [u8], file: &[u8], core: Core) -> usize
    requires { (NewlyHeld core) × (BLOCK * length (events_of file.now) + END ≤ length page.old) }
    ensures { ((b : plain.Book) → OpensAs core b → Put (left (events_of file.now) b 0) page.old page.new result) × (result ≤ BLOCK * length (events_of file.now) + END) }
{
    let mut lent = calls::new_numbers();
    let mut sheet = pieces::blank_numbers();
    let written = write_events(page, file, core, &mut lent, &mut sheet);
    let bytes = written.bytes;
    bytes + transcript::end_lines(&mut page[bytes..], written.core, &lent.rows, &lent.ledger)
}

// What the player prints for an input, written into the page's first bytes: how many bytes it has. The page has room for 82,000 bytes an event
// and 87,040 at the end, or for the line of a refusal; else it is left as it is, and 0 is answered.
#[unsafe(no_mangle)]
pub extern "C" fn timed_play(input: &[u8], page: &mut [u8]) -> u64
    ensures { Wrote (room_for input.now) (transcript input.now) page.old page.new result }
{
    let started = match transcript::start(input) {
        Ok(started) => started,
        Err(turned_down) => {
            return report::refusal_line(page, u8::from(turned_down.refusal)) as u64;
        }
    };
    let file = &input[started.file..];
    let count = files::events_in(file) as usize;
    if page.len() < transcript::BLOCK * count + transcript::END {
        return 0;
    }
    write_played(page, file, started.core) as u64
}
