// The player: a register and a file of events from standard input, and what becomes of them on standard output.
// What it prints is the definition `transcript`, block by block (`transcript/specs/Whole.antt`). Only the copying from standard input and
// of pages to standard output is outside the proofs.
#![tactic(auto)]

ghost use Rattle.std.specs.Prelude.{◌≤◌, ◌≡◌, length};
ghost use Rattle.laws.specs.Limits.{SHEET_CELLS};
ghost use Rattle.files.specs.File.{events_of};
ghost use Rattle.machine.specs.declared.Numbers.{Numbers};
ghost use Rattle.machine.specs.View.{on_rows, on_ledger, Held};
ghost use Rattle.calls.specs.Opening.{NewlyHeld};
ghost use Rattle.replay.specs.Replay.{PlayedUpTo};
ghost use Rattle.transcript.specs.Cut.{INPUT};
ghost use Rattle.transcript.specs.Playing.{END};

use calls::{Core, Numbers};
use laws::{POSITION_CELLS, Refusal, SHEET_CELLS};
use plain::Ledger;
use transcript::{END, INPUT};

// The descriptors of the three standard streams.
const STANDARD_INPUT: i32 = 0;

const STANDARD_OUTPUT: i32 = 1;

const STANDARD_ERROR: i32 = 2;

// A page of the lines of all positions and accounts, which is enough for those of the longest event too.
fn blank_page() -> [u8; END]
    ensures { length result ≡ END }
{
    [0u8; END]
}

fn blank_input() -> [u8; INPUT]
    ensures { length result ≡ INPUT }
{
    [0u8; INPUT]
}

// The used bytes of a page. A program has no status of its own, so a write that fails is said on standard error.
fn print_page(page: &[u8], used: usize)
    requires { used ≤ length page.now }
{
    if !io::write_all(STANDARD_OUTPUT, &page[..used]) {
        io::write_all(STANDARD_ERROR, b"player: the output could not be written\n");
    }
}

fn print_refusal(refusal: Refusal) {
    let mut page = blank_page();
    let used = report::refusal_line(&mut page, u8::from(refusal));
    print_page(&page, used);
}

// Prints all events of a file, page by page, each on the lent tables. The core after them is answered. How far a page goes is told by the call, so the loop
// counts no index.
fn print_events(
    page: &mut [u8],
    file: &[u8],
    core: Core,
    lent: &mut Numbers,
    sheet: &mut [u64; SHEET_CELLS],
) -> Core
    requires { (Held core lent.old) × (length sheet.old ≡ SHEET_CELLS) × (length page.old ≡ END) }
    ensures { (PlayedUpTo core lent.old (events_of file.now) result lent.new) × (length page.new ≡ END) }
{
    let count = files::events_in(file) as usize;
    let mut played = core;
    let mut i: usize = 0;
    while i < count {
        let some = transcript::play_events(page, file, played, lent, sheet, i);
        print_page(page, some.used);
        played = some.core;
        i = some.next;
    }
    played
}

fn print_end(page: &mut [u8], core: Core, rows: &[u32; POSITION_CELLS], ledger: &Ledger)
    requires { ((others : Numbers) × Held core (on_ledger (on_rows others rows.now) ledger.now)) × (length page.old ≡ END) }
{
    let used = transcript::end_lines(page, core, rows, ledger);
    print_page(page, used);
}

// The file is played on a new book, whose tables stand here.
fn print_played(file: &[u8], core: Core)
    requires { NewlyHeld core }
{
    let mut page = blank_page();
    let mut lent = calls::new_numbers();
    let mut sheet = pieces::blank_numbers();
    let after = print_events(&mut page, file, core, &mut lent, &mut sheet);
    print_end(&mut page, after, &lent.rows, &lent.ledger);
}

fn print_transcript(input: &[u8]) {
    match transcript::start(input) {
        Ok(started) => print_played(&input[started.file..], started.core),
        Err(turned_down) => print_refusal(turned_down.refusal),
    }
}

// The largest input that is not refused has 35,238 bytes. Of a longer one the first `INPUT` print the same (`transcript/specs/Cut.antt`).
fn main() {
    let mut input = blank_input();
    let length = io::read_full(STANDARD_INPUT, &mut input);
    print_transcript(&input[..length]);
}
