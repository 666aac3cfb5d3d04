// The desk's page: the positions at the end of a file, a line of 80 columns and a line feed each, in the first bytes of a page that the caller
// lends. Document 02, Slips 1 and 5.
#![tactic(auto)]

ghost use Rattle.std.specs.Prelude.{◌≡◌, [], ◌++◌, ◌+◌, ◌-◌, ◌*◌, ◌≤◌, length, drop};
ghost use Rattle.std.proofs.lemmas.List.Edits.{sets};
ghost use Rattle.laws.specs.Limits.{SECURITIES};
ghost use Rattle.laws.specs.Asked.{Within};
ghost use Rattle.files.specs.File.{events_of};
ghost use Rattle.plain.specs.Book as plain;
ghost use Rattle.plain.specs.Histories.{run, calls_of};
ghost use Rattle.tables.specs.Tables.{positions};
ghost use Rattle.tables.specs.Lent.{position_table};
ghost use Rattle.calls.specs.Opening.{NewlyHeld, OpensAs};
ghost use Rattle.machine.specs.declared.Numbers.{Numbers};
ghost use Rattle.machine.specs.View.{on_rows, book_of, Held};
ghost use Rattle.report.specs.Digits.{digits};
ghost use Rattle.page.specs.Columns.{LINE, Fits, line};
ghost use Rattle.page.specs.Page.{columns, isin_of, kind_letter, page_line, page_lines, page_text, Showable};
ghost use Rattle.laws.specs.Answers.{answer};
ghost use Rattle.page.specs.Answer.{end_of, page_refusal, page_after, Shown};

use calls::Core;
use laws::{POSITION_CELLS, Refusal};
use plain::{Kind, Position};

const COLUMNS: usize = 80;

// The columns of a line and its line feed.
const LINE: usize = 81;

const BLANK: u8 = b' ';

const LINE_FEED: u8 = b'\n';

// A line without any text.
fn put_blank_line(page: &mut [u8])
    requires { LINE ≤ length page.old }
    ensures { page.new ≡ line [] ++ drop LINE page.old }
{
    page[..COLUMNS].fill(BLANK);
    page[COLUMNS] = LINE_FEED;
}

// A figure at the right end of the column from place `first` to place `last`, counted from 1. Its digits go straight into the column.
fn put_figure(page: &mut [u8], first: usize, last: usize, n: u64)
    requires { (1 ≤ first) × (first + length (digits n) ≤ last + 1) × (last ≤ length page.old) }
    ensures { page.new ≡ sets page.old (last - length (digits n)) (digits n) }
{
    let width = last + 1 - first;
    report::put_right_aligned(&mut page[first - 1..], width, n);
}

// The ISIN of a security, from place 9 on.
fn put_isin(page: &mut [u8], isins: &[u8; 384], security: u16)
    requires { (LINE ≤ length page.old) × (length isins.now ≡ 384) × (Within 1 SECURITIES security) }
    ensures { page.new ≡ sets page.old 8 (isin_of isins.now security) }
{
    let from = 12 * (security as usize - 1);
    page[8..20].copy_from_slice(&isins[from..from + 12]);
}

// O for own business, C for clients'.
fn kind_letter(kind: Kind) -> u8
    ensures { result ≡ kind_letter kind }
{
    match kind {
        Kind::Own => b'O',
        Kind::Client => b'C',
    }
}

// The line of a position, column by column. The side letter stands in place 22, that of the kind in place 80.
fn put_position(page: &mut [u8], isins: &[u8; 384], number: u16, position: Position)
    requires { (LINE ≤ length page.old) × (length isins.now ≡ 384) × (Within 1 SECURITIES position.security) × (Fits (columns isins.now number position)) }
    ensures { page.new ≡ page_line isins.now number position ++ drop LINE page.old }
{
    put_blank_line(page);
    put_figure(page, 1, 4, number as u64);
    put_figure(page, 6, 7, position.member as u64);
    put_isin(page, isins, position.security);
    page[21] = report::side_of(position.short);
    put_figure(page, 24, 32, position.netted as u64);
    put_figure(page, 34, 42, position.delivered as u64);
    put_figure(page, 44, 52, position.bought as u64);
    put_figure(page, 54, 62, position.cash as u64);
    put_figure(page, 64, 72, position.unsettled as u64);
    put_figure(page, 74, 78, position.settlement.0 as u64);
    let kind = position.kind;
    page[79] = kind_letter(kind);
}

// The lines of the first `count` positions, by rising number from 1.
fn put_positions(page: &mut [u8], isins: &[u8; 384], rows: &[u32; POSITION_CELLS], count: usize)
    requires { (LINE * count ≤ length page.old) × (Showable isins.now rows.now count) }
    ensures { page.new ≡ page_lines isins.now (positions (position_table rows.now count)) ++ drop (LINE * count) page.old }
{
    for i in 0..count {
        let position = rows::row_at(rows, i);
        put_position(&mut page[LINE * i..], isins, (i + 1) as u16, position);
    }
}

// The page of a book: the bytes written, or refusal 31, before anything is written.
fn show_positions(
    page: &mut [u8],
    core: Core,
    rows: &[u32; POSITION_CELLS],
) -> Result<usize, Refusal>
    requires { (others : Numbers) × Held core (on_rows others rows.now) }
    ensures { (others : Numbers) → Shown (book_of core (on_rows others rows.now)) page.old page.new result }
{
    let count = calls::position_count(core);
    let written = LINE * count;
    if page.len() < written {
        return Err(Refusal::ShortPage);
    }
    let isins = calls::isins(core);
    put_positions(page, &isins, rows, count);
    Ok(written)
}

// The file is played on a new book, whose tables stand here.
fn show_played(page: &mut [u8], file: &[u8], core: Core) -> Result<usize, Refusal>
    requires { NewlyHeld core }
    ensures { (b : plain.Book) → OpensAs core b → Shown (run b (calls_of (events_of file.now))) page.old page.new result }
{
    let mut lent = calls::new_numbers();
    let mut sheet = pieces::blank_numbers();
    let count = files::events_in(file) as usize;
    let after = replay::play(core, &mut lent, &mut sheet, file, count);
    show_positions(page, after, &lent.rows)
}

// The file is played on a book that is opened on the register, and the positions at its end are shown: the bytes written, or refusal 1 to 7 or 31,
// which leaves the page as it was.
pub fn show(register: &[u8], file: &[u8], page: &mut [u8]) -> Result<usize, Refusal>
    ensures answer { result ≡ answer (page_refusal register.now file.now (length page.old)) (length (page_text (end_of register.now file.now))) }
    ensures page { page.new ≡ page_after register.now file.now page.old }
{
    let core = replay::ready(register, file)?;
    show_played(page, file, core)
}
