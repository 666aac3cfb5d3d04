// The lines that the player prints, written into the first bytes of a page that the caller lends.
// Document 01, 'Event files and the player'.
#![tactic(auto)]

ghost use Rattle.std.specs.Prelude.{ℕ, List, ◌≡◌, ◌∷◌, [], ◌++◌, ◌+◌, ◌*◌, ◌≤◌, ◌<◌, min, length, take};
ghost use Rattle.laws.specs.Lists.{each, range};
ghost use Rattle.std.proofs.Math.IntN.{sub_ℕ};
ghost use Rattle.laws.specs.Limits.{ACCOUNTS, PLACES, POSITIONS};
ghost use Rattle.pieces.specs.Sheet.{pieces_of};
ghost use Rattle.tables.specs.Tables.{positions};
ghost use Rattle.tables.specs.Lent.{position_table};
ghost use Rattle.report.specs.Digits.{digits};
ghost use Rattle.report.specs.Lines.{LINE, account_line, account_lines, amount, balance_text, ending_at, event_line, event_lines, field, number, numbers, piece_line, piece_lines, position_line, position_lines, refusal_line, side, signed};
ghost use Rattle.report.specs.Pages.{Put, Wrote};

use laws::{ACCOUNTS, PLACES, POSITION_CELLS, SHEET_CELLS};
use plain::{Ledger, Piece, Position};

// A page that a line is written into has at least as many bytes.
const LINE: usize = 80;

const BLANK: u8 = b' ';

const LINE_FEED: u8 = b'\n';

const MINUS: u8 = b'-';

// How many digits a number has.
fn digit_count(n: u64) -> usize
    ensures { result ≡ length (digits n) }
{
    n.max(1).ilog10() as usize + 1
}

// The digits of a number, two at a time, from the last to the first: the place falls by two, so the loop is no range.
fn put_digits(page: &mut [u8], n: u64) -> usize
    requires { length (digits n) ≤ length page.old }
    ensures { Put (digits n) page.old page.new result }
{
    if n < 10 {
        page[0] = b'0' + n as u8;
        return 1;
    }
    let count = digit_count(n);
    let mut left = n;
    let mut at = count;
    while 1 < at {
        at -= 2;
        let two = (left % 100) as u8;
        page[at + 1] = b'0' + two % 10;
        page[at] = b'0' + two / 10;
        left = left / 100;
    }
    if at == 1 {
        page[0] = b'0' + left as u8;
    }
    count
}

// The digits of a number, ending where a column of `width` places ends. The column begins where the lent page does, and the places before the
// digits are kept. Where they do not fit the column, or the column the page, the page is left as it is.
pub fn put_right_aligned(page: &mut [u8], width: usize, n: u64)
    ensures { page.new ≡ ending_at width (digits n) page.old }
{
    if page.len() < width {
        return;
    }
    let count = digit_count(n);
    if width < count {
        return;
    }
    let from = width - count;
    put_digits(&mut page[from..], n);
}

// A number as a field: a blank and its digits.
fn put_number(page: &mut [u8], n: u64) -> usize
    requires { length (number n) ≤ length page.old }
    ensures { Put (number n) page.old page.new result }
{
    page[0] = BLANK;
    1 + put_digits(&mut page[1..], n)
}

// Numbers, each as a field.
fn put_numbers(page: &mut [u8], list: &[u64]) -> usize
    requires { length (numbers list.now) ≤ length page.old }
    ensures { Put (numbers list.now) page.old page.new result }
{
    let mut at = 0;
    for n in list {
        at += put_number(&mut page[at..], *n);
    }
    at
}

// A line of a letter and of numbers as fields, as the functions below write theirs: into the first bytes of the page, of which the later ones
// are kept. A page of fewer than 80 bytes is left as it is. The answer is how many bytes were written.
fn put_line(page: &mut [u8], letter: u8, list: &[u64]) -> usize
    requires { length (letter ∷ (numbers list.now ++ (10 ∷ []))) ≤ LINE }
    ensures { Wrote LINE (letter ∷ (numbers list.now ++ (10 ∷ []))) page.old page.new result }
{
    if page.len() < LINE {
        return 0;
    }
    page[0] = letter;
    let end = 1 + put_numbers(&mut page[1..], list);
    page[end] = LINE_FEED;
    end + 1
}

// An amount as a field: a blank, a minus sign if it is negative, and its digits.
fn put_amount(page: &mut [u8], negative: bool, cents: u64) -> usize
    requires { length (field (signed (amount negative cents))) ≤ length page.old }
    ensures { Put (field (signed (amount negative cents))) page.old page.new result }
{
    if !negative || cents == 0 {
        return put_number(page, cents);
    }
    page[0] = BLANK;
    page[1] = MINUS;
    2 + put_digits(&mut page[2..], cents)
}

pub fn event_line(page: &mut [u8], number: u32, refusal: u8, quantity: u32) -> usize
    ensures { Wrote LINE (event_line number refusal quantity) page.old page.new result }
{
    let list = [number as u64, refusal as u64, quantity as u64];
    put_line(page, b'e', &list)
}

pub fn piece_line(page: &mut [u8], piece: Piece) -> usize
    ensures { Wrote LINE (piece_line piece) page.old page.new result }
{
    let list = [
        piece.short as u64,
        piece.long as u64,
        piece.quantity as u64,
        piece.cents,
    ];
    put_line(page, b'p', &list)
}

pub fn refusal_line(page: &mut [u8], number: u8) -> usize
    ensures { Wrote LINE (refusal_line number) page.old page.new result }
{
    let list = [number as u64];
    put_line(page, b'f', &list)
}

// D for a short, R for a long.
pub fn side_of(short: bool) -> u8
    ensures { result ≡ side short }
{
    if short { b'D' } else { b'R' }
}

pub fn position_line(page: &mut [u8], number: u16, position: Position) -> usize
    ensures { Wrote LINE (position_line number position) page.old page.new result }
{
    if page.len() < LINE {
        return 0;
    }
    let names = [number as u64, position.member as u64];
    let figures = [
        position.netted as u64,
        position.delivered as u64,
        position.bought as u64,
        position.cash as u64,
        position.paired as u64,
        position.unsettled as u64,
    ];
    page[0] = b's';
    let named = 1 + put_numbers(&mut page[1..], &names);
    page[named] = BLANK;
    let letter = named + 1;
    page[letter] = side_of(position.short);
    let from = named + 2;
    let end = from + put_numbers(&mut page[from..], &figures);
    page[end] = LINE_FEED;
    end + 1
}

// The line of an account. Zero has no sign.
pub fn account_line(page: &mut [u8], account: u8, negative: bool, cents: u64) -> usize
    ensures { Wrote LINE (account_line account (amount negative cents)) page.old page.new result }
{
    if page.len() < LINE {
        return 0;
    }
    page[0] = b'a';
    let named = 1 + put_number(&mut page[1..], account as u64);
    let end = named + put_amount(&mut page[named..], negative, cents);
    page[end] = LINE_FEED;
    end + 1
}

// The lines of the elements at the indices below `count`, as `line` writes the one at an index, one after the other. A page of fewer than 80 bytes
// for each is left as it is.
fn put_lines<F: Fn(&mut [u8], usize) -> usize>(page: &mut [u8], count: usize, line: F) -> usize
    ghost text: { ℕ → List ℕ }
    requires fits { LINE * count ≤ usize.MAX }
    requires callable { (i : ℕ) (p : _) → i < count → F.pre line p i }
    requires written { (i : ℕ) (p : _) (r : ℕ) (q : _) → i < count → F.post line p i r q → Wrote LINE (text i) p.now q.now r }
    ensures { Wrote (LINE * count) (each text (range 0 count)) page.old page.new result }
{
    if page.len() < LINE * count {
        return 0;
    }
    let mut at = 0;
    for i in 0..count {
        at += line(&mut page[at..], i);
    }
    at
}

// The lines of the first `count` pieces, of all 1,024 if `count` is more. The page has at least 80 bytes for each.
pub fn piece_lines(page: &mut [u8], sheet: &[u64; SHEET_CELLS], count: usize) -> usize
    ensures { Wrote (LINE * min count PLACES) (piece_lines (take count (pieces_of sheet.now))) page.old page.new result }
{
    put_lines(page, count.min(PLACES), |page: &mut [u8], i: usize| {
        piece_line(page, pieces::piece_at(sheet, i))
    })
}

// The line of an event and those of its pieces. The page has at least 80 bytes for each line.
pub fn event_lines(
    page: &mut [u8],
    number: u32,
    refusal: u8,
    quantity: u32,
    sheet: &[u64; SHEET_CELLS],
    count: usize,
) -> usize
    ensures { Wrote (LINE * (1 + min count PLACES)) (event_lines number refusal quantity (take count (pieces_of sheet.now))) page.old page.new result }
{
    let stop = count.min(PLACES);
    if page.len() < LINE * (1 + stop) {
        return 0;
    }
    let at = event_line(page, number, refusal, quantity);
    at + piece_lines(&mut page[at..], sheet, count)
}

// The lines of the first `count` positions, by rising number from 1. The page has at least 80 bytes for each.
pub fn position_lines(page: &mut [u8], rows: &[u32; POSITION_CELLS], count: usize) -> usize
    requires { count ≤ POSITIONS }
    ensures { Wrote (LINE * count) (position_lines (positions (position_table rows.now count))) page.old page.new result }
{
    put_lines(page, count, |page: &mut [u8], i: usize| {
        position_line(page, (i + 1) as u16, rows::row_at(rows, i))
    })
}

// The line of an account by what it was credited and debited; none if that is the same.
fn balance_line(page: &mut [u8], account: u8, credit: u64, debit: u64) -> usize
    ensures { Wrote LINE (balance_text account (sub_ℕ credit debit)) page.old page.new result }
{
    if credit < debit {
        return account_line(page, account, true, debit - credit);
    }
    if debit < credit {
        return account_line(page, account, false, credit - debit);
    }
    0
}

// The lines of the accounts that are not zero, by rising number. The page has at least 80 bytes for each of 64.
pub fn account_lines(page: &mut [u8], ledger: &Ledger) -> usize
    ensures { Wrote (LINE * ACCOUNTS) (account_lines ledger.now) page.old page.new result }
{
    put_lines(page, ACCOUNTS, |page: &mut [u8], i: usize| {
        balance_line(page, i as u8, ledger.credits[i], ledger.debits[i])
    })
}
