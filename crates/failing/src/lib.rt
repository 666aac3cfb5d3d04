// The failing members of each security, kept as a word of 64 bits, one bit a member, and how many late open shorts each of them holds. Words
// and counts are lent, and changed where they stand.
// Document 01, 'Auction'.
#![tactic(auto)]

ghost use Rattle.std.specs.Prelude.{◌≡◌, ◌&&◌, List, ℕ, ◌+◌, ◌≤◌, ◌<◌, ltb, length, get_or};
ghost use Rattle.laws.specs.Limits.{COUNT_CELLS, MEMBERS, POSITIONS, SECURITIES};
ghost use Rattle.plain.specs.declared.Position as plain;
ghost use Rattle.plain.specs.Book.{nth};
ghost use Rattle.laws.specs.Asked.{Within};
ghost use Rattle.plain.specs.Invariants.{Rising};
ghost use Rattle.tables.specs.Tables as tables;
ghost use Rattle.tables.specs.Late.{LateBefore};
ghost use Rattle.tables.specs.Lent.{position_table};
ghost use Rattle.failing.specs.Members.{bit, Added};
ghost use Rattle.failing.specs.Counts as spec;

use laws::{ACCOUNTS, BusinessDay, COUNT_CELLS, MEMBERS, POSITION_CELLS, SECURITIES};
use plain::Position;

pub fn is_failing(word: u64, member: u8) -> bool
    ensures { result ≡ bit word member }
{
    // the word has no bit for a member above 63, and no shift goes so far
    member <= MEMBERS && (word >> member) % 2 == 1
}

// The word of a security.
pub fn word_of(words: &[u64; SECURITIES], security: u16) -> u64
    requires { (length words.now ≡ SECURITIES) × (Within 1 SECURITIES security) }
    ensures { result ≡ nth 0 words.now security }
{
    let k = (security - 1) as usize;
    words[k]
}

fn count_place(security: u16, member: u8) -> usize
    requires { (Within 1 SECURITIES security) × (member ≤ MEMBERS) }
    ensures { result ≡ spec.count_place security member }
{
    ACCOUNTS * ((security - 1) as usize) + (member as usize)
}

fn with_member(word: u64, member: u8) -> u64
    requires { member ≤ MEMBERS }
    ensures { Added word member result }
{
    word | (1u64 << member)
}

fn without_member(word: u64, member: u8) -> u64
    requires { member ≤ MEMBERS }
    ensures { spec.Turned word member result }
{
    word ^ (1u64 << member)
}

// The member holds one late open short in the security more.
fn with_late_short(
    words: &mut [u64; SECURITIES],
    counts: &mut [u32; COUNT_CELLS],
    security: u16,
    member: u8,
)
    requires { (spec.HasCount words.old counts.old security member) × (get_or counts.old (spec.count_place security member) 0 ≤ POSITIONS) }
    ensures { (day next : ℕ) (ps qs : List plain.Position) → spec.Counted day ps words.old counts.old → spec.OneMore day ps next qs security member → spec.Counted next qs words.new counts.new }
{
    let place = count_place(security, member);
    counts[place] += 1;
    let k = (security - 1) as usize;
    words[k] = with_member(words[k], member);
}

// The member holds one late open short in the security less, and with the last of them ceases to be failing in it.
fn without_late_short(
    words: &mut [u64; SECURITIES],
    counts: &mut [u32; COUNT_CELLS],
    security: u16,
    member: u8,
)
    requires { (spec.HasCount words.old counts.old security member) × (0 < get_or counts.old (spec.count_place security member) 0) }
    ensures { ((day : ℕ) (ps qs : List plain.Position) → spec.Counted day ps words.old counts.old → spec.OneMore day qs day ps security member → spec.Counted day qs words.new counts.new) × (length counts.new ≡ COUNT_CELLS) }
{
    let place = count_place(security, member);
    counts[place] -= 1;
    if 0 < counts[place] {
        return;
    }
    let k = (security - 1) as usize;
    words[k] = without_member(words[k], member);
}

// What a discharge of the short `p`, given as it was before, makes of the words.
pub fn discharged(
    words: &mut [u64; SECURITIES],
    counts: &mut [u32; COUNT_CELLS],
    p: Position,
    quantity: u32,
    day: BusinessDay,
)
    requires { ((ps : List plain.Position) × (n : ℕ) × (spec.Counted day.0 ps words.old counts.old) × (spec.UnitsOf ps n p quantity)) × (Within 1 SECURITIES p.security) × (p.member ≤ MEMBERS) }
    ensures { ((ps qs : List plain.Position) (n : ℕ) → spec.Counted day.0 ps words.old counts.old → spec.UnitsOf ps n p quantity → spec.Lowered day.0 ps qs n quantity → spec.Counted day.0 qs words.new counts.new) × (length counts.new ≡ COUNT_CELLS) }
{
    if quantity < p.unsettled {
        return;
    }
    if day.0 <= p.settlement.0 {
        return;
    }
    without_late_short(words, counts, p.security, p.member);
}

fn is_open_short(p: Position) -> bool
    ensures { result ≡ p.short && ltb 0 p.unsettled }
{
    p.short && 0 < p.unsettled
}

// At the close of a day, the open shorts that are due on it become late. The table is in order of rising delivery days, so
// they are those from the first that was not late on. The answer is the first that is not late the day after.
pub fn raise_late(
    words: &mut [u64; SECURITIES],
    counts: &mut [u32; COUNT_CELLS],
    rows: &[u32; POSITION_CELLS],
    held: usize,
    from: usize,
    day: BusinessDay,
) -> usize
    requires { (spec.Numbered (position_table rows.now held)) × (Rising (tables.positions (position_table rows.now held))) × (spec.Counted day.0 (tables.positions (position_table rows.now held)) words.old counts.old) × (LateBefore day.0 (tables.positions (position_table rows.now held)) from) }
    ensures { (spec.Counted (day.0 + 1) (tables.positions (position_table rows.now held)) words.new counts.new) × (LateBefore (day.0 + 1) (tables.positions (position_table rows.now held)) result) }
{
    for i in from..held {
        if day.0 < rows::settlement_at(rows, i) {
            return i;
        }
        let p = rows::row_at(rows, i);
        if is_open_short(p) {
            with_late_short(words, counts, p.security, p.member);
        }
    }
    held
}
