// A short set off against a long of the same member. Document 02, Slip 7.
#![tactic(auto)]

ghost use Rattle.std.specs.Prelude.{◌-◌, ◌≡◌, length};
ghost use Rattle.laws.specs.Limits.{PLACES, SHEET_CELLS};
ghost use Rattle.events.specs.declared.Event.TheVariants as event;
ghost use Rattle.plain.specs.Calls.{call};
ghost use Rattle.machine.specs.View.{followed, followed_in, Held, CalledOn, PairingOff, PairedOff};
ghost use Rattle.laws.specs.Answers.{number_in};
ghost use Rattle.laws.specs.Refusals.{first};
ghost use Rattle.plain.specs.Refusals.{is_pairable, both_lookup_reasons, pair_off_reasons};

use events::PairOff;
use laws::{BusinessDay, PLACES, Refusal, SHEET_CELLS};
use machine::{Answered, Core, Numbers, done, refused};
use plain::Position;
use refusals::{free_units, is_within, runs_on};

// The refusals of a pair-off before its positions are looked at. The long is as wide as the field that names it.
#[tactic(auto, unfolding(plain::specs::Refusals::both_lookup_reasons))]
fn both_lookup_refusal(sheet: usize, held: usize, short: u16, long: u32) -> Result<(), Refusal>
    ensures { number_in result ≡ first (both_lookup_reasons sheet held short long) }
{
    if sheet < PLACES {
        return Err(Refusal::SmallSheet);
    }
    if !is_within(1, held, short as usize) {
        return Err(Refusal::NotThere);
    }
    if !is_within(1, held, long as usize) {
        return Err(Refusal::NotThere);
    }
    Ok(())
}

// The second position of a pair-off is a due long of the same member, kind and security as the first.
#[tactic(auto, unfolding(plain::specs::Dealing::due))]
fn is_pairable(day: BusinessDay, p: Position, q: Position) -> bool
    ensures { result ≡ is_pairable day.0 p q }
{
    !q.short
        && q.settlement.0 <= day.0
        && q.member == p.member
        && q.kind == p.kind
        && q.security == p.security
}

#[tactic(auto, unfolding(plain::specs::Refusals::pair_off_reasons, plain::specs::Dealing::due))]
fn pair_off_refusal(
    p: Position,
    q: Position,
    day: BusinessDay,
    auction: u16,
    reserved: u32,
    x: PairOff,
) -> Result<(), Refusal>
    ensures { number_in result ≡ first (pair_off_reasons p q day.0 auction (p.unsettled - reserved) x) }
{
    if x.quantity == 0 {
        return Err(Refusal::WrongQuantity);
    }
    if !p.short {
        return Err(Refusal::Long);
    }
    if day.0 < p.settlement.0 {
        return Err(Refusal::OutsideWindow);
    }
    if !is_pairable(day, p, q) {
        return Err(Refusal::NotPairable);
    }
    if runs_on(auction, x.short) {
        return Err(Refusal::Auction); // 18 comes after 34
    }
    if free_units(p.unsettled, reserved) < x.quantity {
        return Err(Refusal::NotEnough);
    }
    if q.unsettled < x.quantity {
        return Err(Refusal::NotEnough);
    }
    Ok(())
}

// The units of a pair-off fall from its short `p`, given as its row has it, and from its long, and its piece is written. No walk is made, so that the places where
// walks start stay as they are.
fn set_off(core: Core, lent: &mut Numbers, sheet: &mut [u64; SHEET_CELLS], p: Position, x: PairOff)
    requires { PairingOff core.day.0 lent.old.rows core.positions lent.old.counts sheet.old (followed_in core lent.old) p x }
    ensures paired { PairedOff core.day.0 lent.old.rows sheet.old core.positions x lent.new.rows lent.new.counts sheet.new (followed lent.old.starts lent.new.words core.late) }
    ensures kept { lent.new ≡ record lent.old { rows = lent.new.rows; counts = lent.new.counts; words = lent.new.words } }
{
    positions::set_off(&mut lent.rows, sheet, x.short, x.long as u16, x.quantity);
    failing::discharged(&mut lent.words, &mut lent.counts, p, x.quantity, core.day);
}

pub fn pair_off(
    core: Core,
    lent: &mut Numbers,
    sheet: &mut [u64; SHEET_CELLS],
    x: PairOff,
) -> Answered
    requires { (Held core lent.old) × (length sheet.old ≡ SHEET_CELLS) }
    ensures called { CalledOn core lent.old (call (event.PairOff x) PLACES) sheet.old result.core lent.new sheet.new result.outcome result.pieces }
    ensures kept { lent.new ≡ record lent.old { rows = lent.new.rows; counts = lent.new.counts; words = lent.new.words } }
{
    if let Err(refusal) = both_lookup_refusal(PLACES, core.positions, x.short, x.long) {
        return refused(core, refusal);
    }
    let short_place = (x.short - 1) as usize;
    let p = rows::row_at(&lent.rows, short_place);
    let long_place = (x.long - 1) as usize;
    let q = rows::row_at(&lent.rows, long_place);
    let reserved = auction::unconfirmed_units(&lent.awards, core.awards, x.short);
    if let Err(refusal) = pair_off_refusal(p, q, core.day, core.auction.position, reserved, x) {
        return refused(core, refusal);
    }
    set_off(core, lent, sheet, p, x);
    done(core, x.quantity, 1)
}
