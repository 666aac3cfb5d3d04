// The three ways in which a discharge of a short is dealt out: delivered, bought in when an award is confirmed, and settled in cash.
ghost use Rattle.std.specs.Prelude.{◌-◌, ◌≡◌, length, get_or};
ghost use Rattle.laws.specs.Limits.{PLACES, SECURITIES, SHEET_CELLS};
ghost use Rattle.events.specs.declared.Event.TheVariants as event;
ghost use Rattle.plain.specs.Book.{nth, no_award};
ghost use Rattle.plain.specs.Calls.{call};
ghost use Rattle.laws.specs.Asked.{Within};
ghost use Rattle.rows.specs.Rows.{awards_of};
ghost use Rattle.machine.specs.View.{followed_in, Held, CalledOn, Discharging, Discharged, Taken, CashTerms};

use crate::refusal::{cash_refusal, confirm_refusal, delivery_refusal, lookup_refusal};
use events::{Cash, Confirm, Delivery};
use laws::{PLACES, SECURITIES, SHEET_CELLS};
use machine::{Answered, Core, Numbers, class_of, done, latest_of, price_of, refused};
use plain::{Award, Manner, Position};

#[tactic(auto, using(plain::proofs::Numbered::nth_at))]
fn start_of(starts: &[usize; SECURITIES], security: u16) -> usize
    requires { (length starts.now ≡ SECURITIES) × (Within 1 SECURITIES security) }
    ensures { result ≡ nth 0 starts.now security }
{
    let k = (security - 1) as usize;
    starts[k]
}

// A discharge of the short `p`, given as its row has it, dealt out. The walk starts where the first open long of the security may be, and the next one
// starts where it ended. The answer is the number of pieces.
fn discharge(
    core: Core,
    lent: &mut Numbers,
    sheet: &mut [u64; SHEET_CELLS],
    position: u16,
    p: Position,
    quantity: u32,
    manner: Manner,
) -> usize
    requires { Discharging core.day.0 lent.old.rows core.positions lent.old.counts sheet.old (followed_in core lent.old) position p quantity manner }
    ensures dealt { Discharged core.day.0 lent.old.rows sheet.old core.positions position quantity manner lent.new.rows lent.new.counts sheet.new (followed_in core lent.new) result }
    ensures kept { lent.new ≡ record lent.old { rows = lent.new.rows; counts = lent.new.counts; starts = lent.new.starts; words = lent.new.words } }
{
    let start = start_of(&lent.starts, p.security);
    let walked = positions::deal(
        &mut lent.rows,
        sheet,
        core.positions,
        core.day,
        position,
        quantity,
        manner,
        start,
    );
    failing::discharged(&mut lent.words, &mut lent.counts, p, quantity, core.day);
    let k = (p.security - 1) as usize;
    lent.starts[k] = walked.end;
    walked.pieces
}

pub fn delivery(
    core: Core,
    lent: &mut Numbers,
    sheet: &mut [u64; SHEET_CELLS],
    d: Delivery,
) -> Answered
    requires { (Held core lent.old) × (length sheet.old ≡ SHEET_CELLS) }
    ensures called { CalledOn core lent.old (call (event.Delivery d) PLACES) sheet.old result.core lent.new sheet.new result.outcome result.pieces }
    ensures kept { lent.new ≡ record lent.old { rows = lent.new.rows; counts = lent.new.counts; starts = lent.new.starts; words = lent.new.words } }
{
    if let Err(refusal) = lookup_refusal(PLACES, core.positions, d.position) {
        return refused(core, refusal);
    }
    let place = (d.position - 1) as usize;
    let p = rows::row_at(&lent.rows, place);
    let reserved = auction::unconfirmed_units(&lent.awards, core.awards, d.position);
    if let Err(refusal) = delivery_refusal(p, core.day, core.auction.position, reserved, d) {
        return refused(core, refusal);
    }
    let made = discharge(
        core,
        lent,
        sheet,
        d.position,
        p,
        d.quantity,
        Manner::Delivered,
    );
    done(core, d.quantity, made)
}

// The award's units are bought in, charged to the short's member, and the award is marked.
fn buy_in(
    core: Core,
    lent: &mut Numbers,
    sheet: &mut [u64; SHEET_CELLS],
    c: Confirm,
    award: Award,
) -> Answered
    requires { (Taken core lent.old (call (event.Confirm c) PLACES)) × (award ≡ get_or (awards_of lent.old.awards) (c.award - 1) no_award) × (length sheet.old ≡ SHEET_CELLS) }
    ensures called { CalledOn core lent.old (call (event.Confirm c) PLACES) sheet.old result.core lent.new sheet.new result.outcome result.pieces }
    ensures kept { lent.new.trades ≡ lent.old.trades }
{
    let place = (award.position - 1) as usize;
    let p = rows::row_at(&lent.rows, place);
    let made = discharge(
        core,
        lent,
        sheet,
        award.position,
        p,
        award.quantity,
        Manner::BoughtIn,
    );
    ledger::post_buy_in(
        &mut lent.ledger,
        p.member,
        award.quantity,
        award.price,
        p.reference,
    );
    auction::confirm_award(&mut lent.awards, core.awards, c.award);
    done(core, award.quantity, made)
}

pub fn confirm(
    core: Core,
    lent: &mut Numbers,
    sheet: &mut [u64; SHEET_CELLS],
    c: Confirm,
) -> Answered
    requires { (Held core lent.old) × (length sheet.old ≡ SHEET_CELLS) }
    ensures called { CalledOn core lent.old (call (event.Confirm c) PLACES) sheet.old result.core lent.new sheet.new result.outcome result.pieces }
    ensures kept { lent.new.trades ≡ lent.old.trades }
{
    if let Err(refusal) = lookup_refusal(PLACES, core.awards, c.award) {
        return refused(core, refusal);
    }
    let k = (c.award - 1) as usize;
    let award = rows::award_at(&lent.awards, k);
    if let Err(refusal) = confirm_refusal(award) {
        return refused(core, refusal);
    }
    buy_in(core, lent, sheet, c, award)
}

// All that is open of the short `p` is settled: dealt out, then priced and paid for on the sheet, with the fee.
fn settle(
    core: Core,
    lent: &mut Numbers,
    sheet: &mut [u64; SHEET_CELLS],
    c: Cash,
    p: Position,
    class: u8,
    latest: u32,
) -> Answered
    requires { (Taken core lent.old (call (event.Cash c) PLACES)) × (CashTerms core lent.old.rows c.position p class latest) × (length sheet.old ≡ SHEET_CELLS) }
    ensures called { CalledOn core lent.old (call (event.Cash c) PLACES) sheet.old result.core lent.new sheet.new result.outcome result.pieces }
    ensures kept { (lent.new.trades ≡ lent.old.trades) × (lent.new.awards ≡ lent.old.awards) }
{
    let made = discharge(core, lent, sheet, c.position, p, p.unsettled, Manner::Cash);
    ledger::post_cash(
        &mut lent.ledger,
        &lent.rows,
        core.positions,
        sheet,
        made,
        p,
        class,
        latest,
    );
    done(core, p.unsettled, made)
}

pub fn cash(core: Core, lent: &mut Numbers, sheet: &mut [u64; SHEET_CELLS], c: Cash) -> Answered
    requires { (Held core lent.old) × (length sheet.old ≡ SHEET_CELLS) }
    ensures called { CalledOn core lent.old (call (event.Cash c) PLACES) sheet.old result.core lent.new sheet.new result.outcome result.pieces }
    ensures kept { (lent.new.trades ≡ lent.old.trades) × (lent.new.awards ≡ lent.old.awards) }
{
    if let Err(refusal) = lookup_refusal(PLACES, core.positions, c.position) {
        return refused(core, refusal);
    }
    let place = (c.position - 1) as usize;
    let p = rows::row_at(&lent.rows, place);
    let class = class_of(core.opening, p.security);
    let latest = latest_of(core.prices, p.security);
    let today = refusals::step_today(class, core.day, p);
    if let Err(refusal) = cash_refusal(p, core.day, today, latest) {
        return refused(core, refusal);
    }
    let price = price_of(latest);
    settle(core, lent, sheet, c, p, class, price)
}
