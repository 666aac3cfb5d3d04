// An auction from its attempt over the offers to the award.
#![tactic(auto)]

mod refusal;

ghost use Rattle.std.specs.Prelude.{◌<◌, ◌≡◌, length};
ghost use Rattle.laws.specs.Limits.{ATTEMPTS};
ghost use Rattle.events.specs.declared.Event.TheVariants as event;
ghost use Rattle.plain.specs.Calls.{call};
ghost use Rattle.machine.specs.Cores.{attempted_core};
ghost use Rattle.machine.specs.declared.Numbers.{Numbers};
ghost use Rattle.machine.specs.View.{on_rows, on_awards, on_words, Held, CalledBare};

use crate::refusal::{attempt_refusal, auction_refusal, award_refusal, offer_refusal};
use events::{Attempt, Offer};
use laws::{AWARD_CELLS, POSITION_CELLS, Refusal, SECURITIES};
use machine::{Answered, Core, class_of, done, latest_of, price_of, refused};

// The position is marked, and its auction opens without an offer.
fn open_auction(core: Core, position: u16, ceiling: u64) -> Core
    requires { (length core.marks.items ≡ ATTEMPTS) × (core.marks.count < ATTEMPTS) }
    ensures { result ≡ attempted_core core position ceiling }
{
    let mut marks = core.marks;
    let n = marks.count;
    marks.items[n] = position;
    marks.count = n + 1;
    let mut opened = core.auction;
    opened.position = position;
    opened.ceiling = ceiling;
    opened.count = 0;
    let mut after = core;
    after.marks = marks;
    after.auction = opened;
    after
}

pub fn attempt(core: Core, rows: &[u32; POSITION_CELLS], a: Attempt) -> Answered
    requires { (others : Numbers) × Held core (on_rows others rows.now) }
    ensures { (others : Numbers) → Held core (on_rows others rows.now) → CalledBare core (on_rows others rows.now) (call (event.Attempt a) 0) result.core (on_rows others rows.now) result.outcome result.pieces }
{
    if !refusals::is_within(1, core.positions, a.position as usize) {
        return refused(core, Refusal::NotThere);
    }
    let place = (a.position - 1) as usize;
    let p = rows::row_at(rows, place);
    let class = class_of(core.opening, p.security);
    let latest = latest_of(core.prices, p.security);
    let today = refusals::step_today(class, core.day, p);
    let marked = auction::is_marked(core.marks, a.position);
    if let Err(refusal) = attempt_refusal(
        p,
        core.day,
        today,
        core.auction.position,
        latest,
        core.marks.count,
        marked,
    ) {
        return refused(core, refusal);
    }
    let ceiling = rules::ceiling_of(class, price_of(latest));
    let after = open_auction(core, a.position, ceiling);
    done(after, 0, 0)
}

// The offerer is tested against the word of the security that is auctioned.
pub fn offer(
    core: Core,
    rows: &[u32; POSITION_CELLS],
    words: &[u64; SECURITIES],
    o: Offer,
) -> Answered
    requires { (others : Numbers) × Held core (on_words (on_rows others rows.now) words.now) }
    ensures { (others : Numbers) → Held core (on_words (on_rows others rows.now) words.now) → CalledBare core (on_words (on_rows others rows.now) words.now) (call (event.Offer o) 0) result.core (on_words (on_rows others rows.now) words.now) result.outcome result.pieces }
{
    if let Err(refusal) = offer_refusal(core.positions, core.auction.position, o) {
        return refused(core, refusal);
    }
    let place = (o.position - 1) as usize;
    let short = rows::row_at(rows, place);
    let word = failing::word_of(words, short.security);
    let fails = failing::is_failing(word, o.offerer);
    if let Err(refusal) = auction_refusal(
        fails,
        core.auction.ceiling,
        core.auction.count,
        o.price,
    ) {
        return refused(core, refusal);
    }
    let mut entered = core.auction;
    let n = entered.count;
    entered.offers[n] = o;
    entered.count = n + 1;
    let mut after = core;
    after.auction = entered;
    done(after, o.quantity, 0)
}

// The auction ends in awards. Its offers' cells stay as they are, past the count.
pub fn award(
    core: Core,
    rows: &[u32; POSITION_CELLS],
    awards: &mut [u32; AWARD_CELLS],
    a: events::Award,
) -> Answered
    requires { (others : Numbers) × Held core (on_awards (on_rows others rows.now) awards.old) }
    ensures { (others : Numbers) → Held core (on_awards (on_rows others rows.now) awards.old) → CalledBare core (on_awards (on_rows others rows.now) awards.old) (call (event.Award a) 0) result.core (on_awards (on_rows others rows.now) awards.new) result.outcome result.pieces }
{
    if let Err(refusal) = award_refusal(core.positions, core.auction.position, a.position) {
        return refused(core, refusal);
    }
    let place = (a.position - 1) as usize;
    let short = rows::row_at(rows, place);
    let awarding = auction::awarded_to(core.auction, short.unsettled, awards, core.awards);
    let mut after = core;
    after.auction.position = 0;
    after.auction.ceiling = 0;
    after.auction.count = 0;
    after.awards = awarding.count;
    done(after, awarding.total, 0)
}
