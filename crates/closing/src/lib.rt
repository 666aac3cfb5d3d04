// The close of a day.
#![tactic(auto)]

ghost use Rattle.std.specs.Prelude.{◌+◌, ◌<◌, ◌≡◌};
ghost use Rattle.laws.specs.Limits.{LAST_DAY};
ghost use Rattle.events.specs.declared.Event.TheVariants as event;
ghost use Rattle.plain.specs.Charging.{posted};
ghost use Rattle.plain.specs.Calls.{call};
ghost use Rattle.tables.specs.Late.{LateBefore};
ghost use Rattle.tables.specs.Lent.{position_table, award_table};
ghost use Rattle.ledger.specs.Parts.{close_charges_of};
ghost use Rattle.machine.specs.Cores.{closed_core};
ghost use Rattle.machine.specs.declared.Numbers.{Numbers};
ghost use Rattle.machine.specs.View.{on_rows, on_awards, on_ledger, held_in, Held, CalledBare, Taken};
ghost use Rattle.laws.specs.Answers.{number_in};
ghost use Rattle.laws.specs.Refusals.{first};
ghost use Rattle.plain.specs.Refusals.{close_reasons};

use laws::{AWARD_CELLS, BusinessDay, LAST_DAY, POSITION_CELLS, Refusal};
use machine::{Answered, Core, Numbers, done, refused};
use plain::Ledger;

#[tactic(auto, unfolding(plain::specs::Refusals::close_reasons))]
fn close_refusal(auction: u16, day: BusinessDay) -> Result<(), Refusal>
    ensures { number_in result ≡ first (close_reasons auction day.0) }
{
    if 0 < auction {
        return Err(Refusal::Auction);
    }
    if LAST_DAY <= day.0 {
        return Err(Refusal::NoNextDay);
    }
    Ok(())
}

// The accounts with the charges of a close, which go by the positions and awards as they are; the positions before the place `until` are due.
fn fined(
    core: Core,
    rows: &[u32; POSITION_CELLS],
    awards: &[u32; AWARD_CELLS],
    until: usize,
    ledger: &mut Ledger,
)
    requires { (others : Numbers) × (Taken core (on_ledger (on_awards (on_rows others rows.now) awards.now) ledger.old) (call event.Close 0)) × (LateBefore (core.day.0 + 1) (held_in rows.now core.positions) until) }
    ensures { ledger.new ≡ posted ledger.old (close_charges_of (award_table awards.now core.awards) (position_table rows.now core.positions) core.prices core.opening.register core.day) }
{
    ledger::post_close(
        ledger,
        awards,
        core.awards,
        rows,
        core.positions,
        until,
        core.prices,
        core.opening.register,
    );
}

// The small parts on the next day: no trade is left to net, awards and attempt marks are cleared.
fn next_day(core: Core, late: usize, positions: usize) -> Core
    requires { core.day.0 < LAST_DAY }
    ensures { result ≡ closed_core core late positions }
{
    let tomorrow = BusinessDay(core.day.0 + 1);
    let held = core.trades;
    let mut after = core;
    after.late = late;
    after.positions = positions;
    after.netted = held;
    after.awards = 0;
    after.marks.count = 0;
    after.day = tomorrow;
    after
}

// The day ends: the shorts that were due on it become late, its charges are posted, and its trades are netted.
pub fn close(core: Core, lent: &mut Numbers) -> Answered
    requires { Held core lent.old }
    ensures called { CalledBare core lent.old (call event.Close 0) result.core lent.new result.outcome result.pieces }
    ensures kept { lent.new ≡ record lent.old { rows = lent.new.rows; counts = lent.new.counts; words = lent.new.words; ledger = lent.new.ledger } }
{
    if let Err(refusal) = close_refusal(core.auction.position, core.day) {
        return refused(core, refusal);
    }
    let held = core.positions;
    let late = failing::raise_late(
        &mut lent.words,
        &mut lent.counts,
        &lent.rows,
        held,
        core.late,
        core.day,
    );
    fined(core, &lent.rows, &lent.awards, late, &mut lent.ledger);
    let made = netting::net_day(
        &mut lent.rows,
        held,
        &lent.trades,
        core.netted,
        core.trades,
        core.day,
        core.opening.register.count,
    );
    let after = next_day(core, late, made);
    done(after, 0, 0)
}
