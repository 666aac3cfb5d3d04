// The ten calls in place, the way in: opening, the calls of `trading`, `auctions`, `discharges`, `pairing` and `closing`, the reads of `reading`, and `step`, which
// plays an event by the call of its kind. A call of few parts takes these alone; of the others its contract says that they may be any with which the core is
// held. A discharge changes no part of the core.
#![tactic(auto)]

mod opening;

ghost use Rattle.std.specs.Prelude.{length, ◌≡◌};
ghost use Rattle.laws.specs.Limits.{SHEET_CELLS};
ghost use Rattle.machine.specs.View.{Held};
ghost use Rattle.calls.specs.Stepping.{Stepped};

pub use auctions::{attempt, award, offer};
pub use closing::close;
pub use discharges::{cash, confirm, delivery};
use events::Event;
use laws::SHEET_CELLS;
pub use machine::{Answered, Core, Numbers};
pub use opening::{new_core, new_numbers, open_core};
pub use pairing::pair_off;
pub use reading::{award_at, balance, day, isins, latest_price, position, position_count};
pub use trading::{price, trade};

// One event, by the call of its kind, on all that is lent and a sheet.
pub fn step(core: Core, lent: &mut Numbers, sheet: &mut [u64; SHEET_CELLS], e: Event) -> Answered
    requires { (Held core lent.old) × (length sheet.old ≡ SHEET_CELLS) }
    ensures { Stepped core lent.old e sheet.old result.core lent.new sheet.new result.outcome result.pieces }
{
    match e {
        Event::Trade(t) => trade(core, &mut lent.trades, t),
        Event::Price(p) => price(core, p),
        Event::Delivery(d) => delivery(core, lent, sheet, d),
        Event::Attempt(a) => attempt(core, &lent.rows, a),
        Event::Offer(o) => offer(core, &lent.rows, &lent.words, o),
        Event::Award(a) => award(core, &lent.rows, &mut lent.awards, a),
        Event::Confirm(c) => confirm(core, lent, sheet, c),
        Event::Cash(c) => cash(core, lent, sheet, c),
        Event::Close => close(core, lent),
        Event::PairOff(x) => pair_off(core, lent, sheet, x),
    }
}
