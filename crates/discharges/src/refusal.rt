// What turns a delivery, a confirmation or a cash settlement down.
ghost use Rattle.std.specs.Prelude.{◌≡◌, ◌-◌};
ghost use Rattle.laws.specs.Answers.{number_in};
ghost use Rattle.laws.specs.Refusals.{first};
ghost use Rattle.plain.specs.Refusals.{lookup_reasons, delivery_reasons, confirm_reasons, cash_reasons};

use events::Delivery;
use laws::{BusinessDay, PLACES, Refusal};
use plain::{Award, Latest, Position};
use refusals::{free_units, is_given_before, is_never, is_settled, is_within, runs_on};
use rules::Step;

// The refusals before the position or award is looked at: the list as the paper has it, of any sheet, though a call in place has one of 1,024 places.
#[tactic(auto, unfolding(plain::specs::Refusals::lookup_reasons))]
pub fn lookup_refusal(sheet: usize, held: usize, number: u16) -> Result<(), Refusal>
    ensures { number_in result ≡ first (lookup_reasons sheet held number) }
{
    if sheet < PLACES {
        return Err(Refusal::SmallSheet);
    }
    if !is_within(1, held, number as usize) {
        return Err(Refusal::NotThere);
    }
    Ok(())
}

#[tactic(auto, unfolding(plain::specs::Refusals::delivery_reasons, plain::specs::Dealing::due))]
pub fn delivery_refusal(
    p: Position,
    day: BusinessDay,
    auction: u16,
    reserved: u32,
    d: Delivery,
) -> Result<(), Refusal>
    ensures { number_in result ≡ first (delivery_reasons p day.0 auction (p.unsettled - reserved) d) }
{
    if d.quantity == 0 {
        return Err(Refusal::WrongQuantity);
    }
    if !p.short {
        return Err(Refusal::Long);
    }
    if day.0 < p.settlement.0 {
        return Err(Refusal::OutsideWindow);
    }
    if runs_on(auction, d.position) {
        return Err(Refusal::Auction);
    }
    if free_units(p.unsettled, reserved) < d.quantity {
        return Err(Refusal::NotEnough);
    }
    Ok(())
}

#[tactic(auto, unfolding(plain::specs::Refusals::confirm_reasons))]
pub fn confirm_refusal(award: Award) -> Result<(), Refusal>
    ensures { number_in result ≡ first (confirm_reasons award) }
{
    if award.confirmed {
        return Err(Refusal::Confirmed);
    }
    Ok(())
}

#[tactic(auto, unfolding(plain::specs::Refusals::cash_reasons))]
pub fn cash_refusal(
    p: Position,
    day: BusinessDay,
    today: Step,
    latest: Option<Latest>,
) -> Result<(), Refusal>
    ensures { number_in result ≡ first (cash_reasons p day.0 today latest) }
{
    if !p.short {
        return Err(Refusal::Long);
    }
    if today != Step::Cash {
        return Err(Refusal::OutsideWindow);
    }
    if is_never(latest) {
        return Err(Refusal::NoPrice);
    }
    if is_given_before(day, latest) {
        return Err(Refusal::OldPrice);
    }
    if is_settled(p.unsettled) {
        return Err(Refusal::NotEnough);
    }
    Ok(())
}
