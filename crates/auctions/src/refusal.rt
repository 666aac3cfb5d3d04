// What turns an attempt, an offer or an award down.
ghost use Rattle.std.specs.Prelude.{◌≡◌};
ghost use Rattle.laws.specs.Answers.{number_in};
ghost use Rattle.laws.specs.Refusals.{first};
ghost use Rattle.plain.specs.Refusals.{attempt_reasons, offer_reasons, auction_reasons, award_reasons};

use events::Offer;
use laws::{ATTEMPTS, BusinessDay, OFFERS, Refusal};
use plain::{Latest, Position};
use refusals::{
    is_given_before, is_member, is_never, is_price, is_quantity, is_settled, is_within, runs_on,
};
use rules::Step;

#[tactic(auto, unfolding(plain::specs::Refusals::award_reasons))]
pub fn award_refusal(held: usize, auction: u16, position: u16) -> Result<(), Refusal>
    ensures { number_in result ≡ first (award_reasons held auction position) }
{
    if !is_within(1, held, position as usize) {
        return Err(Refusal::NotThere);
    }
    if !runs_on(auction, position) {
        return Err(Refusal::Auction);
    }
    Ok(())
}

#[tactic(auto, unfolding(plain::specs::Refusals::attempt_reasons))]
pub fn attempt_refusal(
    p: Position,
    day: BusinessDay,
    today: Step,
    auction: u16,
    latest: Option<Latest>,
    attempts: usize,
    marked: bool,
) -> Result<(), Refusal>
    ensures { number_in result ≡ first (attempt_reasons p day.0 today auction latest attempts marked) }
{
    if !p.short {
        return Err(Refusal::Long);
    }
    if today != Step::Attempt {
        return Err(Refusal::OutsideWindow);
    }
    if 0 < auction {
        return Err(Refusal::Auction);
    }
    if is_never(latest) {
        return Err(Refusal::NoPrice);
    }
    if is_given_before(day, latest) {
        return Err(Refusal::OldPrice);
    }
    if ATTEMPTS <= attempts {
        return Err(Refusal::Attempted);
    }
    if marked {
        return Err(Refusal::Attempted);
    }
    if is_settled(p.unsettled) {
        return Err(Refusal::NotEnough);
    }
    Ok(())
}

// The refusals of an offer that its fields and the auction's position decide.
#[tactic(auto, unfolding(plain::specs::Refusals::offer_reasons))]
pub fn offer_refusal(held: usize, auction: u16, o: Offer) -> Result<(), Refusal>
    ensures { number_in result ≡ first (offer_reasons held auction o) }
{
    if !is_member(o.offerer) {
        return Err(Refusal::NoMember);
    }
    if !is_within(1, held, o.position as usize) {
        return Err(Refusal::NotThere);
    }
    if !is_quantity(o.quantity) {
        return Err(Refusal::WrongQuantity);
    }
    if !is_price(o.price) {
        return Err(Refusal::WrongPrice);
    }
    if !runs_on(auction, o.position) {
        return Err(Refusal::Auction);
    }
    Ok(())
}

// Those after them, which the auction decides.
#[tactic(auto, unfolding(plain::specs::Refusals::auction_reasons))]
pub fn auction_refusal(fails: bool, ceiling: u64, offers: usize, price: u32) -> Result<(), Refusal>
    ensures { number_in result ≡ first (auction_reasons fails ceiling offers price) }
{
    if fails {
        return Err(Refusal::Failing);
    }
    if ceiling < price as u64 {
        return Err(Refusal::AboveCeiling);
    }
    if OFFERS <= offers {
        return Err(Refusal::OffersFull);
    }
    Ok(())
}
