// The tests that several calls make before they are turned down, of the values that they look at: fields, numbers and single elements of the
// book. Each call has the list of its own tests.
// Document 01, 'Why a call is turned down', and document 02.
#![tactic(auto)]

ghost use Rattle.std.specs.Prelude.{◌≡◌, ◌-◌, eqb};
ghost use Rattle.laws.specs.Asked.{within};
ghost use Rattle.rules.specs.Windows.{step_on};
ghost use Rattle.plain.specs.Refusals.{is_member, is_quantity, is_price, runs_on, is_never, is_given_before};

use laws::{BusinessDay, MEMBERS, MOST_PRICE, MOST_QUANTITY};
use plain::{Latest, Position};
use rules::Step;

pub fn is_within(low: usize, high: usize, n: usize) -> bool
    ensures { result ≡ within low high n }
{
    low <= n && n <= high
}

pub fn is_member(member: u8) -> bool
    ensures { result ≡ is_member member }
{
    is_within(1, MEMBERS as usize, member as usize)
}

pub fn is_security(securities: u16, security: u16) -> bool
    ensures { result ≡ within 1 securities security }
{
    is_within(1, securities as usize, security as usize)
}

pub fn is_quantity(quantity: u32) -> bool
    ensures { result ≡ is_quantity quantity }
{
    is_within(1, MOST_QUANTITY as usize, quantity as usize)
}

pub fn is_price(price: u32) -> bool
    ensures { result ≡ is_price price }
{
    is_within(1, MOST_PRICE as usize, price as usize)
}

// Where no auction runs its position is 0, which no position is.
pub fn runs_on(auction: u16, position: u16) -> bool
    ensures { result ≡ runs_on auction position }
{
    auction != 0 && auction == position
}

// The step that a day allows on a position. One that is not due allows what r 0 does: none.
pub fn step_today(class: u8, day: BusinessDay, p: Position) -> Step
    ensures { result ≡ step_on class (day.0 - p.settlement.0) }
{
    rules::step_on(class, day.0.saturating_sub(p.settlement.0))
}

// Nothing is open.
pub fn is_settled(unsettled: u32) -> bool
    ensures { result ≡ eqb unsettled 0 }
{
    unsettled == 0
}

// The security never had a price.
pub fn is_never(latest: Option<Latest>) -> bool
    ensures { result ≡ is_never latest }
{
    latest.is_none()
}

// The latest price is of an earlier day than this one.
pub fn is_given_before(day: BusinessDay, latest: Option<Latest>) -> bool
    ensures { result ≡ is_given_before day.0 latest }
{
    latest.is_some_and(|given| given.day.0 < day.0)
}

// What is open and not reserved for awards.
pub fn free_units(unsettled: u32, reserved: u32) -> u32
    ensures { result ≡ unsettled - reserved }
{
    unsettled.saturating_sub(reserved)
}
