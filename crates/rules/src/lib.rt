// The rules on numbers alone: day windows, prices, fees and fines. Each function is its definition in specs/, for all inputs.
#![tactic(auto)]

ghost use Rattle.std.specs.Prelude.{◌≡◌, [], ◌∷◌, ◌*◌};
ghost use Rattle.rules.specs.Windows.{step_on, recurring_step, step_kind};
ghost use Rattle.rules.specs.Prices.{ceiling, raised, cash_price};
ghost use Rattle.rules.specs.Charges.{rounded_half_up, fee, cash_fee, award_fine, late_fine, buy_in_charge};

// The step that a day allows on a short besides delivery, by the kind of its event: 0 where it is none.
#[derive(Clone, Copy, PartialEq, Eq)]
pub enum Step {
    Nothing = 0,
    Attempt = 4,
    Cash = 8,
}

// Cents by their sign: of a charge, a debit, or a credit where it is negative; of a balance, a credit where it is positive.
#[derive(Clone, Copy)]
pub enum Amount {
    Debit(u64),
    Credit(u64),
}

#[tactic(auto, unfolding(crate::specs::Windows::step_on, crate::specs::Windows::share_step))]
pub fn step_on(class: u8, r: u16) -> Step
    ensures { result ≡ step_on class r }
{
    match (class, r) {
        (1, 0..=4) => Step::Nothing,
        (1, 5..=7) => Step::Attempt,
        (1, _) => Step::Cash,
        (2 | 3, _) => recurring_step(r),
        _ => Step::Nothing,
    }
}

// From r 27 on the windows of classes 2 and 3 recur every ten days.
#[tactic(auto, unfolding(crate::specs::Windows::recurring_step))]
fn recurring_step(r: u16) -> Step
    ensures { result ≡ recurring_step r }
{
    match (r, r % 10) {
        (0..=26, _) => Step::Nothing,
        (_, 0..=6) => Step::Cash,
        (_, 7) => Step::Attempt,
        _ => Step::Nothing,
    }
}

pub fn step_kind(step: Step) -> u8
    ensures { result ≡ step_kind step }
{
    step as u8
}

#[tactic(auto, unfolding(crate::specs::Prices::ceiling))]
pub fn ceiling_of(class: u8, latest: u32) -> u64
    ensures { result ≡ ceiling class latest }
{
    let price = latest as u64;
    match class {
        1 | 2 => 2 * price,
        3 => 103 * price / 100,
        _ => 0,
    }
}

// Beside `ceiling_of`, from which it differs in class 3 alone, since they are two rules.
#[tactic(auto, unfolding(crate::specs::Prices::raised))]
fn raised_price(class: u8, latest: u32) -> u64
    ensures { result ≡ raised class latest }
{
    let price = latest as u64;
    match class {
        1 | 2 => 2 * price,
        3 => price + 300,
        _ => 0,
    }
}

// The price of a cash settlement, by the reference price of its short and the highest one among the longs in its pieces: several longs count
// by that one alone (`by-highest-long`).
#[tactic(auto, unfolding(crate::specs::Prices::cash_price))]
pub fn cash_price(class: u8, short: u32, long: u32, latest: u32) -> u64
    ensures { result ≡ cash_price class short (long ∷ []) latest }
{
    u64::from(short.max(long)).max(raised_price(class, latest))
}

// Half up: nothing under half of the divisor, and from there on one more than the whole divisors that follow. So no sum overflows,
// whatever the value, and a constant divisor leaves a multiplication and no rest. A divisor of 0 gives 0, as the definition's quotient does.
#[tactic(auto, using(crate::proofs::Halves::by_zero, crate::proofs::Halves::under_half, crate::proofs::Halves::from_half))]
pub fn rounded(value: u64, divisor: u32) -> u64
    ensures { result ≡ rounded_half_up value divisor }
{
    if divisor == 0 {
        return 0;
    }
    let by = divisor as u64;
    let half = by - by / 2;
    if value < half {
        return 0;
    }
    (value - half) / by + 1
}

#[tactic(auto, unfolding(crate::specs::Charges::fee))]
pub fn fee_within(divisor: u32, least: u64, most: u64, value: u64) -> u64
    ensures { result ≡ fee divisor least most value }
{
    rounded(value, divisor).max(least).min(most)
}

#[tactic(auto, unfolding(crate::specs::Charges::cash_fee))]
pub fn cash_fee(value: u64) -> u64
    ensures { result ≡ cash_fee value }
{
    fee_within(40000, 25000, 100000, value)
}

#[tactic(auto, unfolding(crate::specs::Charges::award_fine))]
pub fn award_fine(class: u8, value: u64) -> u64
    ensures { result ≡ award_fine class value }
{
    match class {
        1 | 2 => rounded(value, 2500).max(100000),
        3 => 100000,
        _ => 0,
    }
}

#[tactic(auto, unfolding(crate::specs::Charges::late_fine))]
pub fn late_fine(value: u64) -> u64
    ensures { result ≡ late_fine value }
{
    rounded(value, 10000)
}

// The value of a quantity at a price.
pub fn value_of(quantity: u32, price: u32) -> u64
    ensures { result ≡ quantity * price }
{
    (quantity as u64) * (price as u64)
}

#[tactic(auto, using(crate::specs::Charged::buy_in_amount))]
pub fn buy_in_charge(quantity: u32, price: u32, reference: u32) -> Amount
    ensures { result ≡ buy_in_charge quantity price reference }
{
    let bought = value_of(quantity, price);
    let sold = value_of(quantity, reference);
    if sold <= bought {
        Amount::Debit(bought - sold)
    } else {
        Amount::Credit(sold - bought)
    }
}
