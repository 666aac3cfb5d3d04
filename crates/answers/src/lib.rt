// How the static libraries answer a refusal number and a quantity: as one number, since neither a struct nor an enum with a value crosses their boundary.
#![tactic(auto)]

ghost use Rattle.std.specs.Prelude.{◌≡◌};
ghost use Rattle.laws.specs.Answers.{number_in, quantity_of};
ghost use Rattle.answers.specs.Packed as definition;

use laws::Refusal;

// The quantity is below 2^32.
pub fn packed(number: u8, quantity: u32) -> u64
    ensures { result ≡ definition.packed number quantity }
{
    (u64::from(number) << 32) + u64::from(quantity)
}

// What a function answers: its quantity with the number 0, or the number of why it is turned down.
pub fn answered(answer: Result<u32, Refusal>) -> u64
    ensures { result ≡ definition.packed (number_in answer) (quantity_of answer) }
{
    match answer {
        Ok(quantity) => packed(0, quantity),
        Err(refusal) => packed(u8::from(refusal), 0),
    }
}
