//! Lengths of arrays.
ghost use Rattle.std.specs.Prelude.{◌≡◌, ◌⊎◌, ℕ, pos, ◌<◌, ◌^◌, MatchOption};
ghost use Rattle.go_usability.specs.Answers.{Gives};
ghost use Rattle.go_type_terms.specs.Lengths.{IsLength, IsLengthValue};

use go_model::constants::value::{Basic, Value};
use go_rules::operand::{Mode, Operand, Shape};
use go_usability::go_const::representation::representable;

// The number from 0, where it fits into 64 bits.
fn natural(number: i128) -> Option<u64>
    ensures { MatchOption result ((n : ℕ) → n < 2 ^ 64 → number ≡ pos n → ⊥) (λ n. number ≡ pos n) }
{
    if number < 0 || number > u64::MAX as i128 {
        None
    } else {
        Some(number as u64)
    }
}

// The whole number from 0 that is representable in int.
fn length_of(bits: u32, value: &Value) -> Option<u64>
    requires { (bits ≡ 32) ⊎ (bits ≡ 64) }
    ensures { Gives (IsLengthValue bits value.now) result }
{
    if !representable(value, Basic::Int, bits) {
        return None;
    }
    match value {
        Value::Int(number) => natural(*number),
        Value::Str(_) => None,
        Value::Truth(_) => None,
    }
}

/// The length of an array that an operand is: a constant whole number from 0 that is representable in
/// int, which has so many bits.
pub(crate) fn array_length(bits: u32, operand: &Operand) -> Option<u64>
    requires { (bits ≡ 32) ⊎ (bits ≡ 64) }
    ensures { Gives (IsLength bits operand.now) result }
{
    match (operand.mode, &operand.shape) {
        (Mode::Constant, Shape::Fixed(_, value)) => length_of(bits, value),
        _ => None,
    }
}
