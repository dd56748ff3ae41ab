//! Exact arithmetic on whole numbers of 128 bits.
ghost use Rattle.std.specs.Prelude.{◌≡◌, ◌-◌, ◌^◌, ◌-ℤ◌, min, Some, pos, true, false};
ghost use Rattle.std.specs.Int.Signed.{mag};
ghost use Rattle.go_model.specs.constants.Constants.{complement_of, binary_number, exact_shift, is_number_of, unary_number};
ghost use Rattle.go_const.specs.inner.Bounds.{bounded};

use go_model::constants::class::Integer;
use go_model::constants::value::{BinaryOp, UnaryOp};

/// 2^bits - 1, or the greatest number where that is past it.
fn ones(bits: u32) -> i128
    ensures { result ≡ pos (2 ^ min bits 127 - 1) }
{
    i128::MAX >> (127 - bits.min(127))
}

/// n for a number n of at least 0, and n - 1 for a number -n below 0.
fn magnitude(number: i128) -> i128
    ensures { result ≡ pos (mag number) }
{
    if number < 0 { !number } else { number }
}

/// Whether it is a number of the integer type.
pub fn is_number(integer: Integer, number: i128) -> bool
    ensures { result ≡ is_number_of integer number }
{
    match integer {
        Integer::Signed(bits) => magnitude(number) <= ones(bits.saturating_sub(1)),
        Integer::Unsigned(bits) => 0 <= number && number <= ones(bits),
    }
}

/// 2^bits - 1 - number; None exactly where that doesn't fit into 128 bits, with sign.
fn unsigned_complement(bits: u32, number: i128) -> Option<i128>
    ensures { result ≡ bounded (Some (pos (2 ^ bits - 1) -ℤ number)) }
{
    if bits > 127 {
        return None;
    }
    ones(bits).checked_sub(number)
}

/// The number with each bit flipped: the bits of the type, where it is unsigned. It is None exactly where
/// that doesn't fit into 128 bits, with sign.
fn complement(integer: Option<Integer>, number: i128) -> Option<i128>
    ensures { result ≡ bounded (Some (complement_of integer number)) }
{
    match integer {
        Some(Integer::Unsigned(bits)) => unsigned_complement(bits, number),
        Some(Integer::Signed(_)) | None => Some(!number),
    }
}

/// The number of an operator before a number. It is None exactly where the operator is for truth values,
/// or the number doesn't fit into 128 bits, with sign.
pub fn changed(op: UnaryOp, integer: Option<Integer>, number: i128) -> Option<i128>
    ensures { result ≡ bounded (unary_number op integer number) }
{
    match op {
        UnaryOp::Plus => Some(number),
        UnaryOp::Minus => number.checked_neg(),
        UnaryOp::Xor => complement(integer, number),
        UnaryOp::Not => None,
    }
}

/// The remainder of a division that goes towards zero; None exactly by 0.
fn remainder(left: i128, right: i128) -> Option<i128>
    ensures { result ≡ bounded (binary_number BinaryOp.Remainder left right) }
{
    if right == 0 {
        return None;
    }
    Some(left.wrapping_rem(right))
}

/// The number of an operator between two numbers. It is None exactly where the operator is for truth
/// values, the divisor is 0, or the number doesn't fit into 128 bits, with sign.
pub fn combined(op: BinaryOp, left: i128, right: i128) -> Option<i128>
    ensures { result ≡ bounded (binary_number op left right) }
{
    match op {
        BinaryOp::Add => left.checked_add(right),
        BinaryOp::Subtract => left.checked_sub(right),
        BinaryOp::Multiply => left.checked_mul(right),
        BinaryOp::Divide => left.checked_div(right),
        BinaryOp::Remainder => remainder(left, right),
        BinaryOp::And => Some(left & right),
        BinaryOp::Or => Some(left | right),
        BinaryOp::Xor => Some(left ^ right),
        BinaryOp::AndNot => Some(left & !right),
        BinaryOp::LogicalAnd | BinaryOp::LogicalOr => None,
    }
}

/// The number times 2^count; None exactly where that doesn't fit into 128 bits, with sign.
#[tactic(auto, using(crate::proofs::Shifts::shifted_checked, crate::proofs::Shifts::shifted_out))]
pub fn shifted_left(number: i128, count: u128) -> Option<i128>
    ensures { result ≡ bounded (Some (exact_shift true number count)) }
{
    if number == 0 {
        return Some(0);
    }
    if count < 127 {
        return number.checked_mul(1 << (count as u32));
    }
    if number == -1 && count == 127 {
        return Some(i128::MIN);
    }
    None
}

/// The number by 2^count, rounded down.
#[tactic(auto, using(crate::proofs::Shifts::shifted_right_is))]
pub fn shifted_right(number: i128, count: u128) -> i128
    ensures { result ≡ exact_shift false number count }
{
    number >> (count.min(127) as u32)
}
