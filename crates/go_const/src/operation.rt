//! The operators of constant expressions.
ghost use Rattle.std.specs.Prelude.{◌≡◌, IfOk, Ok, Some};
ghost use Rattle.go_model.specs.constants.Classes.{integer_of_kind};
ghost use Rattle.go_model.specs.constants.Constants.{binary_truth, binary_value, exact_binary, exact_shift, exact_unary, kept, shift_value, unary_truth, unary_value};
ghost use Rattle.go_model.specs.declared.constants.value.Value.TheVariants as v;

use crate::number::{changed, combined, shifted_left, shifted_right};
use crate::results::{number_result, text_result, truth_result};
use go_model::constants::class::Class;
use go_model::constants::value::{BinaryOp, Kind, UnaryOp, Value};
use go_model::go_base::memory::NoMemory;
use std::alloc::Global;

fn truth_changed(op: UnaryOp, truth: bool) -> Option<bool>
    ensures { result ≡ unary_truth op truth }
{
    match op {
        UnaryOp::Not => Some(!truth),
        _ => None,
    }
}

fn truth_combined(op: BinaryOp, left: bool, right: bool) -> Option<bool>
    ensures { result ≡ binary_truth op left right }
{
    match op {
        BinaryOp::LogicalAnd => Some(left && right),
        BinaryOp::LogicalOr => Some(left || right),
        _ => None,
    }
}

/// The result of an operator that the kind has, before a value.
#[tactic(auto, using(crate::proofs::KeptNumbers::kept_from), unfolding(go_model::specs::constants::Constants::kept))]
fn unary_result(op: UnaryOp, value: &Value, kind: Kind, bits: u32) -> Option<Value>
    ensures { result ≡ kept kind bits (exact_unary op (integer_of_kind kind bits) value.now) }
{
    match value {
        Value::Int(number) => number_result(changed(op, kind.integer(bits), *number), kind, bits),
        Value::Str(_) => None,
        Value::Truth(truth) => truth_result(truth_changed(op, *truth), kind, bits),
    }
}

/// The result of an operator that the kind has, between two values.
#[tactic(auto, unfolding(go_model::specs::constants::Constants::kept))]
fn binary_result(
    alloc: Global,
    op: BinaryOp,
    left: &Value,
    right: &Value,
    kind: Kind,
    bits: u32,
) -> Result<Option<Value>, NoMemory>
    ensures { IfOk result (λ answer. answer ≡ kept kind bits (exact_binary op left.now right.now)) }
{
    match (left, right) {
        (Value::Int(x), Value::Int(y)) => Ok(number_result(combined(op, *x, *y), kind, bits)),
        (Value::Str(x), Value::Str(y)) if op == BinaryOp::Add => text_result(
            alloc,
            x.bytes(),
            y.bytes(),
            kind,
            bits,
        ),
        (Value::Truth(x), Value::Truth(y)) => Ok(truth_result(
            truth_combined(op, *x, *y),
            kind,
            bits,
        )),
        _ => Ok(None),
    }
}

/// The value of an operator before a value. For a value of the kind it is None exactly where the kind
/// hasn't the operator, or the exact value is out of range or not of the kind. The answer is always Ok,
/// since no result is a text.
#[tactic(auto, unfolding(go_model::specs::constants::Constants::unary_value))]
pub fn unary(op: UnaryOp, value: &Value, kind: Kind, bits: u32) -> Result<Option<Value>, NoMemory>
    ensures { result ≡ Ok (unary_value op value.now kind bits) }
{
    if !op.applies_to(kind.class()) {
        return Ok(None);
    }
    Ok(unary_result(op, value, kind, bits))
}

/// The value of an operator between two values. For values of the kind it is None exactly where the kind
/// hasn't the operator, the divisor is 0, or the exact value is out of range or not of the kind.
#[tactic(auto, unfolding(go_model::specs::constants::Constants::binary_value))]
pub fn binary(
    alloc: Global,
    op: BinaryOp,
    left: &Value,
    right: &Value,
    kind: Kind,
    bits: u32,
) -> Result<Option<Value>, NoMemory>
    ensures { IfOk result (λ answer. answer ≡ binary_value op left.now right.now kind bits) }
{
    if !op.applies_to(kind.class()) {
        return Ok(None);
    }
    binary_result(alloc, op, left, right, kind, bits)
}

/// The result of a shift of a number, in a kind that has shifts.
fn shift_result(left: bool, number: i128, count: u128, kind: Kind, bits: u32) -> Option<Value>
    ensures { result ≡ kept kind bits (Some (v.Int (exact_shift left number count))) }
{
    if left {
        number_result(shifted_left(number, count), kind, bits)
    } else {
        number_result(Some(shifted_right(number, count)), kind, bits)
    }
}

/// The value, shifted to the left or to the right by the count. For a value of the kind, and a count that
/// is an Int, it is None exactly where the kind has no shifts, the count is below 0, or the exact value is
/// out of range or not of the kind.
#[tactic(auto, unfolding(go_model::specs::constants::Constants::shift_value))]
pub fn shift(left: bool, value: &Value, count: &Value, kind: Kind, bits: u32) -> Option<Value>
    ensures { result ≡ shift_value left value.now count.now kind bits }
{
    match (value, count) {
        (Value::Int(number), Value::Int(count)) if *count >= 0 && kind.class() == Class::Integer =>
            { shift_result(left, *number, count.unsigned_abs(), kind, bits) }
        _ => None,
    }
}
