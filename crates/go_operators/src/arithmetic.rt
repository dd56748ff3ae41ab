//! Operators between two operands that match.
ghost use Rattle.std.specs.Prelude.{◌≡◌, ◌&&◌, not, IfOk};
ghost use Rattle.go_model.specs.constants.Classes.{class_of, is_integer};
ghost use Rattle.go_model.specs.constants.Operators.{binary_applies};
ghost use Rattle.go_rules.specs.Expressions.{Computes, divides, is_zero, is_zero_constant};
ghost use Rattle.go_rules.specs.Scopes.{env_of};
ghost use Rattle.go_usability.specs.Answers.{Gives};
ghost use Rattle.go_operators.specs.inner.Constants.{ConstantsCompute};

use crate::operands::{computed_where, constant_with};
use crate::values::{are_constant, kind_of, value_in};
use go_base::memory::NoMemory;
use go_model::constants::class::Class;
use go_model::constants::value::{BinaryOp, Kind, Value};
use go_rules::operand::{Operand, Shape};
use go_usability::context::Context;
use go_usability::go_const::operation;
use go_usability::matching::matching;
use std::alloc::Global;

fn divides(op: BinaryOp) -> bool
    ensures { result ≡ divides op }
{
    matches!(op, BinaryOp::Divide | BinaryOp::Remainder)
}

fn is_zero(value: &Value) -> bool
    ensures { result ≡ is_zero value.now }
{
    match value {
        Value::Int(number) => *number == 0,
        _ => false,
    }
}

fn is_zero_constant(shape: &Shape) -> bool
    ensures { result ≡ is_zero_constant shape.now }
{
    match shape {
        Shape::Fixed(_, value) => is_zero(value),
        _ => false,
    }
}

fn is_integer(kind: Kind) -> bool
    ensures { result ≡ is_integer (class_of kind) }
{
    matches!(kind.class(), Class::Integer)
}

// Whether values of the kind have the operator, with this one on its right.
fn may_compute(op: BinaryOp, kind: Kind, right: &Operand) -> bool
    ensures { result ≡ (binary_applies op (class_of kind) && not ((divides op && is_integer (class_of kind)) && is_zero_constant right.now.shape)) }
{
    op.applies_to(kind.class())
        && !((divides(op) && is_integer(kind)) && is_zero_constant(&right.shape))
}

// The value of an operator between two constants of a kind.
fn compute_constants(
    alloc: Global,
    op: BinaryOp,
    left: &Operand,
    right: &Operand,
    kind: Kind,
    bits: u32,
) -> Result<Option<Value>, NoMemory>
    ensures { IfOk result (Gives (ConstantsCompute op kind bits left.now right.now)) }
{
    let value = match value_in(left) {
        Some(value) => value,
        None => return Ok(None),
    };
    match value_in(right) {
        Some(other) => {
            let answer = operation::binary(alloc, op, value, other, kind, bits)?;
            Ok(answer)
        }
        None => Ok(None),
    }
}

/// The result of an operator between two operands. It is None exactly where they don't match, or aren't
/// of a kind that has the operator, where an integer is divided by the constant 0, and where the result of
/// two constants is out of range.
pub fn binary(
    context: &Context<'_>,
    alloc: Global,
    op: BinaryOp,
    left: &Operand,
    right: &Operand,
) -> Result<Option<Operand>, NoMemory>
    ensures { IfOk result (Gives (Computes (env_of context.now.env.now) op left.now right.now)) }
{
    let term = match matching(context, alloc, left, right)? {
        Some(term) => term,
        None => return Ok(None),
    };
    let kind = match kind_of(context, &term) {
        Some(kind) => kind,
        None => return Ok(None),
    };
    if are_constant(left, right) {
        let value = compute_constants(alloc, op, left, right, kind, context.env.bits())?;
        return Ok(constant_with(term, value));
    }
    let answer = computed_where(alloc, may_compute(op, kind, right), &term)?;
    Ok(answer)
}
