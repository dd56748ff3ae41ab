//! Shifts.
ghost use Rattle.std.specs.Prelude.{◌≡◌, ◌⊎◌, ℕ, IfOk, Option, pos, true, false};
ghost use Rattle.go_model.specs.constants.Classes.{class_of_basic, is_integer};
ghost use Rattle.go_model.specs.declared.constants.value.Basic.{Basic};
ghost use Rattle.go_model.specs.declared.constants.value.Value.{Value};
ghost use Rattle.go_model.specs.declared.constants.value.Value.TheVariants as v;
ghost use Rattle.go_rules.specs.Expressions.{IsCount, Shifts};
ghost use Rattle.go_rules.specs.Operands.{constant_of};
ghost use Rattle.go_rules.specs.Scopes.{env_of};
ghost use Rattle.go_usability.specs.go_selectors.Answers.{Decides};
ghost use Rattle.go_usability.specs.Answers.{Gives};
ghost use Rattle.go_operators.specs.inner.Constants.{ConstantShifts, IntegerValue};

use crate::levels::is_integer;
use crate::operands::{constant_like, plain_where};
use crate::values::{constant_of, is_integer_value, kind_of, type_of, value_in};
use go_base::memory::NoMemory;
use go_model::constants::value::{Basic, Value};
use go_model::types::package::ConstTerm;
use go_rules::operand::Operand;
use go_usability::context::Context;
use go_usability::go_const::operation;
use go_usability::go_const::representation::representable;
use std::alloc::Global;

// Whether it is a whole number from 0.
fn is_natural(value: &Value) -> bool
    ensures { Decides result ((n : ℕ) × (value.now ≡ v.Int (pos n))) }
{
    match value {
        Value::Int(number) => *number >= 0,
        _ => false,
    }
}

// Whether a shift's count may be this constant.
fn is_constant_count(context: &Context<'_>, term: &ConstTerm, value: &Value) -> bool
    ensures { Decides result ((w : Option Value) × IsCount (env_of context.now.env.now) (constant_of term.now value.now) w) }
{
    if !is_natural(value) {
        return false;
    }
    match term {
        ConstTerm::OfTerm(term) => is_integer(context, term),
        ConstTerm::OfKind(_) => representable(value, Basic::Uint, context.env.bits()),
    }
}

// Whether a shift's count may be this operand.
fn is_count(context: &Context<'_>, operand: &Operand) -> bool
    ensures { Decides result ((w : Option Value) × IsCount (env_of context.now.env.now) operand.now w) }
{
    if let Some((term, value)) = constant_of(operand) {
        return is_constant_count(context, term, value);
    }
    is_integer_value(context, operand)
}

fn shift_constant(
    context: &Context<'_>,
    alloc: Global,
    left: bool,
    term: &ConstTerm,
    value: &Value,
    count: &Value,
) -> Result<Option<Operand>, NoMemory>
    ensures { IfOk result (Gives (ConstantShifts (env_of context.now.env.now) left term.now value.now count.now)) }
{
    match kind_of(context, term) {
        Some(kind) => {
            let shifted = operation::shift(left, value, count, kind, context.env.bits());
            let answer = constant_like(alloc, term, shifted)?;
            Ok(answer)
        }
        None => Ok(None),
    }
}

// A value of the same integer type.
fn integer_value(
    context: &Context<'_>,
    alloc: Global,
    operand: &Operand,
) -> Result<Option<Operand>, NoMemory>
    ensures { IfOk result (Gives (IntegerValue (env_of context.now.env.now) operand.now)) }
{
    match type_of(operand) {
        Some(term) => {
            let answer = plain_where(alloc, is_integer(context, term), term)?;
            Ok(answer)
        }
        None => Ok(None),
    }
}

// The result of a shift of a constant.
fn shift_by(
    context: &Context<'_>,
    alloc: Global,
    left: bool,
    operand: &Operand,
    term: &ConstTerm,
    value: &Value,
    count: &Operand,
) -> Result<Option<Operand>, NoMemory>
    requires constant { operand.now ≡ constant_of term.now value.now }
    requires counted { (w : Option Value) × IsCount (env_of context.now.env.now) count.now w }
    ensures { IfOk result (Gives (Shifts (env_of context.now.env.now) left operand.now count.now)) }
{
    match value_in(count) {
        Some(by) => {
            let shifted = shift_constant(context, alloc, left, term, value, by)?;
            Ok(shifted)
        }
        None => {
            let answer = integer_value(context, alloc, operand)?;
            Ok(answer)
        }
    }
}

/// The result of a shift of an operand to the left or to the right. It is None exactly where the count
/// isn't a value of an integer type, from 0 where it is constant, or an untyped constant that is a whole
/// number from 0 representable in uint; where a constant by a constant has no result of its kind; and where
/// else the operand isn't of an integer type.
pub fn shift(
    context: &Context<'_>,
    alloc: Global,
    left: bool,
    operand: &Operand,
    count: &Operand,
) -> Result<Option<Operand>, NoMemory>
    ensures { IfOk result (Gives (Shifts (env_of context.now.env.now) left operand.now count.now)) }
{
    if !is_count(context, count) {
        return Ok(None);
    }
    match constant_of(operand) {
        Some((term, value)) => shift_by(context, alloc, left, operand, term, value, count),
        None => {
            let answer = integer_value(context, alloc, operand)?;
            Ok(answer)
        }
    }
}
