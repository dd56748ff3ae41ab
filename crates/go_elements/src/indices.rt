//! Indices and sizes: whole numbers from 0, constant or not.
ghost use Rattle.std.specs.Prelude.{◌≡◌, ◌<◌, ◌^◌, ℕ, MatchOption, Some, pos};
ghost use Rattle.go_base.specs.Keys.{item_of};
ghost use Rattle.go_model.specs.declared.constants.value.Value.TheVariants as v;
ghost use Rattle.go_rules.specs.Expressions.{Below, IsIndex};
ghost use Rattle.go_rules.specs.Operands.{constant_of};
ghost use Rattle.go_rules.specs.Scopes.{env_of};
ghost use Rattle.go_operators.specs.go_selectors.Answers.{Decides};
ghost use Rattle.go_operators.specs.go_usability.Answers.{Gives};
ghost use Rattle.go_elements.specs.SliceExpressions.{IsOptionalIndex};
ghost use Rattle.go_elements.specs.inner.Indices.{IsInt, IsIntegerKind};

use go_model::constants::value::{Basic, Value};
use go_model::types::package::ConstTerm;
use go_operators::go_const::representation::representable;
use go_operators::go_usability::context::Context;
use go_operators::levels::is_integer;
use go_operators::values::{constant_of, is_integer_value};
use go_rules::operand::Operand;

// The number from 0, where it fits into 64 bits.
fn natural(value: &Value) -> Option<u64>
    ensures { MatchOption result ((n : ℕ) → n < 2 ^ 64 → value.now ≡ v.Int (pos n) → ⊥) (λ n. value.now ≡ v.Int (pos n)) }
{
    match value {
        Value::Int(number) => {
            if *number < 0 || *number > u64::MAX as i128 {
                None
            } else {
                Some(*number as u64)
            }
        }
        _ => None,
    }
}

// The whole number from 0 that is representable in int.
fn int_value(context: &Context<'_>, value: &Value) -> Option<u64>
    ensures { Gives (IsInt (env_of context.now.env.now) value.now) result }
{
    if !representable(value, Basic::Int, context.env.bits()) {
        return None;
    }
    natural(value)
}

// Whether it is an integer type, or an untyped kind.
fn is_integer_kind(context: &Context<'_>, term: &ConstTerm) -> bool
    ensures { Decides result (IsIntegerKind (env_of context.now.env.now) term.now) }
{
    match term {
        ConstTerm::OfTerm(term) => is_integer(context, term),
        ConstTerm::OfKind(_) => true,
    }
}

// The value of a constant that is an index.
fn constant_index(context: &Context<'_>, term: &ConstTerm, value: &Value) -> Option<u64>
    ensures { Gives (λ n. IsIndex (env_of context.now.env.now) (constant_of term.now value.now) (Some n)) result }
{
    if !is_integer_kind(context, term) {
        return None;
    }
    int_value(context, value)
}

/// The value of an index, where it is constant. It is None exactly where the operand is neither a value of an
/// integer type nor, constant, a whole number from 0 that is representable in int, of an integer type or untyped.
pub fn index_of(context: &Context<'_>, operand: &Operand) -> Option<Option<u64>>
    ensures { Gives (IsIndex (env_of context.now.env.now) operand.now) result }
{
    if let Some((term, value)) = constant_of(operand) {
        return match constant_index(context, term, value) {
            Some(number) => Some(Some(number)),
            None => None,
        };
    }
    if is_integer_value(context, operand) {
        Some(None)
    } else {
        None
    }
}

/// Whether a constant index is below a constant length.
pub fn is_below(index: Option<u64>, length: Option<u64>) -> bool
    ensures { Decides result (Below index length) }
{
    match (index, length) {
        (Some(index), Some(length)) => index < length,
        _ => true,
    }
}

/// The value of an index that may be left out, where it is constant; None of what can't be an index.
pub(crate) fn optional_index(
    context: &Context<'_>,
    operand: Option<&Operand>,
) -> Option<Option<u64>>
    ensures { Gives (IsOptionalIndex (env_of context.now.env.now) (item_of operand.entry)) result }
{
    match operand {
        Some(operand) => index_of(context, operand),
        None => Some(None),
    }
}
