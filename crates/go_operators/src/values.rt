//! Of what type or kind an operand is, and what its value is.
ghost use Rattle.std.specs.Prelude.{◌≡◌, ◌&&◌, IfOk, MatchOption};
ghost use Rattle.go_base.specs.Keys.{item_of};
ghost use Rattle.go_model.specs.declared.constants.value.Untyped.TheVariants as untyped;
ghost use Rattle.go_model.specs.declared.constants.value.Value.{Value};
ghost use Rattle.go_model.specs.declared.types.package.ConstTerm.{ConstTerm};
ghost use Rattle.go_rules.specs.Expressions.{is_constant};
ghost use Rattle.go_rules.specs.Operands.{IsOf, IsTyped, IsUntyped, HasKind, constant_of, is_value_mode, is_variable, loose, nil, type_name};
ghost use Rattle.go_rules.specs.Scopes.{env_of};
ghost use Rattle.go_rules.specs.Usability.{UsableAs};
ghost use Rattle.go_usability.specs.go_selectors.Answers.{Decides};
ghost use Rattle.go_usability.specs.Answers.{Gives};
ghost use Rattle.go_operators.specs.inner.Constants.{HasValue};
ghost use Rattle.go_operators.specs.inner.Values.{IsIntegerValue, IsStringValue};

use crate::levels::{basic_under, is_integer, is_string};
use go_base::memory::NoMemory;
use go_model::constants::value::{Kind, Untyped, Value};
use go_model::types::package::ConstTerm;
use go_model::types::term::Term;
use go_rules::operand::{Mode, Operand, Shape};
use go_usability::context::Context;
use go_usability::usable::usable;
use std::alloc::Global;

/// Whether it is the mode of constants.
pub fn is_constant(mode: Mode) -> bool
    ensures { result ≡ is_constant mode }
{
    matches!(mode, Mode::Constant)
}

/// Whether it is a mode of values that aren't constants.
pub fn is_value(mode: Mode) -> bool
    ensures { result ≡ is_value_mode mode }
{
    matches!(mode, Mode::Variable | Mode::Plain | Mode::MapElement)
}

/// Whether it is the mode of addressable values.
pub fn is_variable(mode: Mode) -> bool
    ensures { result ≡ is_variable mode }
{
    matches!(mode, Mode::Variable)
}

/// Whether it is the predeclared `nil`.
pub fn is_nil(operand: &Operand) -> bool
    ensures { Decides result (operand.now ≡ nil) }
{
    matches!((operand.mode, &operand.shape), (Mode::Nil, Shape::Empty))
}

/// The type of a value that has one; None of an untyped value, and of what is no single value.
pub fn type_of(operand: &Operand) -> Option<&Term>
    ensures { Gives (IsTyped operand.now) (item_of result) }
{
    if let Some((of, _)) = constant_of(operand) {
        return match of {
            ConstTerm::OfTerm(term) => Some(term),
            ConstTerm::OfKind(_) => None,
        };
    }
    match &operand.shape {
        Shape::Of(term) => {
            if is_value(operand.mode) {
                Some(term)
            } else {
                None
            }
        }
        Shape::Fixed(_, _) => None,
        Shape::Loose(_) => None,
        Shape::Many(_) => None,
        Shape::OfBuiltin(_) => None,
        Shape::Empty => None,
    }
}

/// The type that is named.
pub fn type_in(operand: &Operand) -> Option<&Term>
    ensures { Gives (λ t. operand.now ≡ type_name t) (item_of result) }
{
    match (operand.mode, &operand.shape) {
        (Mode::TypeName, Shape::Of(term)) => Some(term),
        _ => None,
    }
}

/// The kind of an untyped value; None of any other operand.
pub fn untyped_of(operand: &Operand) -> Option<Untyped>
    ensures { Gives (IsUntyped operand.now) result }
{
    if let Some((of, _)) = constant_of(operand) {
        return match of {
            ConstTerm::OfTerm(_) => None,
            ConstTerm::OfKind(kind) => Some(*kind),
        };
    }
    if is_loose_truth(operand) {
        Some(Untyped::BoolKind)
    } else {
        None
    }
}

/// Whether it is a truth value that is neither constant nor typed.
pub fn is_loose_truth(operand: &Operand) -> bool
    ensures { Decides result (operand.now ≡ loose untyped.BoolKind) }
{
    matches!(
        (operand.mode, &operand.shape),
        (Mode::Plain, Shape::Loose(Untyped::BoolKind))
    )
}

/// Whether two operands are constants.
pub fn are_constant(left: &Operand, right: &Operand) -> bool
    ensures { result ≡ (is_constant left.now.mode && is_constant right.now.mode) }
{
    is_constant(left.mode) && is_constant(right.mode)
}

/// The untyped kind of a value that isn't constant.
pub fn loose_of(operand: &Operand) -> Option<Untyped>
    ensures { Gives (λ k. operand.now ≡ loose k) result }
{
    match (operand.mode, &operand.shape) {
        (Mode::Plain, Shape::Loose(kind)) => Some(*kind),
        _ => None,
    }
}

/// The type or untyped kind of a value, copied.
pub fn term_of(alloc: Global, operand: &Operand) -> Result<Option<ConstTerm>, NoMemory>
    ensures { IfOk result (Gives (IsOf operand.now)) }
{
    if let Some(term) = type_of(operand) {
        return Ok(Some(ConstTerm::OfTerm(term.copy(alloc)?)));
    }
    match untyped_of(operand) {
        Some(kind) => Ok(Some(ConstTerm::OfKind(kind))),
        None => Ok(None),
    }
}

/// The type or kind of a constant, and its value.
pub fn constant_of(operand: &Operand) -> Option<(&ConstTerm, &Value)>
    ensures { MatchOption result ((c : ConstTerm) (v : Value) → operand.now ≡ constant_of c v → ⊥) (λ p. operand.now ≡ constant_of p.0.now p.1.now) }
{
    match (operand.mode, &operand.shape) {
        (Mode::Constant, Shape::Fixed(term, value)) => Some((term, value)),
        _ => None,
    }
}

/// The value of a constant.
pub fn value_in(operand: &Operand) -> Option<&Value>
    ensures { Gives (HasValue operand.now) (item_of result) }
{
    match constant_of(operand) {
        Some((_, value)) => Some(value),
        None => None,
    }
}

/// Whether it is a value of an integer type that isn't constant.
pub fn is_integer_value(context: &Context<'_>, operand: &Operand) -> bool
    ensures { Decides result (IsIntegerValue (env_of context.now.env.now) operand.now) }
{
    if is_constant(operand.mode) {
        return false;
    }
    match type_of(operand) {
        Some(term) => is_integer(context, term),
        None => false,
    }
}

/// Whether it is a value of a string type that isn't constant.
pub fn is_string_value(context: &Context<'_>, operand: &Operand) -> bool
    ensures { Decides result (IsStringValue (env_of context.now.env.now) operand.now) }
{
    if is_constant(operand.mode) {
        return false;
    }
    match type_of(operand) {
        Some(term) => is_string(context, term),
        None => false,
    }
}

/// Whether it may be used as a value of a type.
pub fn is_usable(
    context: &Context<'_>,
    alloc: Global,
    operand: &Operand,
    term: &Term,
) -> Result<bool, NoMemory>
    ensures { IfOk result (λ answer. Decides answer (UsableAs (env_of context.now.env.now) operand.now term.now)) }
{
    usable(context, alloc, operand, term)
}

/// The kind of a type or an untyped kind; None of a type with no basic type underneath.
pub fn kind_of(context: &Context<'_>, term: &ConstTerm) -> Option<Kind>
    ensures { Gives (HasKind (env_of context.now.env.now) term.now) result }
{
    match term {
        ConstTerm::OfTerm(term) => match basic_under(context, term) {
            Some(basic) => Some(Kind::Typed(basic)),
            None => None,
        },
        ConstTerm::OfKind(kind) => Some(Kind::Loose(*kind)),
    }
}
