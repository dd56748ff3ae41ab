//! Strings, with their lengths where they are constant.
ghost use Rattle.std.specs.Prelude.{◌≡◌, Some};
ghost use Rattle.go_rules.specs.Expressions.{IsString};
ghost use Rattle.go_rules.specs.Operands.{constant_of};
ghost use Rattle.go_rules.specs.Scopes.{env_of};
ghost use Rattle.go_operators.specs.go_selectors.Answers.{Decides};
ghost use Rattle.go_operators.specs.go_usability.Answers.{Gives};
ghost use Rattle.go_elements.specs.inner.Strings.{IsStringKind};

use go_model::constants::value::Value;
use go_model::types::package::ConstTerm;
use go_operators::go_usability::context::Context;
use go_operators::levels::is_string;
use go_operators::values::{constant_of, is_string_value};
use go_rules::operand::Operand;

// Whether it is a string type, or an untyped kind.
fn is_string_kind(context: &Context<'_>, term: &ConstTerm) -> bool
    ensures { Decides result (IsStringKind (env_of context.now.env.now) term.now) }
{
    match term {
        ConstTerm::OfTerm(term) => is_string(context, term),
        ConstTerm::OfKind(_) => true,
    }
}

// The length of a constant that is a string.
fn constant_length(context: &Context<'_>, term: &ConstTerm, value: &Value) -> Option<u64>
    ensures { Gives (λ n. IsString (env_of context.now.env.now) (constant_of term.now value.now) (Some n)) result }
{
    if !is_string_kind(context, term) {
        return None;
    }
    match value {
        Value::Str(text) => Some(text.bytes().len() as u64),
        Value::Int(_) => None,
        Value::Truth(_) => None,
    }
}

/// The length of a string, where it is constant; None exactly of what is no string.
pub fn string_length(context: &Context<'_>, operand: &Operand) -> Option<Option<u64>>
    ensures { Gives (IsString (env_of context.now.env.now) operand.now) result }
{
    if let Some((term, value)) = constant_of(operand) {
        return match constant_length(context, term, value) {
            Some(length) => Some(Some(length)),
            None => None,
        };
    }
    if is_string_value(context, operand) {
        Some(None)
    } else {
        None
    }
}
