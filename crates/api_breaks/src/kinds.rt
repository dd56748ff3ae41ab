//! What an object is, and may become.
ghost use Rattle.std.specs.Prelude.{◌≡◌, ◌↔◌, IsTrue};
ghost use Rattle.go_selectors.specs.Answers.{Decides};
ghost use Rattle.api_correspond.specs.Rules.{KeepsKind, KeepsConstant};
ghost use Rattle.api_breaks.specs.Breaks.{sort_of};
ghost use Rattle.api_breaks.specs.inner.Objects.{constant};

use crate::broken::Sort;
use go_base::text::Text;
use go_model::constants::value::Value;
use go_model::types::package::{ConstTerm, Entity};

/// What an object is.
pub(crate) fn sort_of(entity: &Entity) -> Sort
    ensures { result ≡ sort_of entity.now }
{
    match entity {
        Entity::Const(_, _) => Sort::Constant,
        Entity::Var(_) => Sort::Variable,
        Entity::Function(_) => Sort::Function,
        Entity::TypeOf(_) => Sort::Type,
    }
}

/// Whether an object may become another one.
pub(crate) fn keeps_kind(before: &Entity, after: &Entity) -> bool
    ensures { Decides result (KeepsKind before.now after.now) }
{
    match before {
        Entity::Const(_, _) => matches!(after, Entity::Const(_, _)),
        Entity::Var(_) => matches!(after, Entity::Var(_)),
        Entity::Function(_) => matches!(after, Entity::Function(_) | Entity::Var(_)),
        Entity::TypeOf(_) => matches!(after, Entity::TypeOf(_)),
    }
}

pub(crate) fn is_same(left: &Text, right: &Text) -> bool
    ensures { IsTrue result ↔ (left.now ≡ right.now) }
{
    left.bytes() == right.bytes()
}

fn is_same_value(left: &Value, right: &Value) -> bool
    ensures { Decides result (left.now ≡ right.now) }
{
    match left {
        Value::Int(x) => match right {
            Value::Int(y) => *x == *y,
            _ => false,
        },
        Value::Str(x) => match right {
            Value::Str(y) => is_same(x, y),
            _ => false,
        },
        Value::Truth(x) => match right {
            Value::Truth(y) => *x == *y,
            _ => false,
        },
    }
}

fn keeps_value(before: &ConstTerm, old: &Value, after: &ConstTerm, new: &Value) -> bool
    ensures { Decides result (KeepsConstant (constant before.now old.now) (constant after.now new.now)) }
{
    match before {
        ConstTerm::OfTerm(_) => match after {
            ConstTerm::OfTerm(_) => is_same_value(new, old),
            ConstTerm::OfKind(_) => false,
        },
        ConstTerm::OfKind(first) => match after {
            ConstTerm::OfTerm(_) => false,
            ConstTerm::OfKind(second) => {
                if *second != *first {
                    return false;
                }
                is_same_value(new, old)
            }
        },
    }
}

/// Whether a constant keeps what it is; what is none, does.
pub(crate) fn keeps_constant(before: &Entity, after: &Entity) -> bool
    ensures { Decides result (KeepsConstant before.now after.now) }
{
    match before {
        Entity::Const(first, old) => match after {
            Entity::Const(second, new) => keeps_value(first, old, second, new),
            _ => true,
        },
        _ => true,
    }
}
