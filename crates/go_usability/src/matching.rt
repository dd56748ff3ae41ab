//! What two operands that stand together are both of.
ghost use Rattle.std.specs.Prelude.{◌≡◌, IfOk};
ghost use Rattle.go_rules.specs.Operands.{IsUntyped};
ghost use Rattle.go_rules.specs.Scopes.{env_of};
ghost use Rattle.go_rules.specs.Usability.{Match};
ghost use Rattle.go_usability.specs.Answers.{Gives};
ghost use Rattle.go_usability.specs.inner.Matches.{BesideType, OfKinds, OfTypes, OfUse, joined_kind};

use crate::context::Context;
use crate::operands::{kind_of, type_of};
use crate::usable::usable;
use go_base::memory::NoMemory;
use go_model::constants::value::Untyped;
use go_model::types::package::ConstTerm;
use go_model::types::term::Term;
use go_rules::operand::Operand;
use go_types::go_selectors::identity::identical;
use std::alloc::Global;

// The untyped kind of values of two kinds that stand together.
fn joined(left: Untyped, right: Untyped) -> Option<Untyped>
    ensures { result ≡ joined_kind left right }
{
    match left {
        Untyped::IntKind => match right {
            Untyped::IntKind => Some(Untyped::IntKind),
            Untyped::RuneKind => Some(Untyped::RuneKind),
            _ => None,
        },
        Untyped::RuneKind => match right {
            Untyped::IntKind => Some(Untyped::RuneKind),
            Untyped::RuneKind => Some(Untyped::RuneKind),
            _ => None,
        },
        Untyped::StrKind => match right {
            Untyped::StrKind => Some(Untyped::StrKind),
            _ => None,
        },
        Untyped::BoolKind => match right {
            Untyped::BoolKind => Some(Untyped::BoolKind),
            _ => None,
        },
    }
}

// Of two values of types.
fn of_types(alloc: Global, left: &Term, right: &Term) -> Result<Option<ConstTerm>, NoMemory>
    ensures { IfOk result (OfTypes left.now right.now) }
{
    if !identical(left, right) {
        return Ok(None);
    }
    let term = left.copy(alloc)?;
    Ok(Some(ConstTerm::OfTerm(term)))
}

// Of a value of an untyped kind and one of a type.
fn of_use<'a>(
    context: &Context<'a>,
    alloc: Global,
    operand: &'a Operand,
    term: &'a Term,
) -> Result<Option<ConstTerm>, NoMemory>
    ensures { IfOk result (OfUse (env_of context.now.env.now) operand.now term.now) }
{
    if !usable(context, alloc, operand, term)? {
        return Ok(None);
    }
    let term = term.copy(alloc)?;
    Ok(Some(ConstTerm::OfTerm(term)))
}

// Of values of untyped kinds.
fn of_kinds(left: Untyped, right: Untyped) -> Option<ConstTerm>
    ensures { OfKinds left right result }
{
    match joined(left, right) {
        Some(kind) => Some(ConstTerm::OfKind(kind)),
        None => None,
    }
}

// Of a value of a type, and an operand.
fn beside_type<'a>(
    context: &Context<'a>,
    alloc: Global,
    term: &'a Term,
    right: &'a Operand,
) -> Result<Option<ConstTerm>, NoMemory>
    ensures { IfOk result (BesideType (env_of context.now.env.now) term.now right.now) }
{
    match type_of(right) {
        Some(other) => {
            let both = of_types(alloc, term, other)?;
            Ok(both)
        }
        None => match kind_of(right) {
            Some(_kind) => {
                let used = of_use(context, alloc, right, term)?;
                Ok(used)
            }
            None => Ok(None),
        },
    }
}

// Of a value of an untyped kind, and an operand.
fn beside_kind<'a>(
    context: &Context<'a>,
    alloc: Global,
    left: &'a Operand,
    kind: Untyped,
    right: &'a Operand,
) -> Result<Option<ConstTerm>, NoMemory>
    requires { IsUntyped left.now kind }
    ensures { IfOk result (Gives (Match (env_of context.now.env.now) left.now right.now)) }
{
    match type_of(right) {
        Some(term) => {
            let used = of_use(context, alloc, left, term)?;
            Ok(used)
        }
        None => match kind_of(right) {
            Some(other) => Ok(of_kinds(kind, other)),
            None => Ok(None),
        },
    }
}

/// The type or untyped kind of two operands that stand together: that of both, where they are of identical
/// types; the type of the one where the other, of an untyped kind, may be used as a value of it; of two untyped
/// kinds their own, where they are the same, or rune for an integer and a rune; None where they may not stand
/// together.
pub fn matching<'a>(
    context: &Context<'a>,
    alloc: Global,
    left: &'a Operand,
    right: &'a Operand,
) -> Result<Option<ConstTerm>, NoMemory>
    ensures { IfOk result (Gives (Match (env_of context.now.env.now) left.now right.now)) }
{
    match type_of(left) {
        Some(term) => {
            let found = beside_type(context, alloc, term, right)?;
            Ok(found)
        }
        None => match kind_of(left) {
            Some(kind) => {
                let found = beside_kind(context, alloc, left, kind, right)?;
                Ok(found)
            }
            None => Ok(None),
        },
    }
}
