//! The types of variables that are given values.
ghost use Rattle.go_assignments.specs.inner.Sides.{HasType};
ghost use Rattle.go_entries.specs.inner.Variables.{HasConstantDefault, HasDefault, IsDefaultType};
ghost use Rattle.go_selectors.specs.Answers.{Decides};
ghost use Rattle.go_type_terms.specs.Answers.{Tells, env_in};
ghost use Rattle.go_typings.specs.Initializers.{TypeOfValue};
ghost use Rattle.go_usability.specs.Answers.{Gives};
ghost use Rattle.std.specs.Prelude.{IfOk};

use go_base::memory::NoMemory;
use go_model::constants::value::Untyped;
use go_model::types::package::ConstTerm;
use go_model::types::term::Term;
use go_operators::values::{constant_of, is_loose_truth, type_of};
use go_rules::operand::Operand;
use go_type_terms::error::ExprError;
use go_usability::context::Context;
use go_usability::operands::default_basic;
use go_usability::usable::default_holds;
use std::alloc::Global;

// The untyped kind of a constant whose default type can hold it.
fn constant_kind(context: &Context<'_>, operand: &Operand) -> Option<Untyped>
    ensures { Gives (HasConstantDefault (env_in context.now) operand.now) result }
{
    match constant_of(operand) {
        Some((ConstTerm::OfKind(kind), value)) => {
            if default_holds(context, *kind, value) {
                Some(*kind)
            } else {
                None
            }
        }
        Some((ConstTerm::OfTerm(_), _)) => None,
        None => None,
    }
}

// The untyped kind of a value whose default type can hold it.
fn default_kind(context: &Context<'_>, operand: &Operand) -> Option<Untyped>
    ensures { Gives (HasDefault (env_in context.now) operand.now) result }
{
    if is_loose_truth(operand) {
        return Some(Untyped::BoolKind);
    }
    constant_kind(context, operand)
}

// The type of a variable that is given a value without a type.
fn default_type(context: &Context<'_>, operand: &Operand) -> Result<Term, ExprError>
    ensures { Tells (IsDefaultType (env_in context.now) operand.now) result }
{
    match default_kind(context, operand) {
        Some(kind) => Ok(Term::Plain(default_basic(kind))),
        None => Err(ExprError::Untyped),
    }
}

/// The type of a variable that is given a value; `Untyped` exactly where it has none.
pub fn value_type(
    context: &Context<'_>,
    alloc: Global,
    operand: &Operand,
) -> Result<Term, ExprError>
    ensures { Tells (TypeOfValue (env_in context.now) operand.now) result }
{
    match type_of(operand) {
        Some(term) => Ok(term.copy(alloc)?),
        None => default_type(context, operand),
    }
}

/// The type of a variable that is given a value, where it has one.
pub(crate) fn some_type(
    context: &Context<'_>,
    alloc: Global,
    operand: &Operand,
) -> Result<Option<Term>, NoMemory>
    ensures { IfOk result (Gives (TypeOfValue (env_in context.now) operand.now)) }
{
    match value_type(context, alloc, operand) {
        Ok(term) => Ok(Some(term)),
        Err(ExprError::Untyped) => Ok(None),
        Err(ExprError::NoMemory) => Err(NoMemory),
    }
}

/// Whether a variable that is given a value has a type.
pub(crate) fn has_type(
    context: &Context<'_>,
    alloc: Global,
    operand: &Operand,
) -> Result<bool, NoMemory>
    ensures { IfOk result (λ answer. Decides answer (HasType (env_in context.now) operand.now)) }
{
    let term = some_type(context, alloc, operand)?;
    Ok(term.is_some())
}
