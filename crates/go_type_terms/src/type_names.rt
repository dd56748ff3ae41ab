//! Names of types.
ghost use Rattle.std.specs.Prelude.{◌≡◌};
ghost use Rattle.go_rules.specs.Expressions.{Denotes, DenotesImported, IsTypeName};
ghost use Rattle.go_rules.specs.Operands.{denoted, type_name};
ghost use Rattle.go_rules.specs.Universe.{predeclared_operand};
ghost use Rattle.go_type_terms.specs.Answers.{Tells, env_in};

use crate::error::ExprError;
use crate::universe::predeclared_type;
use go_model::types::package::Entity;
use go_model::types::term::Term;
use go_rules::blank::is_blank;
use go_rules::exports::is_exported;
use go_rules::meaning::Meaning;
use go_rules::predeclared::Predeclared;
use go_syntax::name::{Name, QualifiedName};
use go_usability::context::Context;
use std::alloc::Global;

// The type that an object of a package is, where it is one.
fn type_of(alloc: Global, entity: &Entity) -> Result<Term, ExprError>
    ensures { Tells (λ t. denoted entity.now ≡ type_name t) result }
{
    match entity {
        Entity::TypeOf(term) => Ok(term.copy(alloc)?),
        Entity::Const(_, _) => Err(ExprError::Untyped),
        Entity::Var(_) => Err(ExprError::Untyped),
        Entity::Function(_) => Err(ExprError::Untyped),
    }
}

// The type that a predeclared name stands for.
fn type_of_universe(alloc: Global, iota: Option<u64>, name: Predeclared) -> Result<Term, ExprError>
    ensures { Tells (λ t. predeclared_operand iota name ≡ Some (type_name t)) result }
{
    match predeclared_type(alloc, name)? {
        Some(term) => Ok(term),
        None => Err(ExprError::Untyped),
    }
}

// The type that a name stands for.
fn named(context: &Context<'_>, alloc: Global, name: &Name) -> Result<Term, ExprError>
    ensures { Tells (λ t. Denotes (env_in context.now) name.now (type_name t)) result }
{
    if is_blank(name.text.bytes()) {
        return Err(ExprError::Untyped);
    }
    match context.env.meaning(&name.text) {
        Some(Meaning::Object(entity)) => type_of(alloc, entity),
        Some(Meaning::Universe(predeclared)) => {
            type_of_universe(alloc, context.env.iota(), predeclared)
        }
        Some(Meaning::Local(_)) => Err(ExprError::Untyped),
        Some(Meaning::LocalConst(_, _)) => Err(ExprError::Untyped),
        Some(Meaning::Import(_)) => Err(ExprError::Untyped),
        None => Err(ExprError::Untyped),
    }
}

// The type that a name of an imported package stands for.
fn imported(
    context: &Context<'_>,
    alloc: Global,
    package: &Name,
    name: &Name,
) -> Result<Term, ExprError>
    ensures { Tells (λ t. DenotesImported (env_in context.now) «package».now name.now (type_name t)) result }
{
    if is_blank(package.text.bytes()) || !is_exported(name.text.bytes()) {
        return Err(ExprError::Untyped);
    }
    match context.env.meaning(&package.text) {
        Some(Meaning::Import(path)) => match context.env.object(path.bytes(), name.text.bytes()) {
            Some(entity) => type_of(alloc, entity),
            None => Err(ExprError::Untyped),
        },
        _ => Err(ExprError::Untyped),
    }
}

/// The type that a type's name stands for.
pub(crate) fn type_named(
    context: &Context<'_>,
    alloc: Global,
    name: &QualifiedName,
) -> Result<Term, ExprError>
    ensures { Tells (IsTypeName (env_in context.now) name.now) result }
{
    match &name.qualifier {
        None => named(context, alloc, &name.name),
        Some(package) => imported(context, alloc, package, &name.name),
    }
}
