//! What names denote.
ghost use Rattle.std.specs.Prelude.{◌≡◌, ℕ, List, IfOk, Some};
ghost use Rattle.go_base.specs.Keys.{item_of};
ghost use Rattle.go_operations.specs.inner.Imported.{DeclaresImported};
ghost use Rattle.go_rules.specs.Expressions.{Denotes, DenotesImported, seen_operand};
ghost use Rattle.go_rules.specs.Meanings.{seen_of};
ghost use Rattle.go_rules.specs.Operands.{denoted};
ghost use Rattle.go_rules.specs.declared.seen.Seen.TheVariants as seen;
ghost use Rattle.go_operators.specs.go_selectors.Answers.{Decides};
ghost use Rattle.go_operators.specs.go_usability.Answers.{Gives};
ghost use Rattle.go_type_terms.specs.Answers.{Tells, env_in};

use crate::constants::constant;
use crate::universe::predeclared_operand;
use go_base::memory::NoMemory;
use go_model::types::package::Entity;
use go_model::types::term::Term;
use go_operators::go_usability::context::Context;
use go_operators::operands::{plain, type_name, variable};
use go_rules::blank::is_blank;
use go_rules::exports::is_exported;
use go_rules::meaning::Meaning;
use go_rules::operand::Operand;
use go_syntax::name::Name;
use go_type_terms::error::ExprError;
use std::alloc::Global;

// What an object of a package denotes.
fn denoted(alloc: Global, entity: &Entity) -> Result<Operand, NoMemory>
    ensures { IfOk result (λ operand. operand ≡ denoted entity.now) }
{
    match entity {
        Entity::Const(of, value) => constant(alloc, of, value),
        Entity::Var(term) => Ok(variable(term.copy(alloc)?)),
        Entity::Function(signature) => Ok(plain(Term::Func(signature.copy(alloc)?))),
        Entity::TypeOf(term) => Ok(type_name(term.copy(alloc)?)),
    }
}

// What a meaning denotes; None of an imported package by itself.
fn seen_operand(
    alloc: Global,
    iota: Option<u64>,
    meaning: Meaning<'_>,
) -> Result<Option<Operand>, NoMemory>
    ensures { IfOk result (λ operand. operand ≡ seen_operand iota (seen_of meaning.entry)) }
{
    match meaning {
        Meaning::Local(term) => Ok(Some(variable(term.copy(alloc)?))),
        Meaning::LocalConst(of, value) => Ok(Some(constant(alloc, of, value)?)),
        Meaning::Object(entity) => Ok(Some(denoted(alloc, entity)?)),
        Meaning::Import(_) => Ok(None),
        Meaning::Universe(predeclared) => predeclared_operand(alloc, iota, predeclared),
    }
}

/// What a name denotes. `Untyped` of the blank name, of a name without a meaning, and of that of an imported
/// package.
pub fn named(context: &Context<'_>, alloc: Global, name: &Name) -> Result<Operand, ExprError>
    ensures { Tells (Denotes (env_in context.now) name.now) result }
{
    if is_blank(name.text.bytes()) {
        return Err(ExprError::Untyped);
    }
    let meaning = match context.env.meaning(&name.text) {
        Some(meaning) => meaning,
        None => return Err(ExprError::Untyped),
    };
    match seen_operand(alloc, context.env.iota(), meaning)? {
        Some(operand) => Ok(operand),
        None => Err(ExprError::Untyped),
    }
}

/// Whether a name means an imported package.
pub fn names_import(context: &Context<'_>, name: &Name) -> bool
    ensures { Decides result ((path : List ℕ) × ((env_in context.now).meaning name.now.text ≡ Some (seen.Import path))) }
{
    match context.env.meaning(&name.text) {
        Some(Meaning::Import(_)) => true,
        _ => false,
    }
}

// The object that a name of an imported package means.
fn imported_object<'a>(context: &Context<'a>, package: &Name, name: &Name) -> Option<&'a Entity>
    ensures { Gives (DeclaresImported (env_in context.now) «package».now name.now) (item_of result) }
{
    if is_blank(package.text.bytes()) || !is_exported(name.text.bytes()) {
        return None;
    }
    match context.env.meaning(&package.text) {
        Some(Meaning::Import(path)) => context.env.object(path.bytes(), name.text.bytes()),
        _ => None,
    }
}

/// What a name of an imported package denotes. `Untyped` where no package is imported under the first name, or
/// it exports no object of the second.
pub fn imported(
    context: &Context<'_>,
    alloc: Global,
    package: &Name,
    name: &Name,
) -> Result<Operand, ExprError>
    ensures { Tells (DenotesImported (env_in context.now) «package».now name.now) result }
{
    match imported_object(context, package, name) {
        Some(entity) => Ok(denoted(alloc, entity)?),
        None => Err(ExprError::Untyped),
    }
}
