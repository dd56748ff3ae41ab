//! What the lines of a package declare.
use crate::constants::{const_term, value};
use crate::read::{Stack, split, text};
use crate::refusal::Refusal;
use go_base::text::Text;
use go_model::types::names::TypeName;
use go_model::types::package::{Defined, Entity};
use go_model::types::term::Term;
use std::alloc::Global;

fn constant(alloc: Global, stack: &mut Stack, words: &str) -> Result<Entity, Refusal> {
    let (word, of) = split(words)?;
    let value = value(alloc, word)?;
    Ok(Entity::Const(const_term(alloc, stack, of)?, value))
}

fn function(alloc: Global, stack: &mut Stack, words: &str) -> Result<Entity, Refusal> {
    let term = stack.one(alloc, words)?;
    match term.value().copy(alloc)?.into_signature() {
        Some(signature) => Ok(Entity::Function(signature)),
        None => Err(Refusal::WrongLine),
    }
}

/// What a name denotes, by the word for its kind and the words after the name.
pub fn entity(
    alloc: Global,
    stack: &mut Stack,
    kind: &str,
    words: &str,
) -> Result<Entity, Refusal> {
    match kind {
        "const" => constant(alloc, stack, words),
        "var" => Ok(Entity::Var(stack.one(alloc, words)?.value().copy(alloc)?)),
        "func" => function(alloc, stack, words),
        "alias" => Ok(Entity::TypeOf(stack.one(alloc, words)?.value().copy(alloc)?)),
        _ => Err(Refusal::WrongLine),
    }
}

/// What the name of a defined type denotes.
pub fn type_entity(alloc: Global, path: &[u8], name: &str) -> Result<Entity, Refusal> {
    let path = Text::of(alloc, path)?;
    let name = text(alloc, name)?;
    Ok(Entity::TypeOf(Term::Named(TypeName { path, name })))
}

/// The defined type of this name, by the words after the name.
pub fn defined(
    alloc: Global,
    stack: &mut Stack,
    name: &str,
    words: &str,
) -> Result<Defined, Refusal> {
    stack.read_all(alloc, words)?;
    let underlying = stack.boxed(alloc)?;
    if let Term::Named(_) = underlying.value() {
        return Err(Refusal::WrongLine);
    }
    let methods = stack.declared(alloc)?;
    stack.end()?;
    Ok(Defined {
        name: text(alloc, name)?,
        underlying: underlying.value().copy(alloc)?,
        methods,
    })
}
