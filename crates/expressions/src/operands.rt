//! Operands and meanings, by their words.
use go_model::constants::value::Value;
use go_model::types::package::{ConstTerm, Entity};
use go_model::types::term::Term;
use go_rules::meaning::Meaning;
use go_rules::operand::{Mode, Operand, Shape};
use go_rules::predeclared::Predeclared;
use std::alloc::{AllocError, Global};
use worlds::constants::{push_const_term, push_value, untyped_name};
use worlds::show::{push, push_signature, push_term, push_terms};

fn mode_name(mode: Mode) -> &'static str {
    match mode {
        Mode::NoValue => "no-value",
        Mode::TypeName => "type",
        Mode::Constant => "constant",
        Mode::Variable => "variable",
        Mode::Plain => "value",
        Mode::MapElement => "map-element",
        Mode::Nil => "nil",
        Mode::Builtin => "builtin",
        Mode::Tuple => "tuple",
    }
}

fn told(alloc: Global, word: &str, term: &Term) -> Result<Vec<u8>, AllocError> {
    let mut out = Vec::from_slice(alloc, word.as_bytes())?;
    push(&mut out, " ")?;
    push_term(alloc, &mut out, term)?;
    Ok(out)
}

fn constant(alloc: Global, term: &ConstTerm, value: &Value) -> Result<Vec<u8>, AllocError> {
    let mut out = Vec::from_slice(alloc, b"constant ")?;
    push_const_term(alloc, &mut out, term)?;
    push(&mut out, " ")?;
    push_value(alloc, &mut out, value)?;
    Ok(out)
}

fn predeclared(alloc: Global, word: &str, predeclared: Predeclared) -> Result<Vec<u8>, AllocError> {
    Ok(format!(in alloc; "{word} {predeclared:?}")?.into_bytes())
}

fn many(alloc: Global, terms: &[Term]) -> Result<Vec<u8>, AllocError> {
    let mut out = Vec::from_slice(alloc, b"tuple")?;
    push_terms(alloc, &mut out, terms)?;
    Ok(out)
}

/// The words for an operand.
pub fn operand(alloc: Global, operand: &Operand) -> Result<Vec<u8>, AllocError> {
    let word = mode_name(operand.mode);
    match &operand.shape {
        Shape::Of(term) => told(alloc, word, term),
        Shape::Fixed(term, value) => constant(alloc, term, value),
        Shape::Loose(kind) => Ok(format!(in alloc; "{word} {}", untyped_name(*kind))?.into_bytes()),
        Shape::Many(terms) => many(alloc, terms.items()),
        Shape::OfBuiltin(function) => predeclared(alloc, word, *function),
        Shape::Empty => Vec::from_slice(alloc, word.as_bytes()),
    }
}

fn entity(alloc: Global, entity: &Entity) -> Result<Vec<u8>, AllocError> {
    match entity {
        Entity::Const(term, value) => constant(alloc, term, value),
        Entity::Var(term) => told(alloc, "variable", term),
        Entity::Function(signature) => {
            let mut out = Vec::from_slice(alloc, b"value ")?;
            push_signature(alloc, &mut out, signature)?;
            Ok(out)
        }
        Entity::TypeOf(term) => told(alloc, "type", term),
    }
}

/// The words for what a name means.
pub fn meaning(alloc: Global, meaning: Option<Meaning<'_>>) -> Result<Vec<u8>, AllocError> {
    match meaning {
        None => Vec::from_slice(alloc, b"nothing"),
        Some(Meaning::Local(term)) => told(alloc, "variable", term),
        Some(Meaning::LocalConst(term, value)) => constant(alloc, term, value),
        Some(Meaning::Object(object)) => entity(alloc, object),
        Some(Meaning::Import(path)) => {
            let mut out = Vec::from_slice(alloc, b"import ")?;
            out.extend_from_slice(path.bytes())?;
            Ok(out)
        }
        Some(Meaning::Universe(name)) => predeclared(alloc, "universe", name),
    }
}
