//! Constants, by their words.
use crate::basic;
use crate::read::{Stack, bytes};
use crate::refusal::Refusal;
use crate::show::{push, push_term};
use go_model::constants::value::{Untyped, Value};
use go_model::types::package::ConstTerm;
use std::alloc::{AllocError, Global};

fn untyped(word: &str) -> Option<Untyped> {
    match word {
        "untyped-int" => Some(Untyped::IntKind),
        "untyped-rune" => Some(Untyped::RuneKind),
        "untyped-string" => Some(Untyped::StrKind),
        "untyped-bool" => Some(Untyped::BoolKind),
        _ => None,
    }
}

/// The word for an untyped kind.
pub fn untyped_name(kind: Untyped) -> &'static str {
    match kind {
        Untyped::IntKind => "untyped-int",
        Untyped::RuneKind => "untyped-rune",
        Untyped::StrKind => "untyped-string",
        Untyped::BoolKind => "untyped-bool",
    }
}

/// What a constant is of, by its words.
pub fn const_term(alloc: Global, stack: &mut Stack, words: &str) -> Result<ConstTerm, Refusal> {
    if let Some(kind) = untyped(words) {
        return Ok(ConstTerm::OfKind(kind));
    }
    let term = stack.one(alloc, words)?;
    Ok(ConstTerm::OfTerm(term.value().copy(alloc)?))
}

/// The value that a word is.
pub fn value(alloc: Global, word: &str) -> Result<Value, Refusal> {
    if let Some(digits) = word.strip_prefix("text:") {
        return Ok(Value::Str(bytes(alloc, digits)?));
    }
    match word {
        "true" => Ok(Value::Truth(true)),
        "false" => Ok(Value::Truth(false)),
        _ => match word.parse::<i128>() {
            Ok(number) => Ok(Value::Int(number)),
            Err(_) => Err(Refusal::WrongLine),
        },
    }
}

/// Writes what a constant is of.
pub fn push_const_term(
    alloc: Global,
    out: &mut Vec<u8>,
    term: &ConstTerm,
) -> Result<(), AllocError> {
    match term {
        ConstTerm::OfTerm(term) => push_term(alloc, out, term),
        ConstTerm::OfKind(kind) => push(out, untyped_name(*kind)),
    }
}

/// Writes a value.
pub fn push_value(alloc: Global, out: &mut Vec<u8>, value: &Value) -> Result<(), AllocError> {
    match value {
        Value::Int(number) => {
            let digits = format!(in alloc; "{number}")?;
            push(out, digits.as_str())
        }
        Value::Str(text) => {
            let digits = hex::encode(alloc, text.bytes())?;
            push(out, "text:")?;
            push(out, digits.as_str())
        }
        Value::Truth(truth) => push(out, if *truth { "true" } else { "false" }),
    }
}
