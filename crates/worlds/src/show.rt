//! Terms and methods, written as they are read.
use crate::basic;
use go_base::shared::Shared;
use go_model::types::names::{Sel, TypeName};
use go_model::types::term::{Direction, Field, Method, Signature, Term};
use std::alloc::{AllocError, Global};

/// Writes a word.
pub fn push(out: &mut Vec<u8>, word: &str) -> Result<(), AllocError> {
    out.extend_from_slice(word.as_bytes())
}

/// Writes a number.
pub fn push_number(alloc: Global, out: &mut Vec<u8>, number: u64) -> Result<(), AllocError> {
    let digits = format!(in alloc; "{number}")?;
    push(out, digits.as_str())
}

fn push_count(
    alloc: Global,
    out: &mut Vec<u8>,
    word: &str,
    count: usize,
) -> Result<(), AllocError> {
    push(out, word)?;
    push_number(alloc, out, count as u64)
}

/// Writes the name of a type.
pub fn push_name(out: &mut Vec<u8>, name: &TypeName) -> Result<(), AllocError> {
    if name.path.bytes().is_empty() {
        return out.extend_from_slice(name.name.bytes());
    }
    out.extend_from_slice(name.path.bytes())?;
    push(out, ".")?;
    out.extend_from_slice(name.name.bytes())
}

fn push_sel(out: &mut Vec<u8>, sel: &Sel) -> Result<(), AllocError> {
    if sel.package.bytes().is_empty() {
        return out.extend_from_slice(sel.name.bytes());
    }
    out.extend_from_slice(sel.package.bytes())?;
    push(out, ".")?;
    out.extend_from_slice(sel.name.bytes())
}

fn direction(direction: Direction) -> &'static str {
    match direction {
        Direction::Both => "chan ",
        Direction::SendOnly => "send ",
        Direction::ReceiveOnly => "receive ",
    }
}

/// Writes a term.
#[cycle(show)]
pub fn push_term(alloc: Global, out: &mut Vec<u8>, term: &Term) -> Result<(), AllocError> {
    match term {
        Term::Plain(basic) => push(out, basic::name(*basic)),
        Term::Named(name) => push_name(out, name),
        Term::Pointer(base) => push_boxed(alloc, out, "pointer ", base),
        Term::Slice(element) => push_boxed(alloc, out, "slice ", element),
        Term::Array(length, element) => {
            push(out, "array:")?;
            push_number(alloc, out, *length)?;
            push_boxed(alloc, out, " ", element)
        }
        Term::Map(key, element) => {
            push_boxed(alloc, out, "map ", key)?;
            push_boxed(alloc, out, " ", element)
        }
        Term::Chan(way, element) => push_boxed(alloc, out, direction(*way), element),
        Term::Func(signature) => push_signature(alloc, out, signature),
        Term::Struct(fields) => push_fields(alloc, out, fields.items()),
        Term::Interface(methods) => push_methods(alloc, out, methods.items()),
    }
}

#[cycle(show)]
fn push_boxed(
    alloc: Global,
    out: &mut Vec<u8>,
    word: &str,
    term: &Shared<Term>,
) -> Result<(), AllocError> {
    push(out, word)?;
    push_term(alloc, out, term.value())
}

/// Writes a signature as a function type.
#[cycle(show)]
pub fn push_signature(
    alloc: Global,
    out: &mut Vec<u8>,
    signature: &Signature,
) -> Result<(), AllocError> {
    let word = if signature.variadic {
        "variadic:"
    } else {
        "func:"
    };
    push_count(alloc, out, word, signature.params.items().len())?;
    push_count(alloc, out, ":", signature.results.items().len())?;
    push_terms(alloc, out, signature.params.items())?;
    push_terms(alloc, out, signature.results.items())
}

/// Writes terms, with a blank before each.
#[cycle(show)]
pub fn push_terms(alloc: Global, out: &mut Vec<u8>, terms: &[Term]) -> Result<(), AllocError> {
    for term in terms {
        push(out, " ")?;
        push_term(alloc, out, term)?;
    }
    Ok(())
}

#[cycle(show)]
fn push_fields(alloc: Global, out: &mut Vec<u8>, fields: &[Field]) -> Result<(), AllocError> {
    push_count(alloc, out, "struct:", fields.len())?;
    for field in fields {
        push(
            out,
            if field.embedded {
                " embedded:"
            } else {
                " field:"
            },
        )?;
        push_sel(out, &field.sel)?;
        let digits = hex::encode(alloc, field.tag.bytes())?;
        push(out, ":")?;
        push(out, digits.as_str())?;
        push(out, " ")?;
        push_term(alloc, out, &field.term)?;
    }
    Ok(())
}

#[cycle(show)]
fn push_methods(alloc: Global, out: &mut Vec<u8>, methods: &[Method]) -> Result<(), AllocError> {
    push_count(alloc, out, "interface:", methods.len())?;
    for method in methods {
        push(out, " method:")?;
        push_sel(out, &method.sel)?;
        push(out, " ")?;
        push_signature(alloc, out, &method.signature)?;
    }
    Ok(())
}

/// Writes the methods of a set.
pub fn push_set(alloc: Global, out: &mut Vec<u8>, methods: &[Method]) -> Result<(), AllocError> {
    if methods.is_empty() {
        return push(out, "empty");
    }
    for (at, method) in methods.iter().enumerate() {
        push(out, if at == 0 { "method:" } else { " method:" })?;
        push_sel(out, &method.sel)?;
        push(out, " ")?;
        push_signature(alloc, out, &method.signature)?;
    }
    Ok(())
}
