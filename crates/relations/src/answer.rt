//! The answer to a line.
use crate::table::Table;
use go_base::shared::Shared;
use go_model::types::found::{FieldFound, Found, MethodFound};
use go_model::types::names::TypeName;
use go_model::types::term::Term;
use go_selectors::identity::identical;
use go_selectors::method_sets::method_set_in;
use go_selectors::selectors::find_in;
use go_types::assignability::assignable_in;
use go_types::comparison::comparable_in;
use go_types::conversions::convertible_in;
use go_types::implementing::implements_in;
use std::alloc::Global;
use worlds::objects::defined;
use worlds::read::{Stack, sel, split, type_name};
use worlds::refusal::Refusal;
use worlds::show::{push_name, push_number, push_set, push_signature, push_term};

fn two(
    alloc: Global,
    stack: &mut Stack,
    text: &str,
) -> Result<(Shared<Term>, Shared<Term>), Refusal> {
    stack.read_all(alloc, text)?;
    let first = stack.boxed(alloc)?;
    let second = stack.boxed(alloc)?;
    stack.end()?;
    Ok((first, second))
}

fn truth(alloc: Global, truth: bool) -> Result<Vec<u8>, Refusal> {
    let word = if truth { "true" } else { "false" };
    Ok(Vec::from_slice(alloc, word.as_bytes())?)
}

fn way(through: bool) -> &'static str {
    if through { " through " } else { " direct " }
}

fn field(alloc: Global, found: &FieldFound) -> Result<Vec<u8>, Refusal> {
    let mut out = Vec::from_slice(alloc, b"field ")?;
    push_number(alloc, &mut out, u64::from(found.depth))?;
    out.extend_from_slice(way(found.through_pointer).as_bytes())?;
    push_term(alloc, &mut out, &found.term)?;
    Ok(out)
}

fn push_owner(out: &mut Vec<u8>, owner: &Option<TypeName>) -> Result<(), Refusal> {
    match owner {
        Some(name) => push_name(out, name)?,
        None => out.extend_from_slice(b"interface")?,
    }
    out.push(b' ')?;
    Ok(())
}

fn method(alloc: Global, found: &MethodFound) -> Result<Vec<u8>, Refusal> {
    let receiver = if found.pointer_receiver {
        "on-pointer "
    } else {
        "on-value "
    };
    let mut out = Vec::from_slice(alloc, b"method ")?;
    push_number(alloc, &mut out, u64::from(found.depth))?;
    out.extend_from_slice(way(found.through_pointer).as_bytes())?;
    out.extend_from_slice(receiver.as_bytes())?;
    push_owner(&mut out, &found.owner)?;
    push_signature(alloc, &mut out, &found.signature)?;
    Ok(out)
}

fn found(alloc: Global, found: &Found) -> Result<Vec<u8>, Refusal> {
    match found {
        Found::FieldAt(found) => field(alloc, found),
        Found::MethodAt(found) => method(alloc, found),
        Found::Ambiguous => Ok(Vec::from_slice(alloc, b"ambiguous")?),
        Found::Nothing => Ok(Vec::from_slice(alloc, b"nothing")?),
    }
}

fn search(alloc: Global, table: &Table, term: &Term, word: &str) -> Result<Found, Refusal> {
    let selector = sel(alloc, word)?;
    Ok(find_in(alloc, table, term, &selector)?)
}

fn find_answer(
    alloc: Global,
    table: &Table,
    stack: &mut Stack,
    text: &str,
) -> Result<Vec<u8>, Refusal> {
    let (word, rest) = split(text)?;
    let term = stack.one(alloc, rest)?;
    let answer = search(alloc, table, term.value(), word)?;
    found(alloc, &answer)
}

fn set_answer(
    alloc: Global,
    table: &Table,
    stack: &mut Stack,
    text: &str,
) -> Result<Vec<u8>, Refusal> {
    let term = stack.one(alloc, text)?;
    let methods = method_set_in(alloc, table, term.value())?;
    let mut out = Vec::new(alloc);
    push_set(alloc, &mut out, methods.items())?;
    Ok(out)
}

fn comparable_answer(
    alloc: Global,
    table: &Table,
    stack: &mut Stack,
    text: &str,
) -> Result<Vec<u8>, Refusal> {
    let term = stack.one(alloc, text)?;
    let answer = comparable_in(alloc, table, term.value())?;
    truth(alloc, answer)
}

fn identical_answer(alloc: Global, stack: &mut Stack, text: &str) -> Result<Vec<u8>, Refusal> {
    let (left, right) = two(alloc, stack, text)?;
    truth(alloc, identical(left.value(), right.value()))
}

fn implements_answer(
    alloc: Global,
    table: &Table,
    stack: &mut Stack,
    text: &str,
) -> Result<Vec<u8>, Refusal> {
    let (term, interface) = two(alloc, stack, text)?;
    let answer = implements_in(alloc, table, term.value(), interface.value())?;
    truth(alloc, answer)
}

fn flag(word: &str) -> Result<bool, Refusal> {
    match word {
        "plain" => Ok(false),
        "profile" => Ok(true),
        _ => Err(Refusal::WrongLine),
    }
}

fn assignable_answer(
    alloc: Global,
    table: &Table,
    stack: &mut Stack,
    text: &str,
) -> Result<Vec<u8>, Refusal> {
    let (word, rest) = split(text)?;
    let (from, to) = two(alloc, stack, rest)?;
    let answer = assignable_in(alloc, table, from.value(), to.value(), flag(word)?)?;
    truth(alloc, answer)
}

fn convertible_answer(
    alloc: Global,
    table: &Table,
    stack: &mut Stack,
    text: &str,
) -> Result<Vec<u8>, Refusal> {
    let (word, rest) = split(text)?;
    let (from, to) = two(alloc, stack, rest)?;
    let answer = convertible_in(alloc, table, from.value(), to.value(), flag(word)?)?;
    truth(alloc, answer)
}

fn add_type(
    alloc: Global,
    table: &mut Table,
    stack: &mut Stack,
    text: &str,
) -> Result<(), Refusal> {
    let (word, rest) = split(text)?;
    let (_, name) = match word.rsplit_once('.') {
        Some(parts) => parts,
        None => return Err(Refusal::WrongLine),
    };
    let defined = defined(alloc, stack, name, rest)?;
    table.add(type_name(alloc, word)?, defined)
}

fn told(
    alloc: Global,
    table: &Table,
    stack: &mut Stack,
    question: &str,
    text: &str,
) -> Result<Vec<u8>, Refusal> {
    match question {
        "identical" => identical_answer(alloc, stack, text),
        "find" => find_answer(alloc, table, stack, text),
        "method_set" => set_answer(alloc, table, stack, text),
        "implements" => implements_answer(alloc, table, stack, text),
        "comparable" => comparable_answer(alloc, table, stack, text),
        "assignable" => assignable_answer(alloc, table, stack, text),
        "convertible" => convertible_answer(alloc, table, stack, text),
        _ => Err(Refusal::WrongLine),
    }
}

/// The answer to a line, with its line's end; nothing where the line defines a type, which the table then
/// has. A comment is `#` and a blank, and text.
pub fn answer(
    alloc: Global,
    table: &mut Table,
    stack: &mut Stack,
    line: &str,
) -> Result<Vec<u8>, Refusal> {
    let (question, text) = split(line)?;
    if question.starts_with('#') {
        let mut out = Vec::from_slice(alloc, line.as_bytes())?;
        out.push(b'\n')?;
        return Ok(out);
    }
    if question == "type" {
        add_type(alloc, table, stack, text)?;
        return Ok(Vec::new(alloc));
    }
    let mut out = told(alloc, table, stack, question, text)?;
    out.push(b'\n')?;
    Ok(out)
}
