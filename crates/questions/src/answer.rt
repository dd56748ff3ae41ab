//! A question, and its answer.
use crate::refusal::Refusal;
use crate::{frozen, requests, units, words};
use api_advice::advice::{AdviceError, advise};
use go_rules::operators::operator_allows;
use go_rules::predeclared::universe;
use std::alloc::{AllocError, Global};

fn advise_answer(alloc: Global, version: &str, class: &str) -> Result<Vec<u8>, Refusal> {
    let class = words::class(class)?;
    let Some(version) = words::version(alloc, version)? else {
        return Ok(Vec::from_slice(alloc, b"not a version")?);
    };
    let answer = match advise(&version, class) {
        Ok(it) => format!(in alloc; "{}.{}.{}", it.major, it.minor, it.patch)?,
        Err(AdviceError::NotRelease) => format!(in alloc; "not a release")?,
        Err(AdviceError::NoVersion) => format!(in alloc; "no version")?,
    };
    Ok(answer.into_bytes())
}

fn universe_answer(alloc: Global, name: &str) -> Result<Vec<u8>, Refusal> {
    let answer = match universe(name.as_bytes()) {
        Some(predeclared) => format!(in alloc; "{predeclared:?}")?,
        None => format!(in alloc; "none")?,
    };
    Ok(answer.into_bytes())
}

fn operator_answer(alloc: Global, op: &str, kind: &str) -> Result<Vec<u8>, Refusal> {
    let allowed = operator_allows(words::operator(op)?, words::kind(kind)?);
    Ok(format!(in alloc; "{allowed}")?.into_bytes())
}

fn found(alloc: Global, parts: &[&str]) -> Result<Vec<u8>, Refusal> {
    match parts {
        ["advise", version, class] => advise_answer(alloc, version, class),
        ["read_words", words @ ..] => requests::words_answer(alloc, words),
        ["read_frozen", digits] => frozen::read_answer(alloc, digits),
        ["compare", features, required, exceptions] => frozen::compare_answer(
            alloc, features, required, exceptions,
        ),
        ["merge", lists @ ..] => frozen::merge_answer(alloc, lists),
        ["assumed_name", path] => units::name_answer(alloc, path),
        ["is_under", path, root] => units::under_answer(alloc, path, root),
        ["is_internal_use", from, importer, path] => units::internal_answer(
            alloc, from, importer, path,
        ),
        ["canonical_order", needs @ ..] => units::order_answer(alloc, needs),
        ["least_on_cycle", needs @ ..] => units::cycle_answer(alloc, needs),
        ["universe", name] => universe_answer(alloc, name),
        ["operator_allows", op, kind] => operator_answer(alloc, op, kind),
        _ => Err(Refusal::NotAQuestion),
    }
}

/// The answer to a line of input.
pub fn answer(alloc: Global, line: &str) -> Result<Vec<u8>, AllocError> {
    let mut parts = Vec::new(alloc);
    for part in line.split('|') {
        parts.push(part)?;
    }
    match found(alloc, &parts) {
        Ok(told) => Ok(told),
        Err(Refusal::NotAQuestion) => Vec::from_slice(alloc, b"not a question"),
        Err(Refusal::NoMemory) => Err(AllocError),
    }
}
