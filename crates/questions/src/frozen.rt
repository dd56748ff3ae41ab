//! Questions on feature lines.
ghost use Rattle.std.specs.Prelude.{Decides};
ghost use Rattle.go_base.specs.Lists.{Each};
ghost use Rattle.api_lines.specs.Merging.{HasNoContext};

use crate::refusal::Refusal;
use crate::words;
use api_frozen::compare::compare;
use api_frozen::error::FrozenError;
use api_frozen::file::read_frozen;
use api_frozen::signed::Signed;
use api_lines::line::Line;
use api_lines::merge::merge;
use go_base::text::Text;
use std::alloc::Global;

const MOST_BYTES: usize = 16_777_216;

fn joined(alloc: Global, texts: &[Text]) -> Result<Vec<u8>, Refusal> {
    let mut out = Vec::new(alloc);
    for text in texts {
        out.extend_from_slice(text.bytes())?;
        out.push(b';')?;
    }
    Ok(out)
}

fn told(alloc: Global, answer: &str) -> Result<Vec<u8>, Refusal> {
    Ok(Vec::from_slice(alloc, answer.as_bytes())?)
}

fn cause(alloc: Global, error: FrozenError) -> Result<Vec<u8>, Refusal> {
    let answer = match error {
        FrozenError::NotUtf8(at) => format!(in alloc; "not UTF-8 at {at}")?,
        FrozenError::NotALine(number) => format!(in alloc; "not a feature line: {number}")?,
        FrozenError::NoMemory => return Err(Refusal::NoMemory),
    };
    told(alloc, answer.as_str())
}

/// The lines of a file of frozen lines, or why it is none.
pub fn read_answer(alloc: Global, digits: &str) -> Result<Vec<u8>, Refusal> {
    let bytes = words::bytes(alloc, digits)?;
    if bytes.len() > MOST_BYTES {
        return Err(Refusal::NotAQuestion);
    }
    match read_frozen(alloc, &bytes) {
        Ok(texts) => joined(alloc, texts.items()),
        Err(error) => cause(alloc, error),
    }
}

fn push_signed(out: &mut Vec<u8>, signed: &Signed) -> Result<(), Refusal> {
    out.push(if signed.lost { b'-' } else { b'+' })?;
    out.extend_from_slice(signed.line.bytes())?;
    out.push(b';')?;
    Ok(())
}

/// What features lost and gained.
pub fn compare_answer(
    alloc: Global,
    features: &str,
    required: &str,
    exceptions: &str,
) -> Result<Vec<u8>, Refusal> {
    let features = words::lines(alloc, features)?;
    let required = words::texts(alloc, required)?;
    let exceptions = words::texts(alloc, exceptions)?;
    let report = compare(
        alloc,
        features.items(),
        required.items(),
        exceptions.items(),
    )?;
    let mut out = Vec::new(alloc);
    for signed in report.lines.items() {
        push_signed(&mut out, signed)?;
    }
    Ok(out)
}

fn has_no_context(line: &Line) -> bool
    ensures { Decides result (HasNoContext line.now) }
{
    line.context.is_none()
}

fn is_plain(lines: &[Line]) -> bool
    ensures { Decides result (Each HasNoContext lines.now) }
{
    for line in lines {
        if !has_no_context(line) {
            return false;
        }
    }
    true
}

/// One list of the lines of platforms, each given as its name, a colon and its lines.
pub fn merge_answer(alloc: Global, parts: &[&str]) -> Result<Vec<u8>, Refusal> {
    let mut platforms = Vec::new(alloc);
    let mut lists = Vec::new(alloc);
    for part in parts {
        let Some((name, lines)) = part.split_once(':') else {
            return Err(Refusal::NotAQuestion);
        };
        platforms.push(words::platform(name)?)?;
        let lines = words::lines(alloc, lines)?;
        if !is_plain(lines.items()) {
            return Err(Refusal::NotAQuestion);
        }
        lists.push(lines)?;
    }
    let count = lists.len();
    if count == 0 || count != platforms.len() {
        return Err(Refusal::NotAQuestion);
    }
    let merged = merge(alloc, &lists, &platforms)?;
    let mut out = Vec::new(alloc);
    for line in merged.items() {
        out.extend_from_slice(line.printed(alloc)?.bytes())?;
        out.push(b';')?;
    }
    Ok(out)
}
