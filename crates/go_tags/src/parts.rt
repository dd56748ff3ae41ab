//! The text of a build expression, cut into signs and tags.
ghost use Rattle.std.specs.Prelude.{◌≡◌, ◌≢◌, ◌<◌, ◌≤◌, length, IfOk, IfErr, OnOk, None, [], ◌++◌};
ghost use Rattle.go_model.specs.files.BuildConstraints.{AreParts};
ghost use Rattle.go_tags.specs.inner.ExpressionParts.{is_next, sign_at, onto, BeginsStep, PartsCause};

use crate::error::TagError;
use go_base::characters::{Alphabet, run_len};
use go_base::list::List;
use go_base::memory::NoMemory;
use go_base::text::Text;
use go_model::files::build::ConstraintPart;
use std::alloc::Global;

/// What stands at the start of a text: a part, or a blank, and its length in bytes.
#[derive(Drop)]
struct Step {
    part: Option<ConstraintPart>,
    len: usize,
}

fn is_next(byte: u8, text: &[u8]) -> bool
    ensures { result ≡ is_next byte text.now }
{
    match text.first() {
        Some(next) => *next == byte,
        None => false,
    }
}

fn sign_at(text: &[u8]) -> Option<Step>
    ensures { result ≡ sign_at text.now }
{
    let (first, rest) = text.split_first()?;
    match *first {
        b' ' | b'\t' => Some(Step { part: None, len: 1 }),
        b'!' => Some(Step {
            part: Some(ConstraintPart::Not),
            len: 1,
        }),
        b'(' => Some(Step {
            part: Some(ConstraintPart::Open),
            len: 1,
        }),
        b')' => Some(Step {
            part: Some(ConstraintPart::Close),
            len: 1,
        }),
        b'|' if is_next(b'|', rest) => Some(Step {
            part: Some(ConstraintPart::Or),
            len: 2,
        }),
        b'&' if is_next(b'&', rest) => Some(Step {
            part: Some(ConstraintPart::And),
            len: 2,
        }),
        _ => None,
    }
}

fn first_tag(alloc: Global, text: &[u8]) -> Result<Step, TagError>
    requires sign { sign_at text.now ≡ None }
    requires some { text.now ≢ [] }
    ensures step { IfOk result (BeginsStep text.now) }
    ensures cause { IfErr result (PartsCause text.now) }
{
    let len = run_len(Alphabet::Tag, text);
    if len == 0 {
        return Err(TagError::BadExpression);
    }
    let tag = Text::of(alloc, &text[..len])?;
    Ok(Step {
        part: Some(ConstraintPart::Tag(tag)),
        len,
    })
}

fn first_step(alloc: Global, text: &[u8]) -> Result<Step, TagError>
    requires { text.now ≢ [] }
    ensures step { IfOk result (BeginsStep text.now) }
    ensures cause { IfErr result (PartsCause text.now) }
{
    match sign_at(text) {
        Some(step) => Ok(step),
        None => first_tag(alloc, text),
    }
}

fn push_part(parts: &mut List<ConstraintPart>, part: Option<ConstraintPart>) -> Result<(), NoMemory>
    ensures { OnOk result (parts.new ≡ parts.old ++ onto part []) }
{
    match part {
        Some(part) => parts.push(part),
        None => Ok(()),
    }
}

/// The parts of the text. Errors: `BadExpression` exactly where it has none.
pub fn parts_of(alloc: Global, text: &[u8]) -> Result<List<ConstraintPart>, TagError>
    ensures parts { IfOk result (AreParts text.now) }
    ensures cause { IfErr result (PartsCause text.now) }
{
    let mut parts = List::new(alloc);
    let mut at = 0;
    while at < text.len() {
        let Step { part, len } = first_step(alloc, &text[at..])?;
        push_part(&mut parts, part)?;
        at += len;
    }
    Ok(parts)
}
