//! What files ask of a platform.
ghost use Rattle.std.specs.Prelude.{◌≡◌, ℕ, List, IfOk, OnOk};
ghost use Rattle.go_file_choices.specs.inner.Questions.{AsksAlso, IsConstraintOf, is_answered_alike, is_same};
ghost use Rattle.go_tags.specs.HeaderCauses.{HasCause};

use go_base::list::List;
use go_base::memory::NoMemory;
use go_model::files::build::{Constraint, Header};
use go_model::files::platform::Platform;
use go_model::files::tree::TreeFile;
use go_tags::choice::chosen;
use go_tags::error::TagError;
use go_tags::header::header;
use go_tags::laws::one_header;
use std::alloc::Global;

/// A file asks whether its name is allowed, and whether the expression of its header chooses it, where its header has one.
#[derive(Drop)]
pub(crate) struct Question<'a> {
    pub(crate) file: &'a TreeFile,
    pub(crate) constraint: Option<Constraint>,
}

fn without_header(error: TagError) -> Result<Option<Constraint>, NoMemory>
    ensures { IfOk result (λ constraint. (bytes : List ℕ) → HasCause bytes error → IsConstraintOf bytes constraint) }
{
    one_header();
    match error {
        TagError::BadExpression => Ok(None),
        TagError::Twice => Ok(None),
        TagError::PlusBuild => Ok(None),
        TagError::NoMemory => Err(NoMemory),
    }
}

fn constraint_in(header: Header) -> Option<Constraint>
    ensures { result ≡ header.constraint }
{
    let Header {
        constraint,
        clause: _,
    } = header;
    constraint
}

fn constraint_of(alloc: Global, bytes: &[u8]) -> Result<Option<Constraint>, NoMemory>
    ensures { IfOk result (IsConstraintOf bytes.now) }
{
    one_header();
    match header(alloc, bytes) {
        Err(error) => without_header(error),
        Ok(header) => Ok(constraint_in(header)),
    }
}

/// The questions of these files are added.
pub(crate) fn ask<'a>(
    alloc: Global,
    questions: &mut List<Question<'a>>,
    files: &'a [TreeFile],
) -> Result<(), NoMemory>
    ensures { OnOk result (AsksAlso files.now questions.old questions.new) }
{
    for file in files {
        let constraint = constraint_of(alloc, file.bytes.bytes())?;
        questions.push(Question { file, constraint })?;
    }
    Ok(())
}

fn is_same(a: bool, b: bool) -> bool
    ensures { result ≡ is_same a b }
{
    if a { b } else { !b }
}

/// Whether both platforms answer the same.
pub(crate) fn is_answered_alike(p: Platform, q: Platform, question: &Question<'_>) -> bool
    ensures { result ≡ is_answered_alike p q question.now }
{
    let name = question.file.name.bytes();
    if !is_same(chosen(p, name, None), chosen(q, name, None)) {
        return false;
    }
    match &question.constraint {
        None => true,
        Some(constraint) => is_same(
            chosen(p, name, Some(constraint)),
            chosen(q, name, Some(constraint)),
        ),
    }
}
