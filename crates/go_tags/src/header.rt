//! The header of a file: its build line and its package clause.
ghost use Rattle.std.specs.Prelude.{◌≡◌, ℕ, List, IfOk, IfErr, Option, option_map, IfSome, codes};
ghost use Rattle.go_base.specs.Comments.{without_mark};
ghost use Rattle.go_model.specs.files.Headers.{IsHeader, IsConstraint, IsClause, build_texts, has_plus_line};
ghost use Rattle.go_model.specs.declared.files.build.Header.{Header};
ghost use Rattle.go_tags.specs.HeaderCauses.{HasCause, ConstraintCause, IsOwnCause};
ghost use Rattle.go_tags.specs.inner.HeaderLines.{Sums};
ghost use Rattle.go_tags.specs.declared.error.TagError.{TagError};

use crate::clause::clause_name;
use crate::error::TagError;
use crate::expression::expression_of;
use crate::lines::{BuildLines, Lines, scan_header};
use go_base::memory::NoMemory;
use go_base::text::Text;
use go_model::files::build::{Constraint, Header};
use std::alloc::Global;

fn without_mark(bytes: &[u8]) -> &[u8]
    ensures { result.now ≡ without_mark bytes.now }
{
    match bytes.strip_prefix(b"\xef\xbb\xbf") {
        Some(rest) => rest,
        None => bytes,
    }
}

fn constraint_of(alloc: Global, lines: Lines<'_>) -> Result<Option<Constraint>, TagError>
    ensures constraint { IfOk result (λ o. (comments : List (List ℕ)) → Sums comments lines.entry → IsConstraint (build_texts comments) (has_plus_line comments) o) }
    ensures cause { IfErr result (λ e. (comments : List (List ℕ)) → Sums comments lines.entry → ConstraintCause comments e) }
{
    match lines.build {
        BuildLines::Several => Err(TagError::Twice),
        BuildLines::One(text) => Ok(Some(expression_of(alloc, text)?)),
        BuildLines::Nothing => {
            if lines.has_plus {
                Err(TagError::PlusBuild)
            } else {
                Ok(None)
            }
        }
    }
}

fn clause_of(alloc: Global, rest: &[u8]) -> Result<Option<Text>, NoMemory>
    ensures { IfOk result (IsClause rest.now) }
{
    match clause_name(rest) {
        Some(name) => Ok(Some(Text::of(alloc, name)?)),
        None => Ok(None),
    }
}

/// The header of a file: the expression of its build line, where it has one, and the name in its
/// package clause, where it begins with white space, comments and such a clause.
///
/// Errors, of which at most one applies: `Twice` exactly where there are two build lines or more,
/// `BadExpression` exactly where there is one and its rest is no build expression, `PlusBuild`
/// exactly where there is a plus line and no build line. `NoMemory` may come at any time.
pub fn header(alloc: Global, bytes: &[u8]) -> Result<Header, TagError>
    ensures header { IfOk result (IsHeader bytes.now) }
    ensures cause { IfErr result (HasCause bytes.now) }
{
    let scan = scan_header(without_mark(bytes));
    let constraint = constraint_of(alloc, scan.lines)?;
    let clause = clause_of(alloc, scan.rest)?;
    Ok(Header { constraint, clause })
}
