//! A case, and its answer.
ghost use Rattle.std.specs.Prelude.{IfOk, IfErr};
ghost use Rattle.go_tags.specs.HeaderCauses.{HasCause};
ghost use Rattle.tags.specs.Decisions.{IsDecision};

use frames::escape::unescaped;
use go_model::files::build::Header;
use go_model::files::platform::Platform;
use go_tags::choice::chosen;
use go_tags::error::TagError;
use go_tags::header::header;
use go_tags::platforms::platform;
use std::alloc::{AllocError, Global};

/// The header of a file, and whether the platform chooses the file. A file whose name the platform
/// leaves out has no header here.
#[derive(Drop)]
struct Decision {
    header: Option<Header>,
    is_chosen: bool,
}

fn decide(alloc: Global, platform: Platform, name: &[u8], text: &[u8]) -> Result<Decision, TagError>
    ensures decision { IfOk result (IsDecision platform name.now text.now) }
    ensures cause { IfErr result (HasCause text.now) }
{
    if !chosen(platform, name, None) {
        return Ok(Decision {
            header: None,
            is_chosen: false,
        });
    }
    let found = header(alloc, text)?;
    let is_chosen = chosen(platform, name, found.constraint.as_ref());
    Ok(Decision {
        header: Some(found),
        is_chosen,
    })
}

fn shown(alloc: Global, decision: &Decision) -> Result<String, AllocError> {
    let word = if decision.is_chosen {
        "chosen"
    } else {
        "left out"
    };
    if let Some(found) = &decision.header
        && let Some(clause) = &found.clause
        && let Ok(name) = str::from_utf8(clause.bytes())
    {
        return format!(in alloc; "{word} {name}");
    }
    format!(in alloc; "{word} -")
}

/// The answer to a line of input.
pub fn answer(alloc: Global, line: &str) -> Result<String, AllocError> {
    let Some((system, rest)) = line.split_once(' ') else {
        return format!(in alloc; "not a case");
    };
    let Some((name, text)) = rest.split_once(' ') else {
        return format!(in alloc; "not a case");
    };
    let Some(known) = platform(&unescaped(alloc, system.as_bytes())?) else {
        return format!(in alloc; "not a case");
    };
    let name = unescaped(alloc, name.as_bytes())?;
    let text = unescaped(alloc, text.as_bytes())?;
    match decide(alloc, known, &name, &text) {
        Ok(decision) => shown(alloc, &decision),
        Err(error) => format!(in alloc; "refused {error}"),
    }
}
