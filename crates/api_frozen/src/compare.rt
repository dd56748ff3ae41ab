//! What features lost and gained against frozen lines.
ghost use Rattle.std.specs.Prelude.{◌≡◌, Decides, IfOk, OnOk};
ghost use Rattle.go_base.specs.Growing.{Grows};
ghost use Rattle.api_frozen.specs.Comparison.{IsReport};
ghost use Rattle.api_frozen.specs.LineShapes.{line_of};
ghost use Rattle.api_frozen.specs.inner.SignedLines.{Drops, IsGain, IsGainOf, IsLoss, IsLossOf, IsMissing};

use crate::parts::parts_of;
use crate::signed::{FrozenReport, Signed, SignedLines};
use api_lines::line::Line;
use api_lines::texts::Texts;
use go_base::memory::NoMemory;
use go_base::text::Text;
use std::alloc::Global;

// A line without context.
fn plain_line(alloc: Global, path: &[u8], rest: &[u8]) -> Result<Text, NoMemory>
    ensures { IfOk result (λ line. line ≡ line_of path.now None rest.now) }
{
    let long = path.len().saturating_add(rest.len()).saturating_add(6);
    let mut line = Vec::with_capacity(alloc, long)?;
    line.extend_from_slice(b"pkg ")?;
    line.extend_from_slice(path)?;
    line.extend_from_slice(b", ")?;
    line.extend_from_slice(rest)?;
    Text::from_vec(alloc, line)
}

// The line without its context, where it is a feature line in one.
fn without_context(alloc: Global, text: &[u8]) -> Result<Option<Text>, NoMemory>
    ensures { IfOk result (Drops text.now) }
{
    let Some(parts) = parts_of(text) else {
        return Ok(None);
    };
    if parts.context.is_none() {
        return Ok(None);
    }
    let plain = plain_line(alloc, parts.path, parts.rest)?;
    Ok(Some(plain))
}

// Whether a line is neither held nor an exception, and isn't held without its context.
fn is_missing(
    alloc: Global,
    held: &Texts,
    exceptions: &Texts,
    text: &Text,
) -> Result<bool, NoMemory>
    ensures { IfOk result (λ missing. Decides missing (IsMissing held.now exceptions.now text.now)) }
{
    if held.has(text) {
        return Ok(false);
    }
    if exceptions.has(text) {
        return Ok(false);
    }
    match without_context(alloc, text.bytes())? {
        None => Ok(true),
        Some(plain) => Ok(!held.has(&plain)),
    }
}

// Adds a required line, where it is lost.
fn add_loss(
    alloc: Global,
    held: &Texts,
    exceptions: &Texts,
    text: &Text,
    lines: &mut SignedLines,
) -> Result<(), NoMemory>
    ensures { OnOk result (Grows (IsLoss held.now exceptions.now text.now) lines.old lines.new) }
{
    if !is_missing(alloc, held, exceptions, text)? {
        return Ok(());
    }
    let line = text.copy()?;
    lines.add(Signed { lost: true, line })?;
    Ok(())
}

fn add_losses(
    alloc: Global,
    held: &Texts,
    exceptions: &Texts,
    required: &[Text],
    lines: &mut SignedLines,
) -> Result<(), NoMemory>
    ensures { OnOk result (Grows (IsLossOf held.now exceptions.now required.now) lines.old lines.new) }
{
    for text in required {
        add_loss(alloc, held, exceptions, text, lines)?;
    }
    Ok(())
}

// Adds the text of a feature, where it isn't required.
fn add_gain(
    alloc: Global,
    required: &Texts,
    feature: &Line,
    lines: &mut SignedLines,
) -> Result<(), NoMemory>
    ensures { OnOk result (Grows (IsGain required.now feature.now) lines.old lines.new) }
{
    let line = feature.printed(alloc)?;
    if required.has(&line) {
        return Ok(());
    }
    lines.add(Signed { lost: false, line })?;
    Ok(())
}

fn add_gains(
    alloc: Global,
    required: &Texts,
    features: &[Line],
    lines: &mut SignedLines,
) -> Result<(), NoMemory>
    ensures { OnOk result (Grows (IsGainOf required.now features.now) lines.old lines.new) }
{
    for feature in features {
        add_gain(alloc, required, feature, lines)?;
    }
    Ok(())
}

/// What the features lost and gained against required lines: a required line is lost where no feature has its text,
/// the exceptions don't hold it, and no feature is the line without its context; the text of a feature that isn't
/// required is new. Each line once, in the order of bytes.
pub fn compare(
    alloc: Global,
    features: &[Line],
    required: &[Text],
    exceptions: &[Text],
) -> Result<FrozenReport, NoMemory>
    ensures { IfOk result (λ report. IsReport features.now required.now exceptions.now report.lines) }
{
    let held = Texts::of_lines(alloc, features)?;
    let excepted = Texts::of(alloc, exceptions)?;
    let asked = Texts::of(alloc, required)?;
    let mut lines = SignedLines::new(alloc);
    add_losses(alloc, &held, &excepted, required, &mut lines)?;
    add_gains(alloc, &asked, features, &mut lines)?;
    let lines = lines.into_list(alloc)?;
    Ok(FrozenReport { lines })
}
