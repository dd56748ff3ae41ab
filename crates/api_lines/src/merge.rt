//! One list of lines for several platforms, of lists in any order.
ghost use Rattle.std.specs.Prelude.{◌≡◌, ◌<◌, [], length, Decides, IfOk, OnOk};
ghost use Rattle.std.specs.List.{zip};
ghost use Rattle.go_base.specs.Lists.{Has, Each};
ghost use Rattle.go_base.specs.Growing.{Grows};
ghost use Rattle.api_lines.specs.Lines.{HasText, IsListing};
ghost use Rattle.api_lines.specs.Merging.{HasNoContext, IsMerged};
ghost use Rattle.api_lines.specs.inner.AddedLines.{AreTexts, Fits, IsAdded, IsAddedFrom, IsAddedFromSome};
ghost use Rattle.api_lines.specs.inner.MergedLines.{IsTextOnAll};

use crate::copies::{line_in, lines_copied};
use crate::line::Line;
use crate::lines::{Lines, listed};
use crate::ordered::platform_at;
use crate::texts::Texts;
use go_base::list::List;
use go_base::memory::NoMemory;
use go_base::text::Text;
use go_model::files::platform::Platform;
use std::alloc::Global;

fn texts_of_each(alloc: Global, lists: &[List<Line>]) -> Result<Vec<Texts>, NoMemory>
    ensures { IfOk result (λ all. AreTexts lists.now all.items) }
{
    let mut all = Vec::with_capacity(alloc, lists.len())?;
    for lines in lists {
        all.push(Texts::of_lines(alloc, lines.items())?)?;
    }
    Ok(all)
}

fn is_in_all(all: &[Texts], text: &Text) -> bool
    ensures { Decides result (Each (λ texts. Has texts text.now) all.now) }
{
    for texts in all {
        if !texts.has(text) {
            return false;
        }
    }
    true
}

// Adds the text, where all these sets have it.
fn add_common(all: &[Texts], text: Text, common: &mut Texts) -> Result<(), NoMemory>
    ensures { OnOk result (Grows (λ member. Each (λ texts. Has texts text) all.now × (text ≡ member)) common.old common.new) }
{
    if !is_in_all(all, &text) {
        return Ok(());
    }
    common.add(text)?;
    Ok(())
}

// The texts that all lists have, of which the first is given apart.
fn common_texts(alloc: Global, first: &[Line], others: &[List<Line>]) -> Result<Texts, NoMemory>
    ensures { IfOk result (λ common. Grows (λ text. HasText first.now text × IsTextOnAll others.now text) [] common) }
{
    let all = texts_of_each(alloc, others)?;
    let mut common = Texts::new(alloc);
    for line in first {
        add_common(&all, line.printed(alloc)?, &mut common)?;
    }
    Ok(common)
}

// A copy of a line of each text.
fn each_text_once(alloc: Global, lines: &[Line]) -> Result<List<Line>, NoMemory>
    ensures { IfOk result (IsListing (Has lines.now)) }
{
    let copies = lines_copied(alloc, lines)?;
    let once = listed(alloc, copies.into_vec())?;
    Ok(once)
}

// Whether a text goes without context, for which it has to be common, or in one, for which it mustn't.
fn fits(common: &Texts, context: Option<Platform>, text: &Text) -> bool
    ensures { Decides result (Fits common.now context text.now) }
{
    let is_common = common.has(text);
    match context {
        None => is_common,
        Some(_) => !is_common,
    }
}

// Adds the line in a context, where its text isn't common, or without one, where it is.
fn add_line(
    alloc: Global,
    common: &Texts,
    context: Option<Platform>,
    line: &Line,
    merged: &mut Lines,
) -> Result<(), NoMemory>
    ensures { OnOk result (Grows (IsAdded common.now context line.now) merged.old merged.new) }
{
    let text = line.printed(alloc)?;
    if !fits(common, context, &text) {
        return Ok(());
    }
    merged.add(alloc, line_in(context, line)?)?;
    Ok(())
}

fn add_lines(
    alloc: Global,
    common: &Texts,
    context: Option<Platform>,
    lines: &[Line],
    merged: &mut Lines,
) -> Result<(), NoMemory>
    ensures { OnOk result (Grows (IsAddedFrom common.now context lines.now) merged.old merged.new) }
{
    for line in lines {
        add_line(alloc, common, context, line, merged)?;
    }
    Ok(())
}

// Adds the lines of each list that aren't common, on the list's platform.
fn add_own_of_each(
    alloc: Global,
    common: &Texts,
    lists: &[List<Line>],
    platforms: &[Platform],
    merged: &mut Lines,
) -> Result<(), NoMemory>
    requires { length lists.now ≡ length platforms.now }
    ensures { OnOk result (Grows (IsAddedFromSome common.now (zip lists.now platforms.now)) merged.old merged.new) }
{
    for i in 0..lists.len() {
        let lines = &lists[i];
        let platform = platform_at(platforms, i);
        add_lines(alloc, common, Some(platform), lines.items(), merged)?;
    }
    Ok(())
}

/// One list for several platforms, each of which has its list of lines, in the order of the platforms: a line
/// whose text is in all lists stands once, without context, and every other one in the context of each platform
/// whose list has it. Each text stands once, in the order of bytes. The lists may be in any order, and have lines twice.
pub fn merge(
    alloc: Global,
    lists: &[List<Line>],
    platforms: &[Platform],
) -> Result<List<Line>, NoMemory>
    requires some { 0 < length lists.now }
    requires same { length lists.now ≡ length platforms.now }
    requires plain { Each (Each HasNoContext) lists.now }
    ensures { IfOk result (IsListing (IsMerged lists.now platforms.now)) }
{
    let first = lists[0].items();
    let once = each_text_once(alloc, first)?;
    let common = common_texts(alloc, once.items(), &lists[1..])?;
    let mut merged = Lines::new(alloc);
    add_lines(alloc, &common, None, first, &mut merged)?;
    add_own_of_each(alloc, &common, lists, platforms, &mut merged)?;
    let merged = merged.into_list(alloc)?;
    Ok(merged)
}
