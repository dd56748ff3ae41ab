//! One list for several platforms, of lists of lines that are in the order of their texts.
ghost use Rattle.std.specs.Prelude.{◌≡◌, ◌<◌, ◌∷◌, length, IfOk, OnOk, slice_index_or};
ghost use Rattle.std.specs.List.{zip};
ghost use Rattle.go_base.specs.Lists.{Has, Each};
ghost use Rattle.go_base.specs.Growing.{Grows};
ghost use Rattle.api_lines.specs.Lines.{printed, AreInOrder, IsListing};
ghost use Rattle.api_lines.specs.Merging.{HasNoContext, IsMerged};
ghost use Rattle.api_lines.specs.inner.MergedLines.{IsOwn, IsOwnOfSome, IsTextOnAll, AreExactly};

use crate::line::Line;
use crate::lines::Lines;
use crate::part::part;
use go_base::list::List;
use go_base::memory::NoMemory;
use go_model::files::platform::Platform;
use std::alloc::Global;

// The lines of the first list whose texts all others have. Its other ones are added on its platform.
fn common_lines(
    alloc: Global,
    first: List<Line>,
    others: &[List<Line>],
    platform: Platform,
    merged: &mut Lines,
) -> Result<List<Line>, NoMemory>
    requires first { AreInOrder first }
    requires others { Each AreInOrder others.now }
    ensures common { IfOk result (AreExactly (λ l. Has first l × IsTextOnAll others.now (printed l))) }
    ensures own { OnOk result (Grows (IsOwn (IsTextOnAll others.now) platform first) merged.old merged.new) }
{
    let mut common = first;
    for lines in others {
        common = part(alloc, common, lines.items(), platform, merged)?;
    }
    Ok(common)
}

pub(crate) fn platform_at(platforms: &[Platform], at: usize) -> Platform
    requires { at < length platforms.now }
    ensures { result ≡ slice_index_or platforms.now at result }
{
    platforms[at]
}

// Adds the lines of each list that aren't common, on the list's platform.
fn add_own(
    alloc: Global,
    lists: List<List<Line>>,
    platforms: &[Platform],
    common: &[Line],
    merged: &mut Lines,
) -> Result<(), NoMemory>
    requires same { length lists ≡ length platforms.now }
    requires lists { Each AreInOrder lists }
    requires common { AreInOrder common.now }
    ensures { OnOk result (Grows (IsOwnOfSome common.now (zip lists platforms.now)) merged.old merged.new) }
{
    let mut i = 0;
    for lines in lists.into_vec() {
        let platform = platform_at(platforms, i);
        let _common = part(alloc, lines, common, platform, merged)?;
        i += 1;
    }
    Ok(())
}

fn add_all(alloc: Global, lines: List<Line>, merged: &mut Lines) -> Result<(), NoMemory>
    ensures { OnOk result (Grows (Has lines) merged.old merged.new) }
{
    for line in lines.into_vec() {
        merged.add(alloc, line)?;
    }
    Ok(())
}

// The merged lines of a first list and of others.
fn merge_several(
    alloc: Global,
    first: List<Line>,
    others: List<List<Line>>,
    platform: Platform,
    platforms: &[Platform],
) -> Result<List<Line>, NoMemory>
    requires same { length others ≡ length platforms.now }
    requires plain { Each (Each HasNoContext) (first ∷ others) }
    requires order { Each AreInOrder (first ∷ others) }
    ensures { IfOk result (IsListing (IsMerged (first ∷ others) (platform ∷ platforms.now))) }
{
    let mut merged = Lines::new(alloc);
    let common = common_lines(alloc, first, others.items(), platform, &mut merged)?;
    add_own(alloc, others, platforms, common.items(), &mut merged)?;
    add_all(alloc, common, &mut merged)?;
    let merged = merged.into_list(alloc)?;
    Ok(merged)
}

/// One list for several platforms, each of which has its list of lines, in the order of the platforms: a line
/// whose text is in all lists stands once, without context, and every other one in the context of each platform
/// whose list has it. Each text stands once, in the order of bytes. A single list is given back as it is.
pub(crate) fn merge_ordered(
    alloc: Global,
    lists: List<List<Line>>,
    platforms: &[Platform],
) -> Result<List<Line>, NoMemory>
    requires some { 0 < length lists }
    requires same { length lists ≡ length platforms.now }
    requires plain { Each (Each HasNoContext) lists }
    requires order { Each AreInOrder lists }
    ensures { IfOk result (IsListing (IsMerged lists platforms.now)) }
{
    let mut others = lists.into_vec();
    let first = others.remove(0);
    if others.is_empty() {
        return Ok(first);
    }
    let others = List::from_vec(others);
    let platform = platform_at(platforms, 0);
    merge_several(alloc, first, others, platform, &platforms[1..])
}
