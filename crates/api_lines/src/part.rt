//! The lines of a list in two parts: those whose text another list has, and the others.
ghost use Rattle.std.specs.Prelude.{◌≡◌, ℕ, List as Sequence, take, Decides, IfOk, OnOk};
ghost use Rattle.std.specs.Ordering.{nat_cmp};
ghost use Rattle.std.specs.Cmp.Lexicographic.{slice_cmp};
ghost use Rattle.std.specs.declared.cmp.Ordering.TheVariants.{Less};
ghost use Rattle.go_base.specs.Lists.{Has};
ghost use Rattle.go_base.specs.Growing.{Grows};
ghost use Rattle.api_lines.specs.Lines.{printed, HasText, AreInOrder};
ghost use Rattle.api_lines.specs.inner.MergedLines.{AreBefore, IsOwn, AreExactly};

use crate::line::Line;
use crate::lines::Lines;
use crate::place::place_of;
use go_base::list::List;
use go_base::memory::NoMemory;
use go_model::files::platform::Platform;
use std::alloc::Global;

/// The lines whose text a line of the others has, in the same order. The other ones are added on the platform.
pub(crate) fn part(
    alloc: Global,
    lines: List<Line>,
    others: &[Line],
    platform: Platform,
    merged: &mut Lines,
) -> Result<List<Line>, NoMemory>
    requires lines { AreInOrder lines }
    requires others { AreInOrder others.now }
    ensures common { IfOk result (AreExactly (λ l. Has lines l × HasText others.now (printed l))) }
    ensures own { OnOk result (Grows (IsOwn (HasText others.now) platform lines) merged.old merged.new) }
{
    let mut common = List::new(alloc);
    let mut passed = 0;
    for line in lines.into_vec() {
        let place = place_of(alloc, others, passed, &line)?;
        passed = place.passed;
        if place.found {
            common.push(line)?;
        } else {
            merged.add(alloc, line.on(platform))?;
        }
    }
    Ok(common)
}
