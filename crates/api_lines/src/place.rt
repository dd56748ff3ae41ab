//! Where a text stands in a list.
ghost use Rattle.std.specs.Prelude.{◌≡◌, ℕ, List as Sequence, take, Decides, IfOk};
ghost use Rattle.std.specs.Ordering.{nat_cmp};
ghost use Rattle.std.specs.Cmp.Lexicographic.{slice_cmp};
ghost use Rattle.std.specs.declared.cmp.Ordering.TheVariants.{Less};
ghost use Rattle.api_lines.specs.Lines.{printed, HasText, AreInOrder};
ghost use Rattle.api_lines.specs.inner.MergedLines.{AreBefore};

use crate::line::Line;
use go_base::memory::NoMemory;
use std::alloc::Global;
use std::cmp::Ordering;

/// Where a text stands in a list.
#[derive(Drop)]
pub(crate) struct Place {
    /// Whether it is there.
    pub found: bool,
    /// How many lines come before every later text.
    pub passed: usize,
}

/// Where the text of the line stands, which comes after the lines that were passed.
pub(crate) fn place_of(
    alloc: Global,
    lines: &[Line],
    passed: usize,
    line: &Line,
) -> Result<Place, NoMemory>
    requires lines { AreInOrder lines.now }
    requires passed { AreBefore (printed line.now) (take passed lines.now) }
    ensures found { IfOk result (λ place. Decides place.found (HasText lines.now (printed line.now))) }
    ensures passed { IfOk result (λ place. (text : Sequence ℕ) → slice_cmp nat_cmp (printed line.now) text ≡ Less → AreBefore text (take place.passed lines.now)) }
{
    for i in passed..lines.len() {
        let other = &lines[i];
        match other.order(alloc, line)? {
            Ordering::Less => {}
            Ordering::Equal => {
                return Ok(Place {
                    found: true,
                    passed: i + 1,
                });
            }
            Ordering::Greater => {
                return Ok(Place {
                    found: false,
                    passed: i,
                });
            }
        }
    }
    Ok(Place {
        found: false,
        passed: lines.len(),
    })
}
