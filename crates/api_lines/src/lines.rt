//! Lines that are gathered, and then listed in the order of their texts.
ghost use Rattle.std.specs.Prelude.{◌≡◌, [], true, IfOk, OnOk};
ghost use Rattle.std.specs.List.Sorted.{IsPermutation};
ghost use Rattle.go_base.specs.Lists.{Has};
ghost use Rattle.go_base.specs.Growing.{Grows};
ghost use Rattle.api_lines.specs.Lines.{AreInOrder, IsListing};

use crate::line::Line;
use crate::order::{is_before, known_order};
use crate::package_lines::{PackageLines, push};
use crate::printed::by_texts;
use go_base::list::List;
use go_base::memory::NoMemory;
use std::alloc::Global;
use std::cmp::Ordering;
use std::marker::Model;

/// Lines that are gathered.
pub struct Lines {
    all: Vec<Line>,
    // Those of the latest package, which hasn't ended.
    latest: PackageLines,
}

impl Drop for Lines {
    fn drop(self) {
        let Lines { all: _, latest: _ } = self;
    }
}

impl Model for Lines {
    ghost use Rattle.std.specs.Prelude.{◌++◌, List as Sequence};
    ghost use Rattle.api_lines.specs.declared.line.Line.{Line as Feature};

    ghost Value = { Sequence Feature };

    ghost view = { λ l. l.all.items ++ l.latest };
}

// Puts lines in the order of their texts as far as that is known without printing them, in few comparisons where parts of them came in order.
fn sort(lines: &mut Vec<Line>) -> Result<(), NoMemory>
    ensures { OnOk result (IsPermutation lines.old.items lines.new.items) }
{
    lines.sort_by(|line, other| match known_order(line, other) {
        Some(order) => order,
        None => Ordering::Equal,
    })?;
    Ok(())
}

// Whether the lines are known to be in order.
fn are_in_order(lines: &[Line]) -> bool
    ensures { result ≡ true → AreInOrder lines.now }
{
    for i in 1..lines.len() {
        if !is_before(&lines[i - 1], &lines[i]) {
            return false;
        }
    }
    true
}

/// The lines, each text once, in the order of the texts.
pub(crate) fn listed(alloc: Global, mut all: Vec<Line>) -> Result<List<Line>, NoMemory>
    ensures { IfOk result (IsListing (Has all.items)) }
{
    if are_in_order(&all) {
        return Ok(List::from_vec(all));
    }
    sort(&mut all)?;
    if are_in_order(&all) {
        return Ok(List::from_vec(all));
    }
    let lines = by_texts(alloc, all)?;
    Ok(lines)
}

impl Lines {
    /// No line.
    pub fn new(alloc: Global) -> Lines
        ensures { result ≡ [] }
    {
        Lines {
            all: Vec::new(alloc),
            latest: PackageLines::new(alloc),
        }
    }

    /// Adds a line.
    pub fn add(&mut self, alloc: Global, line: Line) -> Result<(), NoMemory>
        ensures { OnOk result (Grows (λ l. line ≡ l) self.old self.new) }
    {
        let _alloc = alloc;
        push(&mut self.all, line)
    }

    /// Adds a line of the package that hasn't ended. Nothing is left to sort where the lines that begin alike come in
    /// order, those of each type that ended in any.
    pub fn add_to_package(&mut self, line: Line) -> Result<(), NoMemory>
        ensures { OnOk result (Grows (λ l. line ≡ l) self.old self.new) }
    {
        self.latest.add(line)
    }

    /// Ends the type whose lines were added to the package last.
    pub fn end_type(&mut self)
        ensures { Grows (λ l. ⊥) self.old self.new }
    {
        self.latest.end_type();
    }

    /// Ends the package whose lines were added last.
    pub fn end_package(&mut self) -> Result<(), NoMemory>
        ensures { OnOk result (self.new ≡ self.old) }
    {
        self.latest.move_behind(&mut self.all)
    }

    /// The lines, each text once, in the order of the texts. No text is printed where the lines of each package came
    /// together, without context and without a text twice, and the packages in the order of their paths.
    pub fn into_list(self, alloc: Global) -> Result<List<Line>, NoMemory>
        ensures { IfOk result (IsListing (Has self)) }
    {
        let Lines {
            mut all,
            mut latest,
        } = self;
        latest.move_behind(&mut all)?;
        listed(alloc, all)
    }
}
