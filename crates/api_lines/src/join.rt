//! One list of the lines of two.
ghost use Rattle.std.specs.Prelude.{IfOk};
ghost use Rattle.api_lines.specs.Lines.{AreInOrder, IsListing, IsOfEither};
ghost use Rattle.api_lines.specs.inner.Joins.{IsTakenFirst};

use crate::line::Line;
use go_base::list::List;
use go_base::memory::NoMemory;
use std::alloc::Global;
use std::cmp::Ordering;
use std::collections::VecDeque;

// The line with the first text of both lists, where there is one. Where both have that text, both lose it.
fn take_first(
    alloc: Global,
    first: &mut VecDeque<Line>,
    second: &mut VecDeque<Line>,
) -> Result<Option<Line>, NoMemory>
    requires first { AreInOrder first.old.items }
    requires second { AreInOrder second.old.items }
    ensures { IfOk result (IsTakenFirst first.old.items second.old.items first.new.items second.new.items) }
{
    if first.is_empty() {
        return Ok(second.pop_front());
    }
    if second.is_empty() {
        return Ok(first.pop_front());
    }
    match first[0].order(alloc, &second[0])? {
        Ordering::Less => Ok(first.pop_front()),
        Ordering::Equal => {
            let _same = second.pop_front();
            Ok(first.pop_front())
        }
        Ordering::Greater => Ok(second.pop_front()),
    }
}

/// The lines of both lists in the order of their texts, each text once.
pub fn joined(alloc: Global, first: List<Line>, second: List<Line>) -> Result<List<Line>, NoMemory>
    requires first { AreInOrder first }
    requires second { AreInOrder second }
    ensures { IfOk result (IsListing (IsOfEither first second)) }
{
    let mut first = VecDeque::from(first.into_vec());
    let mut second = VecDeque::from(second.into_vec());
    let long = first.len().saturating_add(second.len());
    let mut all = Vec::with_capacity(alloc, long)?;
    for _ in 0..usize::MAX {
        match take_first(alloc, &mut first, &mut second)? {
            None => return Ok(List::from_vec(all)),
            Some(line) => all.push(line)?,
        }
    }
    Err(NoMemory)
}
