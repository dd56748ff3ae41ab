//! The lines of two lists in three parts: those that both have, and the others of each.
ghost use Rattle.std.specs.Prelude.{◌≡◌, Decides, IfOk};
ghost use Rattle.go_base.specs.Lists.{Has};
ghost use Rattle.api_lines.specs.Lines.{AreInOrder, IsOfEither};
ghost use Rattle.api_lines.specs.declared.line.Line.{Line as Feature};
ghost use Rattle.api_lines.specs.inner.MergedLines.{AreExactly};
ghost use Rattle.api_lines.specs.inner.Shares.{IsIn, IsNotIn};
ghost use Rattle.api_lines.specs.inner.Splits.{IsSplitFirst, of_both, of_first, of_second};

use crate::line::Line;
use go_base::list::List;
use go_base::memory::NoMemory;
use go_model::files::platform::Platform;
use std::alloc::Global;
use std::cmp::Ordering;
use std::collections::VecDeque;

/// The lines of two lists in three parts.
pub(crate) struct Parts {
    /// Those that both have.
    pub shared: List<Line>,
    /// The other ones of the first list.
    pub leaving: List<Line>,
    /// The other ones of the second list.
    pub rest: List<Line>,
}

impl Drop for Parts {
    fn drop(self) {
        let Parts {
            shared: _,
            leaving: _,
            rest: _,
        } = self;
    }
}

impl Parts {
    /// The parts, moved out.
    pub(crate) fn into_all(self) -> (List<Line>, List<Line>, List<Line>)
        ensures { result ≡ (self.shared, self.leaving, self.rest) }
    {
        let Parts {
            shared,
            leaving,
            rest,
        } = self;
        (shared, leaving, rest)
    }
}

// Which of two lists had a line that was taken.
#[derive(Drop)]
enum Taken {
    Nothing,
    Both(Line),
    First(Line),
    Second(Line),
}

fn of_both(line: Option<Line>) -> Taken
    ensures { result ≡ of_both line }
{
    match line {
        None => Taken::Nothing,
        Some(line) => Taken::Both(line),
    }
}

fn of_first(line: Option<Line>) -> Taken
    ensures { result ≡ of_first line }
{
    match line {
        None => Taken::Nothing,
        Some(line) => Taken::First(line),
    }
}

fn of_second(line: Option<Line>) -> Taken
    ensures { result ≡ of_second line }
{
    match line {
        None => Taken::Nothing,
        Some(line) => Taken::Second(line),
    }
}

fn is_same_context(context: Option<Platform>, other: Option<Platform>) -> bool
    ensures { Decides result (context ≡ other) }
{
    match (context, other) {
        (None, None) => true,
        (Some(platform), Some(other)) => platform == other,
        _ => false,
    }
}

fn is_same(line: &Line, other: &Line) -> bool
    ensures { Decides result (line.now ≡ other.now) }
{
    line.rest == other.rest
        && line.path == other.path
        && is_same_context(line.context, other.context)
}

// Takes the line with the first text of both lists, where there is one: from both, where they have the same line.
fn take_first(
    alloc: Global,
    first: &mut VecDeque<Line>,
    second: &mut VecDeque<Line>,
) -> Result<Taken, NoMemory>
    requires first { AreInOrder first.old.items }
    requires second { AreInOrder second.old.items }
    ensures { IfOk result (IsSplitFirst first.old.items second.old.items first.new.items second.new.items) }
{
    if first.is_empty() {
        return Ok(of_second(second.pop_front()));
    }
    if second.is_empty() {
        return Ok(of_first(first.pop_front()));
    }
    let head = &first[0];
    let other = &second[0];
    if is_same(head, other) {
        let _same = second.pop_front();
        return Ok(of_both(first.pop_front()));
    }
    match head.order(alloc, other)? {
        Ordering::Less => Ok(of_first(first.pop_front())),
        Ordering::Equal => Ok(of_first(first.pop_front())),
        Ordering::Greater => Ok(of_second(second.pop_front())),
    }
}

/// The lines that both lists have, and the others of each, in the same order.
pub(crate) fn split(alloc: Global, first: List<Line>, second: List<Line>) -> Result<Parts, NoMemory>
    requires first { AreInOrder first }
    requires second { AreInOrder second }
    ensures shared { IfOk result (λ parts. AreExactly (IsIn second first) parts.shared) }
    ensures leaving { IfOk result (λ parts. AreExactly (IsNotIn second first) parts.leaving) }
    ensures rest { IfOk result (λ parts. AreExactly (IsNotIn first second) parts.rest) }
    ensures first { IfOk result (λ parts. (l : Feature) → Has first l → IsOfEither parts.shared parts.leaving l) }
    ensures second { IfOk result (λ parts. (l : Feature) → Has second l → IsOfEither parts.shared parts.rest l) }
{
    let mut first = VecDeque::from(first.into_vec());
    let mut second = VecDeque::from(second.into_vec());
    let mut shared = List::with_room(alloc, first.len())?;
    let mut leaving = List::new(alloc);
    let mut rest = List::new(alloc);
    for _ in 0..usize::MAX {
        match take_first(alloc, &mut first, &mut second)? {
            Taken::Nothing => {
                return Ok(Parts {
                    shared,
                    leaving,
                    rest,
                });
            }
            Taken::Both(line) => shared.push(line)?,
            Taken::First(line) => leaving.push(line)?,
            Taken::Second(line) => rest.push(line)?,
        }
    }
    Err(NoMemory)
}
