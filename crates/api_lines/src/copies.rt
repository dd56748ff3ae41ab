//! Copies of lines.
ghost use Rattle.std.specs.Prelude.{◌≡◌, IfOk};
ghost use Rattle.api_lines.specs.Lines.{in_context};

use crate::line::Line;
use go_base::list::List;
use go_base::memory::NoMemory;
use go_model::files::platform::Platform;
use std::alloc::Global;

/// A copy of the line in this context, or in none.
pub(crate) fn line_in(context: Option<Platform>, line: &Line) -> Result<Line, NoMemory>
    ensures { IfOk result (λ copy. copy ≡ in_context context line.now) }
{
    Ok(Line {
        path: line.path.copy()?,
        context,
        rest: line.rest.copy()?,
    })
}

fn line_copied(line: &Line) -> Result<Line, NoMemory>
    ensures { IfOk result (λ copy. copy ≡ line.now) }
{
    let copy = line_in(line.context, line)?;
    Ok(copy)
}

/// The same lines.
pub fn lines_copied(alloc: Global, lines: &[Line]) -> Result<List<Line>, NoMemory>
    ensures { IfOk result (λ copy. copy ≡ lines.now) }
{
    let mut copy = List::new(alloc);
    for line in lines {
        let same = line_copied(line)?;
        copy.push(same)?;
    }
    Ok(copy)
}
