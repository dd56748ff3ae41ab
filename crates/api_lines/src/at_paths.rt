//! The lines of a list that are of some packages.
ghost use Rattle.std.specs.Prelude.{Decides, IfOk};
ghost use Rattle.go_base.specs.Lists.{Has};
ghost use Rattle.api_lines.specs.Lines.{AreInOrder, IsListing, IsLineAt};

use crate::line::Line;
use crate::texts::Texts;
use go_base::list::List;
use go_base::memory::NoMemory;
use go_base::text::Text;
use std::alloc::Global;

// Whether the path is one of these, of which that is told for the last path.
fn is_at(paths: &Texts, path: &Text, last: &Text, was: bool) -> bool
    requires { Decides was (Has paths.now last.now) }
    ensures { Decides result (Has paths.now path.now) }
{
    if path == last {
        return was;
    }
    paths.has(path)
}

/// The lines of packages with these paths, in the same order.
pub fn lines_at(alloc: Global, lines: List<Line>, paths: &Texts) -> Result<List<Line>, NoMemory>
    requires { AreInOrder lines }
    ensures { IfOk result (IsListing (IsLineAt paths.now lines)) }
{
    let mut kept = List::new(alloc);
    let mut last = Text::empty();
    let mut found = paths.has(&last);
    for line in lines.into_vec() {
        found = is_at(paths, &line.path, &last, found);
        last = line.path.copy()?;
        if found {
            kept.push(line)?;
        }
    }
    Ok(kept)
}
