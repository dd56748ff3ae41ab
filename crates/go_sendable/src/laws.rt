//! Laws of what may cross threads, for what shares it with a thread.
ghost use Rattle.std.specs.Thread.{IsSend, IsSync};
ghost use Rattle.go_syntax.specs.contracts.declaration.File.{the_row as file_row};
ghost use Rattle.go_units.specs.contracts.unit.«Unit».{the_row as unit_row};

/// The outline of a file may be sent to another thread and shared with one.
pub fn files()
    ensures sent { IsSend file_row }
    ensures shared { IsSync file_row }
{}

/// A unit may be sent to another thread and shared with one. What shares units with a thread calls this before, since the
/// search for it through all parts of an outline gives up.
pub fn units()
    ensures sent { IsSend unit_row }
    ensures shared { IsSync unit_row }
{}
