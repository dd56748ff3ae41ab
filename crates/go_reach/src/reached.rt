//! The numbers that walks reach.
ghost use Rattle.std.specs.Prelude.{◌≡◌, ℕ, length, IfOk, OnOk};
ghost use Rattle.go_base.specs.Lists.{Has};
ghost use Rattle.go_graphs.specs.Flags.{AreFlagsOf, is_flagged};
ghost use Rattle.go_reach.specs.Reached.{IsReached};
ghost use Rattle.go_reach.specs.inner.Search.{Meets, Takes};

use crate::numbers::flagged_numbers;
use go_base::list::List;
use go_base::memory::NoMemory;
use go_graphs::rows::row;
use std::alloc::Global;

// Flags a number, and makes it pending where it wasn't flagged.
fn meet(flags: &mut [bool], pending: &mut Vec<u32>, number: u32) -> Result<(), NoMemory>
    ensures { OnOk result (Meets (λ n. number ≡ n) flags.old pending.old.items flags.new pending.new.items) }
{
    let place = number as usize;
    if place < flags.len() && !flags[place] {
        flags[place] = true;
        pending.push(number)?;
    }
    Ok(())
}

// The same of each number of a row.
fn meet_row(flags: &mut [bool], pending: &mut Vec<u32>, row: &[u32]) -> Result<(), NoMemory>
    ensures { OnOk result (Meets (Has row.now) flags.old pending.old.items flags.new pending.new.items) }
{
    for number in row {
        meet(flags, pending, *number)?;
    }
    Ok(())
}

// The last of the numbers that are pending, which is taken.
fn next(pending: &mut Vec<u32>) -> Option<u32>
    ensures { Takes pending.old.items pending.new.items result }
{
    pending.pop()
}

/// Flags of the numbers to which walks of zero or more steps along the rows lead from those that are flagged, one for each row: the least set that has
/// these numbers, and with each member all in its row. It takes time by the number of the rows and of their members. For numbers past
/// 32 bits there is no memory.
pub fn reached(
    alloc: Global,
    rows: &[List<u32>],
    mut flags: Vec<bool>,
) -> Result<Vec<bool>, NoMemory>
    ensures { length flags.items ≡ length rows.now → IfOk result (λ reached. AreFlagsOf (length rows.now) (IsReached rows.now (is_flagged flags.items)) reached.items) }
{
    let mut pending = flagged_numbers(alloc, &flags, flags.len())?;
    for _ in 0..usize::MAX {
        match next(&mut pending) {
            None => return Ok(flags),
            Some(number) => meet_row(&mut flags, &mut pending, row(rows, number as usize))?,
        }
    }
    Err(NoMemory)
}
