//! The numbers from which walks lead into a set.
ghost use Rattle.std.specs.Prelude.{◌≡◌, ◌<◌, ℕ, true, false, length, IfOk};
ghost use Rattle.go_base.specs.Lists.{Each, Has};
ghost use Rattle.go_graphs.specs.Flags.{AreFlagsOf, is_flagged};
ghost use Rattle.go_graphs.specs.Walks.{LeadsInto};

use crate::flags::{flag, flags_of};
use crate::marking::{Rule, close};
use crate::rows::{reversed, row};
use go_base::list::List;
use go_base::memory::NoMemory;
use std::alloc::Global;

// A number is flagged where one in its row is.
struct AnyFlagged;

fn any_flagged(flags: &[bool], row: &[u32]) -> bool
    ensures yes { result ≡ true → (m : ℕ) × Has row.now m × (is_flagged flags.now m ≡ true) }
    ensures no { result ≡ false → (m : ℕ) → Has row.now m → is_flagged flags.now m ≡ true → ⊥ }
{
    for number in row {
        if flag(flags, *number as usize) {
            return true;
        }
    }
    false
}

impl Rule for AnyFlagged {
    ghost why = { λ flags row. (m : ℕ) × Has row m × (is_flagged flags m ≡ true) };

    fn holds(&self, flags: &[bool], row: &[u32]) -> bool {
        any_flagged(flags, row)
    }
}

fn push_new(seen: &mut [bool], order: &mut Vec<u32>, numbers: &[u32]) -> Result<(), NoMemory> {
    for number in numbers {
        let place = *number as usize;
        if place < seen.len() && !seen[place] {
            seen[place] = true;
            order.push(*number)?;
        }
    }
    Ok(())
}

// These numbers and those that lead to them, each after one in its row.
fn hints(
    alloc: Global,
    rows: &[List<u32>],
    ends: &[u32],
    mut seen: Vec<bool>,
) -> Result<Vec<u32>, NoMemory> {
    let turned = reversed(alloc, rows)?;
    let mut order = Vec::new(alloc);
    for end in ends {
        order.push(*end)?;
    }
    for at in 0..usize::MAX {
        if at >= order.len() {
            return Ok(order);
        }
        let number = order[at] as usize;
        push_new(&mut seen, &mut order, row(&turned, number))?;
    }
    Ok(order)
}

/// Flags of the numbers from which walks along the rows lead to one of these: the least set that holds these numbers,
/// and each number with a member in its row.
pub fn leading(alloc: Global, rows: &[List<u32>], ends: &[u32]) -> Result<Vec<bool>, NoMemory>
    requires { Each (λ n. n < length rows.now) ends.now }
    ensures { IfOk result (λ flags. AreFlagsOf (length rows.now) (LeadsInto rows.now ends.now) flags.items) }
{
    let mut flags = flags_of(alloc, rows.len(), ends)?;
    let seen = flags_of(alloc, rows.len(), ends)?;
    let hints = hints(alloc, rows, ends, seen)?;
    close(&AnyFlagged, rows, &mut flags, &hints);
    Ok(flags)
}
