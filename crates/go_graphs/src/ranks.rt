//! The numbers from which no walk is endless.
ghost use Rattle.std.specs.Prelude.{◌≡◌, ℕ, true, false, length, get_or, IfOk};
ghost use Rattle.go_base.specs.Lists.{Has};
ghost use Rattle.go_graphs.specs.Flags.{AreFlagsOf};
ghost use Rattle.go_graphs.specs.Ranks.{HasRank};

use crate::flags::no_flags;
use crate::marking::{Rule, close};
use crate::rows::{reversed, row};
use go_base::list::List;
use go_base::memory::NoMemory;
use std::alloc::Global;

// A number is flagged where all in its row are, but for those that are none of the rows'.
struct AllFlagged;

fn is_ranked(flags: &[bool], number: usize) -> bool
    ensures { result ≡ get_or flags.now number true }
{
    match flags.get(number) {
        Some(found) => *found,
        None => true,
    }
}

fn all_flagged(flags: &[bool], row: &[u32]) -> bool
    ensures yes { result ≡ true → (m : ℕ) → Has row.now m → get_or flags.now m true ≡ true }
    ensures no { result ≡ false → ((m : ℕ) → Has row.now m → get_or flags.now m true ≡ true) → ⊥ }
{
    for number in row {
        if !is_ranked(flags, *number as usize) {
            return false;
        }
    }
    true
}

impl Rule for AllFlagged {
    ghost why = { λ flags row. (m : ℕ) → Has row m → get_or flags m true ≡ true };

    fn holds(&self, flags: &[bool], row: &[u32]) -> bool {
        all_flagged(flags, row)
    }
}

// How many of its row are waited for, by number.
fn waits(alloc: Global, rows: &[List<u32>]) -> Result<Vec<usize>, NoMemory> {
    let mut waits = Vec::new(alloc);
    for row in rows {
        let mut count: usize = 0;
        for number in row.items() {
            if (*number as usize) < rows.len() {
                count = count.saturating_add(1);
            }
        }
        waits.push(count)?;
    }
    Ok(waits)
}

// Those that wait for none.
fn ready(alloc: Global, waits: &[usize]) -> Result<Vec<u32>, NoMemory> {
    let mut order = Vec::new(alloc);
    for (number, count) in waits.iter().enumerate() {
        if *count == 0 {
            let Ok(source) = u32::try_from(number) else {
                return Ok(order);
            };
            order.push(source)?;
        }
    }
    Ok(order)
}

fn release(waits: &mut [usize], order: &mut Vec<u32>, users: &[u32]) -> Result<(), NoMemory> {
    for user in users {
        let place = *user as usize;
        if place < waits.len() {
            waits[place] = waits[place].saturating_sub(1);
            if waits[place] == 0 {
                order.push(*user)?;
            }
        }
    }
    Ok(())
}

// Each number after all in its row, as long as there is one.
fn hints(alloc: Global, rows: &[List<u32>]) -> Result<Vec<u32>, NoMemory> {
    let turned = reversed(alloc, rows)?;
    let mut waits = waits(alloc, rows)?;
    let mut order = ready(alloc, &waits)?;
    for at in 0..usize::MAX {
        if at >= order.len() {
            return Ok(order);
        }
        let number = order[at] as usize;
        release(&mut waits, &mut order, row(&turned, number))?;
    }
    Ok(order)
}

/// Flags of the numbers that have a rank: those from which no walk along the rows is endless.
pub fn ranked(alloc: Global, rows: &[List<u32>]) -> Result<Vec<bool>, NoMemory>
    ensures { IfOk result (λ flags. AreFlagsOf (length rows.now) (HasRank rows.now) flags.items) }
{
    let mut flags = no_flags(alloc, rows.len())?;
    let hints = hints(alloc, rows)?;
    close(&AllFlagged, rows, &mut flags, &hints);
    Ok(flags)
}
