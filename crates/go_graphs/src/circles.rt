//! What leads back to where it stands.
ghost use Rattle.std.specs.Prelude.{◌≡◌, ◌<◌, ◌≤◌, ◌^◌, ℕ, true, false, length, IfOk};
ghost use Rattle.go_base.specs.Lists.{Has};
ghost use Rattle.go_graphs.specs.Flags.{AreFlagsOf};
ghost use Rattle.go_graphs.specs.Walks.{LeadsBack, LeadsTo, row_of};
ghost use Rattle.go_graphs.specs.inner.Components.{AreComponents, level_of};

use crate::components::components;
use crate::flags::flag;
use crate::levels::{are_components, level};
use crate::marks::leading;
use crate::rows::row;
use go_base::list::List;
use go_base::memory::NoMemory;
use std::alloc::Global;

// Whether a number leads to another, by a search.
fn is_found(alloc: Global, rows: &[List<u32>], from: usize, to: u32) -> Result<bool, NoMemory>
    requires from { from < length rows.now }
    requires to { to < length rows.now }
    ensures yes { IfOk result (λ leads. leads ≡ true → LeadsTo rows.now from to) }
    ensures no { IfOk result (λ leads. leads ≡ false → LeadsTo rows.now from to → ⊥) }
{
    let ends = [to];
    let flags = leading(alloc, rows, &ends)?;
    Ok(flag(&flags, from))
}

// Whether a number leads to another: by their levels where these are right and tell, else by a search.
fn leads(
    alloc: Global,
    rows: &[List<u32>],
    levels: &[u32],
    are_right: bool,
    from: usize,
    to: u32,
) -> Result<bool, NoMemory>
    requires right { are_right ≡ true → AreComponents rows.now levels.now }
    requires to { to < length rows.now }
    ensures yes { IfOk result (λ leads. leads ≡ true → LeadsTo rows.now from to) }
    ensures no { IfOk result (λ leads. leads ≡ false → LeadsTo rows.now from to → ⊥) }
{
    if from >= rows.len() {
        return Ok(false);
    }
    if !are_right {
        return is_found(alloc, rows, from, to);
    }
    let high = level(levels, to as usize);
    let low = level(levels, from);
    if low < high {
        return Ok(false);
    }
    if low == high {
        return Ok(true);
    }
    is_found(alloc, rows, from, to)
}

fn one_leads(
    alloc: Global,
    rows: &[List<u32>],
    levels: &[u32],
    are_right: bool,
    starts: &[u32],
    to: u32,
) -> Result<bool, NoMemory>
    requires right { are_right ≡ true → AreComponents rows.now levels.now }
    requires to { to < length rows.now }
    ensures yes { IfOk result (λ leads. leads ≡ true → (m : ℕ) × Has starts.now m × LeadsTo rows.now m to) }
    ensures no { IfOk result (λ leads. leads ≡ false → (m : ℕ) → Has starts.now m → LeadsTo rows.now m to → ⊥) }
{
    for start in starts {
        if leads(alloc, rows, levels, are_right, *start as usize, to)? {
            return Ok(true);
        }
    }
    Ok(false)
}

fn flags_back(
    alloc: Global,
    rows: &[List<u32>],
    levels: &[u32],
    are_right: bool,
    starts: &[List<u32>],
) -> Result<Vec<bool>, NoMemory>
    requires right { are_right ≡ true → AreComponents rows.now levels.now }
    requires few { length rows.now ≤ 2 ^ 32 }
    ensures { IfOk result (λ flags. AreFlagsOf (length rows.now) (LeadsBack rows.now starts.now) flags.items) }
{
    let mut flags = Vec::new(alloc);
    for number in 0..rows.len() {
        let to = number as u32;
        let leads = one_leads(alloc, rows, levels, are_right, row(starts, number), to)?;
        flags.push(leads)?;
    }
    Ok(flags)
}

/// Flags of the numbers that have in the second rows one that leads back to them along the first.
///
/// It takes the longer the more of these neither stand on one circle with their number nor lead on from it alone.
pub fn leading_back(
    alloc: Global,
    rows: &[List<u32>],
    starts: &[List<u32>],
) -> Result<Vec<bool>, NoMemory>
    requires { length rows.now ≤ 2 ^ 32 }
    ensures { IfOk result (λ flags. AreFlagsOf (length rows.now) (LeadsBack rows.now starts.now) flags.items) }
{
    let levels = components(alloc, rows)?;
    let are_right = are_components(alloc, rows, &levels)?;
    flags_back(alloc, rows, &levels, are_right, starts)
}
