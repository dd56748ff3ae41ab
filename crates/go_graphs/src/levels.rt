//! Checks levels: that no row rises, and that each number leads to all of its level.
ghost use Rattle.std.specs.Prelude.{◌≡◌, ◌<◌, ◌≤◌, ◌⊎◌, ℕ, true, length, get_or, IfOk, OnOk};
ghost use Rattle.go_base.specs.Lists.{Each, Has};
ghost use Rattle.go_graphs.specs.Flags.{is_flagged};
ghost use Rattle.go_graphs.specs.Walks.{LeadsInto};
ghost use Rattle.go_graphs.specs.inner.Components.{AreComponents, AreRoots, IsLedTo, NeverRises, StaysWithin, level_of};

use crate::marks::leading;
use crate::rows::{reversed, row};
use go_base::list::List;
use go_base::memory::NoMemory;
use std::alloc::Global;

/// The level of a number.
pub(crate) fn level(levels: &[u32], number: usize) -> u32
    ensures { result ≡ level_of levels.now number }
{
    match levels.get(number) {
        Some(found) => *found,
        None => 0,
    }
}

fn row_never_rises(levels: &[u32], from: u32, row: &[u32]) -> bool
    ensures { result ≡ true → (m : ℕ) → Has row.now m → level_of levels.now m ≤ from }
{
    for number in row {
        if level(levels, *number as usize) > from {
            return false;
        }
    }
    true
}

fn never_rises(rows: &[List<u32>], levels: &[u32]) -> bool
    ensures { result ≡ true → NeverRises rows.now levels.now }
{
    for number in 0..rows.len() {
        if !row_never_rises(levels, level(levels, number), row(rows, number)) {
            return false;
        }
    }
    true
}

fn add_of_level(
    levels: &[u32],
    wanted: u32,
    inner: &mut List<u32>,
    number: u32,
) -> Result<(), NoMemory>
    ensures { OnOk result ((m : ℕ) → Has inner.new m → Has inner.old m ⊎ ((m ≡ number) × (level_of levels.now m ≡ wanted))) }
{
    if level(levels, number as usize) != wanted {
        return Ok(());
    }
    inner.push(number)?;
    Ok(())
}

fn of_level(alloc: Global, levels: &[u32], wanted: u32, row: &[u32]) -> Result<List<u32>, NoMemory>
    ensures { IfOk result (λ inner. (m : ℕ) → Has inner m → Has row.now m × (level_of levels.now m ≡ wanted)) }
{
    let mut inner = List::new(alloc);
    for number in row {
        add_of_level(levels, wanted, &mut inner, *number)?;
    }
    Ok(inner)
}

// The steps that don't leave a level.
fn within_levels(
    alloc: Global,
    rows: &[List<u32>],
    levels: &[u32],
) -> Result<Vec<List<u32>>, NoMemory>
    ensures { IfOk result (λ inner. StaysWithin rows.now levels.now inner.items) }
{
    let mut inner = Vec::new(alloc);
    for number in 0..rows.len() {
        let kept = of_level(alloc, levels, level(levels, number), row(rows, number))?;
        inner.push(kept)?;
    }
    Ok(inner)
}

// A number of each level, by level.
fn by_level(alloc: Global, levels: &[u32]) -> Result<Vec<u32>, NoMemory> {
    let mut found = Vec::new(alloc);
    found.push(0)?;
    for _ in levels {
        found.push(0)?;
    }
    for (number, level) in levels.iter().enumerate() {
        let place = *level as usize;
        if place < found.len() {
            let Ok(source) = u32::try_from(number) else {
                return Ok(found);
            };
            found[place] = source;
        }
    }
    Ok(found)
}

fn is_root(levels: &[u32], by_level: &[u32], number: u32) -> bool
    ensures { result ≡ true → get_or by_level.now (level_of levels.now number) 0 ≡ number }
{
    match by_level.get(level(levels, number as usize) as usize) {
        Some(root) => *root == number,
        None => false,
    }
}

fn add_root(
    levels: &[u32],
    by_level: &[u32],
    roots: &mut Vec<u32>,
    number: u32,
) -> Result<(), NoMemory>
    ensures { OnOk result ((n : ℕ) → Has roots.new.items n → Has roots.old.items n ⊎ ((n ≡ number) × (get_or by_level.now (level_of levels.now n) 0 ≡ n))) }
{
    if !is_root(levels, by_level, number) {
        return Ok(());
    }
    roots.push(number)?;
    Ok(())
}

fn roots(
    alloc: Global,
    rows: &[List<u32>],
    levels: &[u32],
    by_level: &[u32],
) -> Result<Vec<u32>, NoMemory>
    ensures { IfOk result (λ roots. AreRoots rows.now levels.now by_level.now roots.items) }
{
    let mut roots = Vec::new(alloc);
    for root in 0..rows.len() {
        let Ok(number) = u32::try_from(root) else {
            return Ok(roots);
        };
        add_root(levels, by_level, &mut roots, number)?;
    }
    Ok(roots)
}

fn all_set(flags: &[bool]) -> bool
    ensures { result ≡ true → (n : ℕ) → n < length flags.now → is_flagged flags.now n ≡ true }
{
    for found in flags {
        if !*found {
            return false;
        }
    }
    true
}

// Whether each number leads into these along the rows.
fn all_lead(alloc: Global, rows: &[List<u32>], ends: &[u32]) -> Result<bool, NoMemory>
    requires { Each (λ n. n < length rows.now) ends.now }
    ensures { IfOk result (λ all. all ≡ true → (n : ℕ) → n < length rows.now → LeadsInto rows.now ends.now n) }
{
    let flags = leading(alloc, rows, ends)?;
    Ok(all_set(&flags))
}

// Whether, in steps that don't leave its level, each number leads to the root of its level and this one to it.
fn lead_within(alloc: Global, inner: &[List<u32>], roots: &[u32]) -> Result<bool, NoMemory>
    requires { Each (λ n. n < length inner.now) roots.now }
    ensures { IfOk result (λ all. all ≡ true → (n : ℕ) → n < length inner.now → LeadsInto inner.now roots.now n × IsLedTo inner.now roots.now n) }
{
    if !all_lead(alloc, inner, roots)? {
        return Ok(false);
    }
    let turned = reversed(alloc, inner)?;
    let back = all_lead(alloc, &turned, roots)?;
    Ok(back)
}

/// Whether the levels tell which numbers lead to which.
pub(crate) fn are_components(
    alloc: Global,
    rows: &[List<u32>],
    levels: &[u32],
) -> Result<bool, NoMemory>
    ensures { IfOk result (λ are. are ≡ true → AreComponents rows.now levels.now) }
{
    if !never_rises(rows, levels) {
        return Ok(false);
    }
    let by_level = by_level(alloc, levels)?;
    let roots = roots(alloc, rows, levels, &by_level)?;
    let inner = within_levels(alloc, rows, levels)?;
    let within = lead_within(alloc, &inner, &roots)?;
    Ok(within)
}
