//! Rows of numbers.
ghost use Rattle.std.specs.Prelude.{◌≡◌, ◌⊎◌, ℕ, [], length, get_or, replicate, IfOk, OnOk};
ghost use Rattle.go_base.specs.Lists.{Has};
ghost use Rattle.go_graphs.specs.Walks.{row_of};
ghost use Rattle.go_graphs.specs.inner.Components.{TurnsRound};

use go_base::list::List;
use go_base::memory::NoMemory;
use std::alloc::Global;

/// The row of a number: past the last one it is empty.
pub fn row(rows: &[List<u32>], number: usize) -> &[u32]
    ensures { result.now ≡ row_of rows.now number }
{
    match rows.get(number) {
        Some(row) => row.items(),
        None => &[],
    }
}

fn empty_rows(alloc: Global, count: usize) -> Result<Vec<List<u32>>, NoMemory>
    ensures { IfOk result (λ rows. rows.items ≡ replicate count []) }
{
    let mut rows = Vec::new(alloc);
    for _ in 0..count {
        rows.push(List::new(alloc))?;
    }
    Ok(rows)
}

fn add_to_row(rows: &mut [List<u32>], target: u32, source: u32) -> Result<(), NoMemory>
    ensures { OnOk result ((n m : ℕ) → Has (row_of rows.new n) m → Has (row_of rows.old n) m ⊎ ((n ≡ target) × (m ≡ source))) }
{
    let place = target as usize;
    if place < rows.len() {
        rows[place].push(source)?;
    }
    Ok(())
}

fn add_to_rows(rows: &mut [List<u32>], targets: &[u32], source: u32) -> Result<(), NoMemory>
    ensures { OnOk result ((n m : ℕ) → Has (row_of rows.new n) m → Has (row_of rows.old n) m ⊎ (Has targets.now n × (m ≡ source))) }
{
    for target in targets {
        add_to_row(rows, *target, source)?;
    }
    Ok(())
}

/// The rows turned round: each number stands in the rows of those that stand in its row.
pub(crate) fn reversed(alloc: Global, rows: &[List<u32>]) -> Result<Vec<List<u32>>, NoMemory>
    ensures { IfOk result (λ turned. TurnsRound rows.now turned.items) }
{
    let mut turned = empty_rows(alloc, rows.len())?;
    for number in 0..rows.len() {
        let Ok(source) = u32::try_from(number) else {
            return Ok(turned);
        };
        add_to_rows(&mut turned, row(rows, number), source)?;
    }
    Ok(turned)
}
