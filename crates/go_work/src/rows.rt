//! What is kept of packages while they are checked level by level.
ghost use Rattle.std.specs.Prelude.{◌≡◌, ◌++◌, Some, map, slice_set, IfOk, IsSome, OnOk};
ghost use Rattle.go_work.specs.inner.Rows.{kept_in, kept_of, no_row, offered_row, row_unit, waiting_row};

use crate::checked::SkippedUnit;
use crate::keep::keep;
use go_base::list::List;
use go_base::memory::NoMemory;
use go_exposed::skipped::Skipped;
use go_units::unit::Unit;
use std::alloc::Global;

/// What is kept of a package.
#[derive(Drop)]
pub(crate) struct Row {
    /// Its files, until it is offered with nothing left out.
    pub held: Option<Unit>,
    /// What is left out of it.
    pub left_out: List<Skipped>,
}

/// The rows of packages that wait for their check.
pub(crate) fn waiting_rows(alloc: Global, units: List<Unit>) -> Result<Vec<Row>, NoMemory>
    ensures { IfOk result (λ rows. rows.items ≡ map waiting_row units) }
{
    let mut rows = Vec::new(alloc);
    for unit in units.into_vec() {
        rows.push(Row {
            held: Some(unit),
            left_out: List::new(alloc),
        })?;
    }
    Ok(rows)
}

/// Takes the package out of a row.
pub(crate) fn taken_unit(alloc: Global, rows: &mut Vec<Row>, number: usize) -> Unit
    requires { IsSome (row_unit rows.old.items number) }
    ensures taken { row_unit rows.old.items number ≡ Some result }
    ensures left { rows.new.items ≡ slice_set rows.old.items number no_row }
{
    let row = std::mem::replace(
        &mut rows[number],
        Row {
            held: None,
            left_out: List::new(alloc),
        },
    );
    let Row { held, left_out: _ } = row;
    let Some(unit) = held else { unreachable!() };
    unit
}

/// The row of a package that is offered: where nothing is left out of it, its syntax is given up.
pub(crate) fn offered_row(unit: Unit, skipped: List<Skipped>) -> Row
    ensures { result ≡ offered_row unit skipped }
{
    if skipped.items().is_empty() {
        return Row {
            held: None,
            left_out: skipped,
        };
    }
    Row {
        held: Some(unit),
        left_out: skipped,
    }
}

fn keep_row(kept: &mut List<SkippedUnit>, row: Row) -> Result<(), NoMemory>
    ensures { OnOk result (kept.new ≡ kept.old ++ kept_of row.held row.left_out) }
{
    let Row { held, left_out } = row;
    match held {
        None => Ok(()),
        Some(unit) => keep(kept, unit, left_out),
    }
}

/// Of these rows, the packages of which something is left out.
pub(crate) fn kept_rows(alloc: Global, rows: Vec<Row>) -> Result<List<SkippedUnit>, NoMemory>
    ensures { IfOk result (λ kept. kept ≡ kept_in rows.items) }
{
    let mut kept = List::new(alloc);
    for row in rows {
        keep_row(&mut kept, row)?;
    }
    Ok(kept)
}
