//! How far packages are checked level by level.
ghost use Rattle.std.specs.Prelude.{◌≡◌, ◌+◌, ◌≤◌, Some, IfOk, IsSome, OnOk, length};
ghost use Rattle.go_levels.specs.LevelNumbers.{AreOnLevel};
ghost use Rattle.go_model.specs.worlds.Worlds.{IsWorld, with_package};
ghost use Rattle.go_sources.specs.UnitSources.{source_of};
ghost use Rattle.go_typings.specs.PackageWorlds.{is_public};
ghost use Rattle.go_units.specs.declared.unit.«Unit».{«Unit» as PackageUnit};
ghost use Rattle.go_work.specs.inner.Progresses.{AreFound, IsAddedAt, IsNoted, IsPlan, IsReached, IsSettled};
ghost use Rattle.go_work.specs.inner.Rows.{row_unit};

use crate::plan::Plan;
use crate::publics::is_public;
use crate::rows::{Row, offered_row, taken_unit};
use go_base::list::List;
use go_base::memory::NoMemory;
use go_check::checked::CheckedPackage;
use go_check::error::CheckError;
use go_model::types::world::World;
use std::alloc::Global;

/// What came of packages so far.
#[derive(Drop)]
pub(crate) struct Progress {
    /// Those that are offered.
    pub world: World,
    /// What is kept of each, by its number.
    pub rows: Vec<Row>,
    /// The first number that is refused so far; how many packages there are where none is.
    pub end: usize,
    /// Why it is refused.
    pub refused: Option<CheckError>,
}

// Adds a package to the others, and gives up its syntax, unless something is left out of it.
fn add_offered(
    alloc: Global,
    checked: CheckedPackage,
    number: usize,
    progress: &mut Progress,
) -> Result<(), NoMemory>
    requires held { IsSome (row_unit progress.old.rows.items number) }
    requires joins { (u : PackageUnit) → row_unit progress.old.rows.items number ≡ Some u → IsWorld (with_package progress.old.world checked.«package» (is_public (source_of u))) }
    ensures { OnOk result (IsAddedAt checked number progress.old progress.new) }
{
    let unit = taken_unit(alloc, &mut progress.rows, number);
    let (package, skipped) = checked.into_parts();
    progress.world.add(package, is_public(&unit))?;
    progress.rows[number] = offered_row(unit, skipped);
    Ok(())
}

// Notes a refused package where it is the first so far.
fn note_refused(error: CheckError, number: usize, progress: &mut Progress)
    ensures { IsNoted error number progress.old progress.new }
{
    if number < progress.end {
        progress.end = number;
        progress.refused = Some(error);
    }
}

fn settle(
    alloc: Global,
    outcome: Result<CheckedPackage, CheckError>,
    number: usize,
    progress: &mut Progress,
) -> Result<(), NoMemory>
    requires held { IsSome (row_unit progress.old.rows.items number) }
    requires joins { IfOk outcome (λ checked. (u : PackageUnit) → row_unit progress.old.rows.items number ≡ Some u → IsWorld (with_package progress.old.world checked.«package» (is_public (source_of u)))) }
    ensures { OnOk result (IsSettled outcome number progress.old progress.new) }
{
    match outcome {
        Ok(checked) => add_offered(alloc, checked, number, progress),
        Err(error) => {
            note_refused(error, number, progress);
            Ok(())
        }
    }
}

/// Adds what came of a level's packages, one after another.
pub(crate) fn settle_all(
    alloc: Global,
    plan: &Plan,
    level: usize,
    numbers: &[usize],
    found: List<Result<CheckedPackage, CheckError>>,
    progress: &mut Progress,
) -> Result<(), NoMemory>
    requires plan { IsPlan plan.now }
    requires reached { IsReached plan.now level progress.old }
    requires numbers { AreOnLevel plan.now.levels level progress.old.end numbers.now }
    requires found { AreFound plan.now progress.old.world numbers.now found }
    ensures { OnOk result (IsReached plan.now (level + 1) progress.new) }
{
    let mut at = 0;
    for outcome in found.into_vec() {
        // What a world keeps is told by its packages.
        let _packages = progress.world.packages();
        settle(alloc, outcome, numbers[at], progress)?;
        at += 1;
    }
    Ok(())
}
