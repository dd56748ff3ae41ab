//! Types the packages of a tree level by level, those of a level by several workers.
ghost use Rattle.std.specs.Prelude.{◌≡◌, ◌⊎◌, ◌≤◌, ◌+◌, IfErr, IfOk, OnOk, length};
ghost use Rattle.go_levels.specs.LevelNumbers.{AreOnLevel};
ghost use Rattle.go_work.specs.Answers.{Answers, HandsBack, sources};
ghost use Rattle.go_work.specs.KeptUnits.{AreKept};
ghost use Rattle.go_work.specs.Paths.{AreOfPackages};
ghost use Rattle.go_work.specs.inner.Progresses.{AreFound, AreReached, IsPlan, IsReached, units_of};

use crate::checked::CheckedWorld;
use crate::error::WorkError;
use crate::in_turn::in_turn;
use crate::level::Level;
use crate::plan::Plan;
use crate::progress::{Progress, settle_all};
use crate::rows::{kept_rows, taken_unit, waiting_rows};
use go_base::list::List;
use go_base::memory::NoMemory;
use go_base::steps::Steps;
use go_check::checked::CheckedPackage;
use go_check::error::CheckError;
use go_levels::levels::levels;
use go_levels::numbers::{height, numbers_on};
use go_model::laws::sendable;
use go_model::types::world::World;
use go_outside::gate::Gate;
use go_units::unit::Unit;
use go_units::unit_list::Units;
use std::alloc::Global;
use std::snapshot::Snapshot;
use std::thread::Threads;
use work_sharing::map::dynamic_map;

// Whether there are so many levels that finding the packages of each one takes longer than several workers save.
fn are_deep(levels: &[usize]) -> bool {
    for level in levels {
        if 100_000_000 / (levels.len() as u64 + 1) < *level as u64 {
            return true;
        }
    }
    false
}

// As many workers as there are packages for.
fn workers_for(workers: u32, packages: usize) -> u32 {
    if packages < workers as usize {
        packages as u32
    } else {
        workers
    }
}

// What the checks of a level's packages find, over the world of the lower ones.
fn found_on<R: Threads + Sync, G: Gate + Sync, L: Copy + Send>(
    rt: &R,
    alloc: Global,
    plan: &Plan,
    workers: u32,
    level: usize,
    numbers: &[usize],
    gate: &G,
    progress: &Progress,
    steps: &mut Steps<L>,
) -> Result<List<Result<CheckedPackage, CheckError>>, NoMemory>
    requires plan { IsPlan plan.now }
    requires reached { IsReached plan.now level progress.now }
    requires numbers { AreOnLevel plan.now.levels level progress.now.end numbers.now }
    ensures found { IfOk result (AreFound plan.now progress.now.world numbers.now) }
    ensures steps { steps.new ≤ steps.old + length numbers.now }
{
    sendable();
    go_sendable::laws::units();
    let checks = Level {
        alloc,
        bits: plan.bits,
        world: &progress.world,
        rows: &progress.rows,
        numbers,
        gate,
    };
    dynamic_map(
        rt,
        alloc,
        &checks,
        workers_for(workers, numbers.len()),
        steps,
    )
}

// Checks the packages of a level.
fn pass_level<R: Threads + Sync, G: Gate + Sync, L: Copy + Send>(
    rt: &R,
    alloc: Global,
    plan: &Plan,
    workers: u32,
    level: usize,
    numbers: &[usize],
    gate: &G,
    progress: &mut Progress,
    steps: &mut Steps<L>,
) -> Result<(), NoMemory>
    requires plan { IsPlan plan.now }
    requires reached { IsReached plan.now level progress.old }
    requires numbers { AreOnLevel plan.now.levels level progress.old.end numbers.now }
    ensures reached { OnOk result (IsReached plan.now (level + 1) progress.new) }
    ensures steps { steps.new ≤ steps.old + length numbers.now }
{
    let found = found_on(
        rt, alloc, plan, workers, level, numbers, gate, progress, steps,
    )?;
    settle_all(alloc, plan, level, numbers, found, progress)
}

// Checks the packages of all levels, but for those behind one that is refused on a lower level.
fn pass_levels<R: Threads + Sync, G: Gate + Sync, L: Copy + Send>(
    rt: &R,
    alloc: Global,
    plan: &Plan,
    workers: u32,
    gate: &G,
    progress: &mut Progress,
    steps: &mut Steps<L>,
) -> Result<(), NoMemory>
    requires plan { IsPlan plan.now }
    requires reached { IsReached plan.now 0 progress.old }
    ensures reached { OnOk result (AreReached plan.now progress.new) }
    ensures steps { steps.new ≤ steps.old + length (units_of plan.now) }
{
    let levels = plan.levels.items();
    let height = height(levels);
    for level in 0..height {
        let numbers = numbers_on(alloc, levels, level, progress.end)?;
        let numbers = numbers.items();
        pass_level(
            rt, alloc, plan, workers, level, numbers, gate, progress, steps,
        )?;
    }
    Ok(())
}

// What the progress through all levels comes to.
fn ended(alloc: Global, plan: &Plan, progress: Progress) -> Result<CheckedWorld, WorkError>
    requires plan { IsPlan plan.now }
    requires reached { AreReached plan.now progress }
    ensures answers { Answers plan.now.bits (sources (units_of plan.now)) result }
    ensures skipped { IfOk result (λ checked. AreKept plan.now.bits (units_of plan.now) checked.skipped) }
    ensures handed { IfErr result (HandsBack (units_of plan.now)) }
{
    let Progress {
        world,
        mut rows,
        end,
        refused,
    } = progress;
    match refused {
        Some(error) => {
            let unit = taken_unit(alloc, &mut rows, end);
            Err(WorkError::Refused(end as u32, unit, error))
        }
        None => match kept_rows(alloc, rows) {
            Err(NoMemory) => Err(WorkError::NoMemory),
            Ok(skipped) => Ok(CheckedWorld { world, skipped }),
        },
    }
}

// The progress before the first level.
fn begun(alloc: Global, plan: &Plan, units: List<Unit>) -> Result<Progress, NoMemory>
    requires plan { IsPlan plan.now }
    requires units { units ≡ units_of plan.now }
    ensures { IfOk result (IsReached plan.now 0) }
{
    let end = units.items().len();
    let rows = waiting_rows(alloc, units)?;
    Ok(Progress {
        world: World::empty(alloc),
        rows,
        end,
        refused: None,
    })
}

/// The same as of one package after another, with workers who check the packages of a level side by side. The syntax of a level's packages is given
/// up as the level ends. Where there are as many levels as in a long chain of packages, one is checked after another.
pub(crate) fn by_levels<R: Threads + Sync, G: Gate + Sync, L: Copy + Send>(
    rt: &R,
    alloc: Global,
    units: Units,
    bits: u32,
    workers: u32,
    gate: &G,
    steps: &mut Steps<L>,
) -> Result<CheckedWorld, WorkError>
    requires bits { (bits ≡ 32) ⊎ (bits ≡ 64) }
    requires paths { AreOfPackages units.packages }
    ensures answers { Answers bits (sources units.packages) result }
    ensures skipped { IfOk result (λ checked. AreKept bits units.packages checked.skipped) }
    ensures handed { IfErr result (HandsBack units.packages) }
    ensures steps { steps.new ≤ steps.old + length units.packages }
{
    let Ok(levels) = levels(alloc, &units) else {
        return Err(WorkError::NoMemory);
    };
    if are_deep(levels.items()) {
        return in_turn(alloc, units, bits, gate, steps);
    }
    let plan = Plan {
        units: Snapshot::of(&units.packages),
        levels,
        bits,
    };
    let Ok(mut progress) = begun(alloc, &plan, units.packages) else {
        return Err(WorkError::NoMemory);
    };
    match pass_levels(rt, alloc, &plan, workers, gate, &mut progress, steps) {
        Err(NoMemory) => Err(WorkError::NoMemory),
        Ok(()) => ended(alloc, &plan, progress),
    }
}
