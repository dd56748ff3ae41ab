//! The world of trees on a platform.
ghost use Rattle.std.specs.Prelude.{◌≡◌, ◌≢◌, ◌≤◌, ◌+◌, [], IfOk, length};
ghost use Rattle.go_base.specs.Lists.{Has};
ghost use Rattle.go_model.specs.files.Trees.{IsTree};
ghost use Rattle.go_work.specs.Paths.{AreOfPackages};
ghost use Rattle.api_worlds.specs.LeftOut.{AreLeftOutOn, all_lines};
ghost use Rattle.api_worlds.specs.PlatformWorlds.{AnswersWorld, CountsAtMost};
ghost use Rattle.api_worlds.specs.inner.KeptLines.{kept_lines};
ghost use Rattle.api_worlds.specs.inner.PlatformSteps.{AnswersOfUnits, AreLinesOf};

use crate::error::PlatformError;
use crate::known::known_ahead;
use crate::left_out::left_out;
use crate::platform_units::platform_units;
use crate::platform_world::PlatformWorld;
use crate::refused::{refused_package, refused_units};
use crate::trees::PlatformTrees;
use api_texts::lines::Side;
use go_base::memory::NoMemory;
use go_base::steps::Steps;
use go_outside::gate::Gate;
use go_reading::laws::unit_paths;
use go_units::unit_list::Units;
use go_work::checked::CheckedWorld;
use go_work::error::WorkError;
use go_work::world::world;
use std::alloc::Global;
use std::thread::Threads;

// The world of packages, and the lines of what is left out of them.
fn with_left_out(
    alloc: Global,
    trees: &PlatformTrees<'_>,
    checked: CheckedWorld,
) -> Result<PlatformWorld, NoMemory>
    ensures { IfOk result (λ found. (found.world ≡ checked.world) × (found.left_out ≡ all_lines (kept_lines trees.now.tree.now trees.now.std_tree.now [] checked.skipped))) }
{
    let lines = left_out(alloc, trees.tree, trees.std_tree, checked.skipped.items())?;
    Ok(PlatformWorld {
        world: checked.into_world(),
        left_out: lines,
    })
}

fn world_of<R: Threads + Sync, G: Gate + Sync, L: Copy + Send>(
    rt: &R,
    alloc: Global,
    side: Side,
    workers: u32,
    trees: &PlatformTrees<'_>,
    units: Units,
    gate: &G,
    steps: &mut Steps<L>,
) -> Result<PlatformWorld, PlatformError>
    requires { AreOfPackages units.packages }
    ensures answer { AnswersOfUnits trees.now.tree.now trees.now.std_tree.now side trees.now.platform units result }
    ensures left_out { IfOk result (λ found. AreLinesOf trees.now.tree.now trees.now.std_tree.now trees.now.platform units found.left_out) }
    ensures steps { steps.new ≤ steps.old + length units.packages }
{
    let bits = trees.platform.int_bits();
    match world(rt, alloc, units, bits, workers, gate, steps) {
        Ok(checked) => match with_left_out(alloc, trees, checked) {
            Ok(found) => Ok(found),
            Err(NoMemory) => Err(PlatformError::NoMemory),
        },
        Err(WorkError::NoMemory) => Err(PlatformError::NoMemory),
        Err(WorkError::Refused(_, unit, error)) => Err(refused_package(
            alloc,
            side,
            trees,
            &[],
            &unit,
            error,
        )),
    }
}

/// The world of a module's tree over the standard library's on a platform, and what is left out of them, or the fault line of its first
/// refusal: of its packages, and then of the first package in canonical order that isn't typed. The counter rises by at most the number of the packages.
/// Several workers parse their files, and check them.
pub fn world_on<R: Threads + Sync, G: Gate + Sync, L: Copy + Send>(
    rt: &R,
    alloc: Global,
    side: Side,
    workers: u32,
    trees: &PlatformTrees<'_>,
    gate: &G,
    steps: &mut Steps<L>,
) -> Result<PlatformWorld, PlatformError>
    requires tree { IsTree trees.now.tree.now }
    requires std { IsTree trees.now.std_tree.now }
    requires named { trees.now.tree.now.module ≢ [] }
    requires barred { Has trees.now.barred.now trees.now.tree.now.module }
    ensures answer { AnswersWorld trees.now.barred.now trees.now.tree.now trees.now.std_tree.now side trees.now.platform result }
    ensures left_out { IfOk result (λ found. AreLeftOutOn trees.now.barred.now trees.now.tree.now trees.now.std_tree.now trees.now.platform found.left_out) }
    ensures steps { CountsAtMost trees.now.barred.now trees.now.tree.now trees.now.std_tree.now trees.now.platform steps.old steps.new }
{
    unit_paths();
    let known = known_ahead(rt, alloc, workers, steps.owner(), trees);
    match platform_units(alloc, trees, known) {
        Err(error) => Err(refused_units(alloc, side, trees, &[], &error)),
        Ok(units) => world_of(rt, alloc, side, workers, trees, units, gate, steps),
    }
}
