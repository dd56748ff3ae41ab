//! The world of the packages of a tree.
ghost use Rattle.std.specs.Prelude.{◌≡◌, ◌⊎◌, ◌≤◌, ◌+◌, length, IfErr, IfOk};
ghost use Rattle.go_work.specs.Answers.{Answers, HandsBack, sources};
ghost use Rattle.go_work.specs.KeptUnits.{AreKept};
ghost use Rattle.go_work.specs.Paths.{AreOfPackages};

use crate::by_levels::by_levels;
use crate::checked::CheckedWorld;
use crate::error::WorkError;
use crate::in_turn::in_turn;
use go_base::steps::Steps;
use go_outside::gate::Gate;
use go_units::unit_list::Units;
use std::alloc::Global;
use std::thread::Threads;

/// The world of a tree's packages, and what is left out of them: each is typed over those before it, in canonical order, and its syntax given up
/// right then, unless something is left out of it. `Refused` comes exactly where one of them is refused, with the first and its cause. The gate hears of each
/// package right before it is checked, and the counter rises by at most the number of the packages. Several workers check packages that don't
/// need each other side by side: those of a level, over the world of the lower levels, and syntax is given up as a level ends.
pub fn world<R: Threads + Sync, G: Gate + Sync, L: Copy + Send>(
    rt: &R,
    alloc: Global,
    units: Units,
    bits: u32,
    workers: u32,
    gate: &G,
    steps: &mut Steps<L>,
) -> Result<CheckedWorld, WorkError>
    requires bits { (bits ≡ 32) ⊎ (bits ≡ 64) }
    requires paths { AreOfPackages units.packages }
    ensures answers { Answers bits (sources units.packages) result }
    ensures skipped { IfOk result (λ checked. AreKept bits units.packages checked.skipped) }
    ensures handed { IfErr result (HandsBack units.packages) }
    ensures steps { steps.new ≤ steps.old + length units.packages }
{
    if workers < 2 {
        return in_turn(alloc, units, bits, gate, steps);
    }
    by_levels(rt, alloc, units, bits, workers, gate, steps)
}
