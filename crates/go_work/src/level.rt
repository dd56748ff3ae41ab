//! The checks of a level's packages, which don't depend on each other.
ghost use Rattle.std.specs.Prelude.{◌≡◌, ◌≢◌, ◌⊎◌, ◌<◌, ◌≤◌, ◌+◌, [], ℕ, true, None, IfOk, length, slice_index};
ghost use Rattle.go_base.specs.Keys.{first_with};
ghost use Rattle.go_model.specs.worlds.Worlds.{path_of};
ghost use Rattle.go_sources.specs.UnitSources.{source_of};
ghost use Rattle.go_typings.specs.PackageWorlds.{over};
ghost use Rattle.go_work.specs.inner.Checks.{Checks, ChecksAt};
ghost use Rattle.go_work.specs.inner.Rows.{is_ready, is_width};

use crate::rows::Row;
use go_base::memory::NoMemory;
use go_base::steps::Steps;
use go_check::check::check_package;
use go_check::checked::CheckedPackage;
use go_check::error::CheckError;
use go_model::types::world::World;
use go_outside::gate::Gate;
use go_units::unit::Unit;
use std::alloc::Global;
use work_sharing::jobs::Jobs;

/// Packages of one level, and the world of the lower ones.
pub(crate) struct Level<'a, G> {
    pub alloc: Global,
    pub bits: u32,
    pub world: &'a World,
    pub rows: &'a [Row],
    /// The numbers of the packages.
    pub numbers: &'a [usize],
    pub gate: &'a G,
    pub ghost width: { is_width bits ≡ true },
    pub ghost few: { length rows.now < 4294967296 },
    pub ghost ready: { (j : ℕ) → j < length numbers.now → is_ready world.now.packages rows.now (slice_index numbers.now j) ≡ true },
}

impl<'a, G> Drop for Level<'a, G> {
    fn drop(self) {
        let Level {
            alloc: _,
            bits: _,
            world: _,
            rows: _,
            numbers: _,
            gate: _,
        } = self;
    }
}

// Checks a package, as this worker.
fn check_unit<G: Gate, L: Copy>(
    alloc: Global,
    unit: &Unit,
    number: u32,
    world: &World,
    bits: u32,
    gate: &G,
    worker: u32,
    steps: &mut Steps<L>,
) -> Result<Result<CheckedPackage, CheckError>, NoMemory>
    requires bits { (bits ≡ 32) ⊎ (bits ≡ 64) }
    requires pathed { unit.now.path ≢ [] }
    requires absent { first_with path_of world.now.packages unit.now.path ≡ None }
    ensures checks { IfOk result (Checks (over bits world.now) (source_of unit.now)) }
    ensures steps { steps.new ≤ steps.old + 1 }
{
    gate.enter(worker, number);
    match check_package(alloc, unit, world, bits, steps) {
        Err(CheckError::NoMemory) => Err(NoMemory),
        Err(error) => Ok(Err(error)),
        Ok(checked) => Ok(Ok(checked)),
    }
}

impl<'a, G: Gate> Jobs<Result<CheckedPackage, CheckError>> for Level<'a, G> {
    ghost many = { λ level. length level.numbers.now };

    ghost gives = { λ level j found. ChecksAt level.bits level.world.now level.rows.now (slice_index level.numbers.now j) found };

    fn count(&self) -> usize {
        self.numbers.len()
    }

    fn run<L: Copy>(
        &self,
        worker: u32,
        number: usize,
        steps: &mut Steps<L>,
    ) -> Result<Result<CheckedPackage, CheckError>, NoMemory> {
        let at = self.numbers[number];
        let Some(unit) = &self.rows[at].held else {
            unreachable!()
        };
        check_unit(
            self.alloc, unit, at as u32, self.world, self.bits, self.gate, worker, steps,
        )
    }
}
