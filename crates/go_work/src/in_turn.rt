//! Types the packages of a tree one after another.
ghost use Rattle.std.specs.Prelude.{◌≡◌, ◌⊎◌, ◌≤◌, ◌+◌, None, length, OnOk, IfErr, IfOk};
ghost use Rattle.go_base.specs.Keys.{first_with};
ghost use Rattle.go_model.specs.worlds.Worlds.{path_of};
ghost use Rattle.go_work.specs.Answers.{Answers, HandsBack, sources};
ghost use Rattle.go_work.specs.KeptUnits.{AreKept};
ghost use Rattle.go_work.specs.Paths.{AreOfPackages, IsOfPackage};
ghost use Rattle.go_work.specs.inner.NextUnits.{IsErrorOf, IsNext, error_at};

use crate::checked::CheckedWorld;
use crate::error::WorkError;
use crate::keep::keep;
use crate::publics::is_public;
use go_base::list::List;
use go_base::memory::NoMemory;
use go_base::steps::Steps;
use go_check::check::check_package;
use go_check::error::CheckError;
use go_levels::go_typed_packages::offered::joins_world;
use go_model::types::world::World;
use go_outside::gate::Gate;
use go_units::unit::Unit;
use go_units::unit_list::Units;
use std::alloc::Global;

// What a package of a number is refused for.
pub(crate) fn error_at(number: u32, unit: Unit, error: CheckError) -> WorkError
    ensures { result ≡ error_at number unit error }
{
    match error {
        CheckError::NoMemory => WorkError::NoMemory,
        _ => WorkError::Refused(number, unit, error),
    }
}

// Checks the package of a number over those before it, adds it to them, and gives up its syntax, unless something is left out of it.
fn add_next<G: Gate, L: Copy>(
    alloc: Global,
    unit: Unit,
    number: u32,
    bits: u32,
    gate: &G,
    steps: &mut Steps<L>,
    checked: &mut CheckedWorld,
) -> Result<(), WorkError>
    requires bits { (bits ≡ 32) ⊎ (bits ≡ 64) }
    requires path { IsOfPackage unit.path }
    requires absent { first_with path_of checked.old.world.packages unit.path ≡ None }
    ensures offered { OnOk result (IsNext bits unit checked.old checked.new) }
    ensures refused { IfErr result (IsErrorOf bits unit number checked.old.world) }
    ensures steps { steps.new ≤ steps.old + 1 }
{
    joins_world();
    // What a world keeps is told by its packages.
    let _packages = checked.world.packages();
    gate.enter(0, number);
    match check_package(alloc, &unit, &checked.world, bits, steps) {
        Err(error) => Err(error_at(number, unit, error)),
        Ok(found) => {
            let (package, skipped) = found.into_parts();
            match checked.world.add(package, is_public(&unit)) {
                Err(NoMemory) => Err(WorkError::NoMemory),
                Ok(()) => match keep(&mut checked.skipped, unit, skipped) {
                    Err(NoMemory) => Err(WorkError::NoMemory),
                    Ok(()) => Ok(()),
                },
            }
        }
    }
}

/// The world of a tree's packages, and what is left out of them: each is typed over those before it, and its syntax given up right then, unless
/// something is left out of it.
pub(crate) fn in_turn<G: Gate, L: Copy>(
    alloc: Global,
    units: Units,
    bits: u32,
    gate: &G,
    steps: &mut Steps<L>,
) -> Result<CheckedWorld, WorkError>
    requires bits { (bits ≡ 32) ⊎ (bits ≡ 64) }
    requires paths { AreOfPackages units.packages }
    ensures answers { Answers bits (sources units.packages) result }
    ensures skipped { IfOk result (λ checked. AreKept bits units.packages checked.skipped) }
    ensures handed { IfErr result (HandsBack units.packages) }
    ensures steps { steps.new ≤ steps.old + length units.packages }
{
    let world = World::empty(alloc);
    let skipped = List::new(alloc);
    let mut checked = CheckedWorld { world, skipped };
    let mut number = 0;
    for unit in units.packages.into_vec() {
        match add_next(alloc, unit, number, bits, gate, steps, &mut checked) {
            Ok(()) => {}
            Err(error) => return Err(error),
        }
        number += 1;
    }
    Ok(checked)
}
