//! Packages that are typed over those that were typed before.
ghost use Rattle.std.specs.Prelude.{◌≡◌, ◌⊎◌, ◌≤◌, ◌+◌, ◌++◌, ◌∷◌, [], None, IfErr, IfOk, IfSome, OnOk, length};
ghost use Rattle.std.specs.Option.{option_copied};
ghost use Rattle.go_base.specs.Keys.{first_with};
ghost use Rattle.go_check.specs.Answers as check;
ghost use Rattle.go_exposed.specs.SkippedValues.{all_skipped};
ghost use Rattle.go_exposed.specs.SkippedWorlds.{IsSkipped};
ghost use Rattle.go_model.specs.worlds.Worlds.{IsWorld, path_of, with_package};
ghost use Rattle.go_sources.specs.UnitSources.{source_of};
ghost use Rattle.go_typings.specs.PackageWorlds.{is_public, over};
ghost use Rattle.go_work.specs.Answers.{HandsBack, Refuses, sources};
ghost use Rattle.go_work.specs.Paths.{AreOfPackages, IsOfPackage};
ghost use Rattle.go_work.specs.TypedUnits.{AreTypedUnits};
ghost use Rattle.go_work.specs.inner.EarlierUnits.{AreTypedSoFar, IsNextTyped, StandBeside, no_units, with_unit};
ghost use Rattle.go_work.specs.inner.NextUnits.{IsErrorOf};

use crate::earlier::EarlierWorlds;
use crate::error::WorkError;
use crate::in_turn::error_at;
use crate::publics::is_public;
use go_base::list::List;
use go_base::memory::NoMemory;
use go_base::steps::Steps;
use go_check::check::check_package;
use go_check::checked::CheckedPackage;
use go_check::error::CheckError;
use go_exposed::skipped::Skipped;
use go_levels::go_typed_packages::offered::joins_world;
use go_model::types::world::World;
use go_outside::gate::Gate;
use go_units::unit::Unit;
use go_units::unit_list::Units;
use std::alloc::Global;

/// The packages of a tree after typing, with their files, which are kept for packages that may take them over.
pub struct TypedUnits {
    /// The packages in canonical order.
    pub units: List<Unit>,
    /// The bits of `int`, `uint` and `uintptr`.
    pub bits: u32,
    pub world: World,
    /// What is left out of each package, by its number.
    pub skipped: List<List<Skipped>>,
}

impl Drop for TypedUnits {
    fn drop(self) {
        let TypedUnits {
            units: _,
            bits: _,
            world: _,
            skipped: _,
        } = self;
    }
}

impl TypedUnits {
    // No package.
    fn empty(alloc: Global, bits: u32) -> TypedUnits
        ensures { result ≡ no_units bits }
    {
        TypedUnits {
            units: List::new(alloc),
            bits,
            world: World::empty(alloc),
            skipped: List::new(alloc),
        }
    }

    // Adds a package.
    fn add(&mut self, unit: Unit, found: CheckedPackage) -> Result<(), NoMemory>
        requires { IsWorld (with_package self.old.world found.«package» (is_public (source_of unit))) }
        ensures { OnOk result (self.new ≡ with_unit self.old unit found) }
    {
        let (package, skipped) = found.into_parts();
        self.world.add(package, is_public(&unit))?;
        self.skipped.push(skipped)?;
        self.units.push(unit)
    }
}

// The package of a number, which is taken over, or else checked over those so far.
fn found<G: Gate, L: Copy>(
    alloc: Global,
    unit: &Unit,
    number: u32,
    typed: &TypedUnits,
    earlier: &mut EarlierWorlds<'_>,
    gate: &G,
    steps: &mut Steps<L>,
) -> Result<CheckedPackage, CheckError>
    requires path { IsOfPackage unit.now.path }
    requires absent { first_with path_of typed.now.world.packages unit.now.path ≡ None }
    requires typed { AreTypedSoFar typed.now }
    requires beside { StandBeside typed.now.bits (sources typed.now.units) earlier.old }
    ensures answers { check.Answers (over typed.now.bits typed.now.world) (source_of unit.now) result }
    ensures skipped { IfOk result (λ c. IsSkipped (over typed.now.bits typed.now.world) (source_of unit.now) (all_skipped c.skipped)) }
    ensures beside { IfOk result (λ c. StandBeside typed.now.bits (sources typed.now.units ++ source_of unit.now ∷ []) earlier.new) }
    ensures steps { steps.new ≤ steps.old + 1 }
{
    match earlier.take(alloc, unit) {
        Err(NoMemory) => Err(CheckError::NoMemory),
        Ok(Some(found)) => Ok(found),
        Ok(None) => {
            gate.enter(0, number);
            check_package(alloc, unit, &typed.world, typed.bits, steps)
        }
    }
}

// Adds the package of a number to those so far.
fn add_next<G: Gate, L: Copy>(
    alloc: Global,
    unit: Unit,
    number: u32,
    earlier: &mut EarlierWorlds<'_>,
    gate: &G,
    steps: &mut Steps<L>,
    typed: &mut TypedUnits,
) -> Result<(), WorkError>
    requires path { IsOfPackage unit.path }
    requires absent { first_with path_of typed.old.world.packages unit.path ≡ None }
    requires typed { AreTypedSoFar typed.old }
    requires beside { StandBeside typed.old.bits (sources typed.old.units) earlier.old }
    ensures offered { OnOk result (IsNextTyped unit typed.old typed.new) }
    ensures beside { OnOk result (StandBeside typed.old.bits (sources typed.old.units ++ source_of unit ∷ []) earlier.new) }
    ensures refused { IfErr result (IsErrorOf typed.old.bits unit number typed.old.world) }
    ensures steps { steps.new ≤ steps.old + 1 }
{
    joins_world();
    // What a world keeps is told by its packages.
    let _packages = typed.world.packages();
    match found(alloc, &unit, number, typed, earlier, gate, steps) {
        Err(error) => Err(error_at(number, unit, error)),
        Ok(found) => match typed.add(unit, found) {
            Err(NoMemory) => Err(WorkError::NoMemory),
            Ok(()) => Ok(()),
        },
    }
}

// The packages after typing, beside those before.
fn all_typed<G: Gate, L: Copy>(
    alloc: Global,
    units: Units,
    bits: u32,
    earlier: &mut EarlierWorlds<'_>,
    gate: &G,
    steps: &mut Steps<L>,
) -> Result<TypedUnits, WorkError>
    requires bits { (bits ≡ 32) ⊎ (bits ≡ 64) }
    requires paths { AreOfPackages units.packages }
    requires beside { StandBeside bits [] earlier.old }
    ensures typed { IfOk result AreTypedUnits }
    ensures units { IfOk result (λ t. t.units ≡ units.packages) }
    ensures bits { IfOk result (λ t. t.bits ≡ bits) }
    ensures refused { IfErr result (Refuses bits (sources units.packages)) }
    ensures handed { IfErr result (HandsBack units.packages) }
    ensures steps { steps.new ≤ steps.old + length units.packages }
{
    let mut typed = TypedUnits::empty(alloc, bits);
    let mut number = 0;
    for unit in units.packages.into_vec() {
        match add_next(alloc, unit, number, earlier, gate, steps, &mut typed) {
            Ok(()) => {}
            Err(error) => return Err(error),
        }
        number += 1;
    }
    Ok(typed)
}

// These packages, where they were typed for as many bits as those that none has, and else none.
fn as_wide<'a>(given: Option<&'a TypedUnits>, none: &'a TypedUnits) -> &'a TypedUnits
    requires given { IfSome (option_copied given) AreTypedUnits }
    requires none { AreTypedUnits none.now }
    ensures typed { AreTypedUnits result.now }
    ensures bits { result.now.bits ≡ none.now.bits }
{
    match given {
        Some(typed) if typed.bits == none.bits => typed,
        _ => none,
    }
}

/// The world of a tree's packages, and what is left out of each, as `world` has them. A package that stands in one of two earlier worlds as it is written
/// here, with the same size of `int` and with all that it reaches, is taken over from there and isn't checked. The gate hears of the others as worker 0,
/// each right before it is checked. The files of all packages are kept.
pub fn typed<G: Gate, L: Copy>(
    alloc: Global,
    units: Units,
    bits: u32,
    first: Option<&TypedUnits>,
    second: Option<&TypedUnits>,
    gate: &G,
    steps: &mut Steps<L>,
) -> Result<TypedUnits, WorkError>
    requires bits { (bits ≡ 32) ⊎ (bits ≡ 64) }
    requires paths { AreOfPackages units.packages }
    requires first { IfSome (option_copied first) AreTypedUnits }
    requires second { IfSome (option_copied second) AreTypedUnits }
    ensures typed { IfOk result AreTypedUnits }
    ensures units { IfOk result (λ t. t.units ≡ units.packages) }
    ensures bits { IfOk result (λ t. t.bits ≡ bits) }
    ensures refused { IfErr result (Refuses bits (sources units.packages)) }
    ensures handed { IfErr result (HandsBack units.packages) }
    ensures steps { steps.new ≤ steps.old + length units.packages }
{
    let none = TypedUnits::empty(alloc, bits);
    match EarlierWorlds::of(alloc, as_wide(first, &none), as_wide(second, &none)) {
        Err(NoMemory) => Err(WorkError::NoMemory),
        Ok(mut earlier) => all_typed(alloc, units, bits, &mut earlier, gate, steps),
    }
}
