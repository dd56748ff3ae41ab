//! Packages that were typed before, from which those of a tree are taken over.
ghost use Rattle.std.specs.Prelude.{◌≡◌, ◌<◌, [], Some, IfOk, IsSome, length, slice_get};
ghost use Rattle.go_base.specs.Keys.{first_with};
ghost use Rattle.go_model.specs.worlds.Worlds.{path_of};
ghost use Rattle.go_sources.specs.UnitSources.{source_of};
ghost use Rattle.go_work.specs.TypedUnits.{AreTypedUnits};
ghost use Rattle.go_work.specs.inner.EarlierUnits.{GoOn, GoesOn, IsEarlier, IsTakenFrom, IsTakenFromOne, StandBeside, StandsBeside};

use crate::copied::copied;
use crate::typed::TypedUnits;
use go_base::memory::NoMemory;
use go_check::checked::CheckedPackage;
use go_taken_units::laws::taken_so_far;
use go_taken_units::taken::TakenUnits;
use go_units::unit::Unit;
use std::alloc::Global;

/// Packages that were typed before, and which of them were taken over so far.
#[derive(Drop)]
pub(crate) struct EarlierWorld<'a> {
    pub typed: &'a TypedUnits,
    pub taken: TakenUnits<'a>,
}

// The package of a path, which has this number, with what is left out of it. Its objects and types are shared.
fn shared(
    alloc: Global,
    typed: &TypedUnits,
    path: &[u8],
    number: usize,
) -> Result<CheckedPackage, NoMemory>
    requires there { IsSome (first_with path_of typed.now.world.packages path.now) }
    requires within { number < length typed.now.skipped }
    ensures package { IfOk result (λ c. first_with path_of typed.now.world.packages path.now ≡ Some c.«package») }
    ensures skipped { IfOk result (λ c. slice_get typed.now.skipped number ≡ Some c.skipped) }
{
    let Some(found) = typed.world.package(path) else {
        unreachable!()
    };
    let package = found.share(alloc)?;
    let skipped = copied(alloc, typed.skipped.items()[number].items())?;
    Ok(CheckedPackage { package, skipped })
}

impl<'a> EarlierWorld<'a> {
    fn of(alloc: Global, typed: &'a TypedUnits) -> Result<EarlierWorld<'a>, NoMemory>
        requires { AreTypedUnits typed.now }
        ensures { IfOk result (StandsBeside typed.now.bits []) }
    {
        taken_so_far();
        let taken = TakenUnits::new(alloc, typed.units.items())?;
        Ok(EarlierWorld { typed, taken })
    }

    // The package of a unit, where it is taken over.
    fn take(&mut self, alloc: Global, unit: &Unit) -> Result<Option<CheckedPackage>, NoMemory>
        requires { IsEarlier self.old }
        ensures taken { IfOk result (IsTakenFrom self.old (source_of unit.now)) }
        ensures on { IfOk result (λ found. GoesOn (source_of unit.now) self.old self.new) }
    {
        taken_so_far();
        match self.taken.next(alloc, unit)? {
            None => Ok(None),
            Some(number) => Ok(Some(shared(alloc, self.typed, unit.path.bytes(), number)?)),
        }
    }
}

/// Packages that were typed before at two times.
#[derive(Drop)]
pub(crate) struct EarlierWorlds<'a> {
    pub first: EarlierWorld<'a>,
    pub second: EarlierWorld<'a>,
}

impl<'a> EarlierWorlds<'a> {
    /// These, of which none is taken over yet.
    pub(crate) fn of(
        alloc: Global,
        first: &'a TypedUnits,
        second: &'a TypedUnits,
    ) -> Result<EarlierWorlds<'a>, NoMemory>
        requires first { AreTypedUnits first.now }
        requires second { AreTypedUnits second.now }
        requires bits { second.now.bits ≡ first.now.bits }
        ensures { IfOk result (StandBeside first.now.bits []) }
    {
        Ok(EarlierWorlds {
            first: EarlierWorld::of(alloc, first)?,
            second: EarlierWorld::of(alloc, second)?,
        })
    }

    /// The package of a unit, where it is taken over. Both are asked, so that each one's packages are taken over as far as they go.
    pub(crate) fn take(
        &mut self,
        alloc: Global,
        unit: &Unit,
    ) -> Result<Option<CheckedPackage>, NoMemory>
        requires first { IsEarlier self.old.first }
        requires second { IsEarlier self.old.second }
        ensures taken { IfOk result (IsTakenFromOne self.old (source_of unit.now)) }
        ensures on { IfOk result (λ found. GoOn (source_of unit.now) self.old self.new) }
    {
        let first = self.first.take(alloc, unit)?;
        let second = self.second.take(alloc, unit)?;
        match first {
            Some(found) => Ok(Some(found)),
            None => Ok(second),
        }
    }
}
