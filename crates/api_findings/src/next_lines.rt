//! The features of a tree on a platform, of which those stay that packages had on the platform before, or have in the old tree.
ghost use Rattle.std.specs.Prelude.{◌≡◌, IfOk, IfSome};
ghost use Rattle.std.specs.Option.{option_copied};
ghost use Rattle.api_features.specs.Features.{IsFeature};
ghost use Rattle.api_findings.specs.inner.NextLines.{AreFeatured};
ghost use Rattle.api_lines.specs.Lines.{IsListing};
ghost use Rattle.api_shared_features.specs.UnitWorlds.{IsUnitWorld};
ghost use Rattle.api_worlds.specs.go_work.TypedUnits.{AreTypedUnits};

use api_features::features::features;
use api_lines::copies::lines_copied;
use api_lines::line::Line;
use api_shared_features::after::features_after;
use api_shared_features::unit_world::UnitWorld;
use api_worlds::go_work::typed::TypedUnits;
use go_base::list::List;
use go_base::memory::NoMemory;
use std::alloc::Global;

/// Packages as they were typed, and the features of their world.
pub(crate) struct FeaturedUnits {
    pub typed: TypedUnits,
    pub lines: List<Line>,
}

impl Drop for FeaturedUnits {
    fn drop(self) {
        let FeaturedUnits { typed: _, lines: _ } = self;
    }
}

fn unit_world(typed: &TypedUnits) -> UnitWorld<'_>
    requires { AreTypedUnits typed.now }
    ensures is { IsUnitWorld result }
    ensures world { result.world.now ≡ typed.now.world }
{
    UnitWorld {
        units: typed.units.items(),
        bits: typed.bits,
        world: &typed.world,
    }
}

impl FeaturedUnits {
    // The features of packages that were typed after these.
    fn features_of(self, alloc: Global, typed: &TypedUnits) -> Result<List<Line>, NoMemory>
        requires before { AreFeatured self }
        requires typed { AreTypedUnits typed.now }
        ensures { IfOk result (IsListing (IsFeature typed.now.world)) }
    {
        let FeaturedUnits {
            typed: earlier,
            lines,
        } = self;
        features_after(alloc, &unit_world(&earlier), lines, &unit_world(typed))
    }
}

/// The packages, where there are any.
pub(crate) fn borrowed(before: &Option<TypedUnits>) -> Option<&TypedUnits>
    requires { IfSome before.now AreTypedUnits }
    ensures { IfSome (option_copied result) AreTypedUnits }
{
    match before {
        None => None,
        Some(before) => Some(before),
    }
}

/// The packages that stand beside features, where there are any.
pub(crate) fn typed_of(before: &Option<FeaturedUnits>) -> Option<&TypedUnits>
    requires { IfSome before.now AreFeatured }
    ensures { IfSome (option_copied result) AreTypedUnits }
{
    match before {
        None => None,
        Some(before) => Some(&before.typed),
    }
}

/// A copy of features, where it's kept for further platforms.
pub(crate) fn copy_if(
    alloc: Global,
    keeps: bool,
    lines: &List<Line>,
) -> Result<Option<List<Line>>, NoMemory>
    ensures { IfOk result (λ kept. IfSome kept (λ copy. copy ≡ lines.now)) }
{
    if !keeps {
        return Ok(None);
    }
    let copy = lines_copied(alloc, lines.items())?;
    Ok(Some(copy))
}

/// Packages with their features, where these are kept.
pub(crate) fn with_features(typed: TypedUnits, lines: Option<List<Line>>) -> Option<FeaturedUnits>
    requires typed { AreTypedUnits typed }
    requires lines { IfSome lines (IsListing (IsFeature typed.world)) }
    ensures { IfSome result AreFeatured }
{
    match lines {
        None => None,
        Some(lines) => Some(FeaturedUnits { typed, lines }),
    }
}

/// The features of packages as they were typed. Those of packages that are taken over from earlier ones stay.
pub(crate) fn next_features(
    alloc: Global,
    typed: &TypedUnits,
    before: Option<FeaturedUnits>,
) -> Result<List<Line>, NoMemory>
    requires typed { AreTypedUnits typed.now }
    requires before { IfSome before AreFeatured }
    ensures { IfOk result (IsListing (IsFeature typed.now.world)) }
{
    match before {
        None => features(alloc, &typed.world),
        Some(before) => before.features_of(alloc, typed),
    }
}

/// The features of packages as they were typed beside others that have these features. Those of packages that are taken over from there stay.
pub(crate) fn features_beside(
    alloc: Global,
    typed: &TypedUnits,
    other: &TypedUnits,
    lines: &List<Line>,
) -> Result<List<Line>, NoMemory>
    requires typed { AreTypedUnits typed.now }
    requires other { AreTypedUnits other.now }
    requires lines { IsListing (IsFeature other.now.world) lines.now }
    ensures { IfOk result (IsListing (IsFeature typed.now.world)) }
{
    let stay = lines_copied(alloc, lines.items())?;
    features_after(alloc, &unit_world(other), stay, &unit_world(typed))
}
