//! The features of packages, of which those stay that earlier packages had.
ghost use Rattle.std.specs.Prelude.{◌≡◌, [], true, IfOk, OnOk};
ghost use Rattle.api_features.specs.Features.{IsFeature};
ghost use Rattle.api_lines.specs.Lines.{IsListing};
ghost use Rattle.api_shared_features.specs.UnitWorlds.{IsUnitWorld, sources};
ghost use Rattle.api_shared_features.specs.inner.KeptFeatures.{AreKept, GoesOn, IsPlain, IsSomeTakenAndPublic, IsTakenAndPublic};
ghost use Rattle.go_base.specs.Growing.{Grows};
ghost use Rattle.go_base.specs.Lists.{Each};
ghost use Rattle.go_sources.specs.UnitSources.{source_of};
ghost use Rattle.go_taken_units.specs.go_taken_packages.InOrder.{HavePathsOfTheirOwn};
ghost use Rattle.go_taken_units.specs.go_taken_packages.TakenPaths.{AreTaken};
ghost use Rattle.go_taken_units.specs.go_taken_packages.ToldPackages.{is_among};

use crate::laws::shared_features;
use crate::unit_world::UnitWorld;
use api_features::features::{features, features_except};
use api_lines::at_paths::lines_at;
use api_lines::join::joined;
use api_lines::line::Line;
use api_lines::texts::Texts;
use go_base::list::List;
use go_base::memory::NoMemory;
use go_base::text::Text;
use go_taken_units::laws::taken_so_far;
use go_taken_units::taken::TakenUnits;
use go_units::unit::Unit;
use std::alloc::Global;
use std::collections::BTreeSet;

// Takes the next package over where it can be.
fn take_next(alloc: Global, taken: &mut TakenUnits<'_>, unit: &Unit) -> Result<(), NoMemory>
    ensures earlier { OnOk result (taken.new.earlier.now ≡ taken.old.earlier.now) }
    ensures on { OnOk result (GoesOn (source_of unit.now) taken.old taken.new) }
{
    taken_so_far();
    match taken.next(alloc, unit)? {
        None => Ok(()),
        Some(_) => Ok(()),
    }
}

// Which packages are taken over from earlier ones.
fn taken_units<'a>(
    alloc: Global,
    earlier: &'a [Unit],
    units: &[Unit],
) -> Result<TakenUnits<'a>, NoMemory>
    requires { HavePathsOfTheirOwn (sources earlier.now) }
    ensures { IfOk result (λ taken. AreTaken (sources earlier.entry.now) (sources units.now) (is_among taken.taken.keys)) }
{
    taken_so_far();
    let mut taken = TakenUnits::new(alloc, earlier)?;
    for unit in units {
        take_next(alloc, &mut taken, unit)?;
    }
    Ok(taken)
}

fn is_taken(taken: &BTreeSet<Text>, path: &Text) -> bool
    ensures { result ≡ is_among taken.now.keys path.now }
{
    taken.contains(path)
}

// Adds the path, where it was taken and is public.
fn add_kept(
    taken: &BTreeSet<Text>,
    public: &Texts,
    path: &Text,
    kept: &mut Texts,
) -> Result<(), NoMemory>
    ensures { OnOk result (Grows (IsTakenAndPublic taken.now.keys public.now path.now) kept.old kept.new) }
{
    if !is_taken(taken, path) {
        return Ok(());
    }
    if !public.has(path) {
        return Ok(());
    }
    kept.add(path.copy()?)?;
    Ok(())
}

// The paths that were taken and are public, among these.
fn public_taken(
    alloc: Global,
    taken: &BTreeSet<Text>,
    public: &Texts,
    paths: &[Text],
) -> Result<Texts, NoMemory>
    ensures { IfOk result (Grows (IsSomeTakenAndPublic taken.now.keys public.now paths.now) []) }
{
    let mut kept = Texts::new(alloc);
    for path in paths {
        add_kept(taken, public, path, &mut kept)?;
    }
    Ok(kept)
}

// The paths of packages whose features stay: they are public in both worlds, which share them.
fn kept_paths(
    alloc: Global,
    earlier: &UnitWorld<'_>,
    next: &UnitWorld<'_>,
) -> Result<Texts, NoMemory>
    requires earlier { IsUnitWorld earlier.now }
    requires next { IsUnitWorld next.now }
    requires bits { earlier.now.bits ≡ next.now.bits }
    ensures { IfOk result (λ kept. AreKept kept earlier.now.world.now next.now.world.now) }
{
    let public = Texts::of(alloc, next.world.public())?;
    let taken = taken_units(alloc, earlier.units, next.units)?;
    let kept = public_taken(alloc, &taken.taken, &public, earlier.world.public())?;
    Ok(kept)
}

fn is_plain(path: &[u8]) -> bool
    ensures { result ≡ true → IsPlain path.now }
{
    for byte in path {
        if *byte == b',' {
            return false;
        }
    }
    true
}

// Whether no path has a comma, so that the text of a line tells its path.
fn are_plain(paths: &[Text]) -> bool
    ensures { result ≡ true → Each IsPlain paths.now }
{
    for path in paths {
        if !is_plain(path.bytes()) {
            return false;
        }
    }
    true
}

// The features of the next packages, where the earlier ones have these, and no path of theirs has a comma.
fn features_over(
    alloc: Global,
    earlier: &UnitWorld<'_>,
    lines: List<Line>,
    next: &UnitWorld<'_>,
) -> Result<List<Line>, NoMemory>
    requires earlier { IsUnitWorld earlier.now }
    requires next { IsUnitWorld next.now }
    requires bits { earlier.now.bits ≡ next.now.bits }
    requires plain { Each IsPlain earlier.now.world.now.publics }
    requires lines { IsListing (IsFeature earlier.now.world.now) lines }
    ensures { IfOk result (IsListing (IsFeature next.now.world.now)) }
{
    shared_features();
    // What a world keeps is told by its packages.
    let _packages = next.world.packages();
    let _others = earlier.world.packages();
    let kept = kept_paths(alloc, earlier, next)?;
    let fresh = features_except(alloc, next.world, &kept)?;
    let stay = lines_at(alloc, lines, &kept)?;
    let all = joined(alloc, stay, fresh)?;
    Ok(all)
}

/// The features of packages as they were typed, where the features of earlier ones are given. Those of packages that are taken over from there stay, with
/// one size of `int`, and aren't made again.
pub fn features_after(
    alloc: Global,
    earlier: &UnitWorld<'_>,
    lines: List<Line>,
    next: &UnitWorld<'_>,
) -> Result<List<Line>, NoMemory>
    requires earlier { IsUnitWorld earlier.now }
    requires next { IsUnitWorld next.now }
    requires lines { IsListing (IsFeature earlier.now.world.now) lines }
    ensures { IfOk result (IsListing (IsFeature next.now.world.now)) }
{
    if earlier.bits != next.bits {
        return features(alloc, next.world);
    }
    if !are_plain(earlier.world.public()) {
        return features(alloc, next.world);
    }
    features_over(alloc, earlier, lines, next)
}
