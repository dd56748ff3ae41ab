//! The judge.
ghost use Rattle.std.specs.Prelude.{◌≡◌, IfOk};
ghost use Rattle.std.specs.List.{list_any};
ghost use Rattle.api_features.specs.Features.{IsFeature};
ghost use Rattle.api_correspond.specs.SharedStd.{ShareStd};
ghost use Rattle.api_judge.specs.Verdicts.{IsVerdict, class_of, has_break, is_changed};
ghost use Rattle.api_lines.specs.Lines.{IsListing};

use crate::changes::differ;
use crate::listing::told_breaks;
use crate::verdict::Verdict;
use api_advice::class::Class;
use api_features::features::features;
use api_lines::line::Line;
use go_base::memory::NoMemory;
use go_model::types::world::World;
use std::alloc::Global;

/// What `judge` says, over the features of both worlds, which are given.
pub fn judge_listed(
    alloc: Global,
    old: &World,
    new: &World,
    before: &[Line],
    after: &[Line],
) -> Result<Verdict, NoMemory>
    requires shared { ShareStd old.now new.now }
    requires before { IsListing (IsFeature old.now) before.now }
    requires after { IsListing (IsFeature new.now) after.now }
    ensures { IfOk result (IsVerdict old.now new.now) }
{
    let breaks = told_breaks(alloc, old, new)?;
    let changed = differ(alloc, before, after)?;
    Ok(Verdict { breaks, changed })
}

/// What is broken where `new` takes the place of `old`, and whether their features differ. What both have at one path is of the
/// standard library in both or in neither, and there it is the same.
pub fn judge(alloc: Global, old: &World, new: &World) -> Result<Verdict, NoMemory>
    requires { ShareStd old.now new.now }
    ensures { IfOk result (IsVerdict old.now new.now) }
{
    let before = features(alloc, old)?;
    let after = features(alloc, new)?;
    judge_listed(alloc, old, new, before.items(), after.items())
}

/// Whether one of these verdicts says that something is broken.
pub fn is_any_broken(verdicts: &[Verdict]) -> bool
    ensures { result ≡ list_any has_break verdicts.now }
{
    verdicts.iter().any(|verdict| verdict.has_break())
}

fn is_any_changed(verdicts: &[Verdict]) -> bool
    ensures { result ≡ list_any is_changed verdicts.now }
{
    verdicts.iter().any(|verdict| verdict.changed)
}

/// How much a release changes by its verdicts, platform by platform: `Major` where one says that something is broken; else `Minor`
/// where one says that the feature lines differ; else `Patch`.
pub fn class(verdicts: &[Verdict]) -> Class
    ensures { result ≡ class_of verdicts.now }
{
    if is_any_broken(verdicts) {
        return Class::Major;
    }
    if is_any_changed(verdicts) {
        return Class::Minor;
    }
    Class::Patch
}
