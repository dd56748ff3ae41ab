//! What is found on one platform, by the worlds that trees have there.
ghost use Rattle.std.specs.Prelude.{◌≡◌, IfOk, Some, None};
ghost use Rattle.api_features.specs.Features.{IsFeature};
ghost use Rattle.api_findings.specs.Findings.{IsLeftOut, IsOldTree};
ghost use Rattle.api_findings.specs.inner.Found.{AnswersFound, IsCompared, left_out_alone, left_out_of};
ghost use Rattle.api_findings.specs.inner.Sides.{AreTrees, IsListedOn};
ghost use Rattle.api_correspond.specs.SharedStd.{ShareStd};
ghost use Rattle.api_lines.specs.Lines.{IsListing};

use crate::listed::Listed;
use crate::trees::RunTrees;
use api_judge::judge::judge_listed;
use api_judge::verdict::Verdict;
use api_lines::line::Line;
use api_texts::left_out::LeftOut;
use api_worlds::error::PlatformError;
use go_base::list::List;
use go_base::memory::NoMemory;
use go_model::files::platform::Platform;
use go_model::files::tree::Tree;
use go_model::types::world::World;
use go_reading::laws::unit_paths;
use go_std_worlds::laws::same_std_packages;
use std::alloc::Global;

/// What is found on one platform.
pub(crate) struct Found {
    /// The features of the new tree, without contexts.
    pub lines: List<Line>,
    /// The verdict, where there is an old tree.
    pub verdict: Option<Verdict>,
    /// What was left out of the trees.
    pub left_out: LeftOut,
}

impl Drop for Found {
    fn drop(self) {
        let Found {
            lines: _,
            verdict: _,
            left_out: _,
        } = self;
    }
}

impl Found {
    /// The features, the verdict and what was left out, moved out.
    pub(crate) fn into_parts(self) -> (List<Line>, Option<Verdict>, LeftOut)
        ensures { result ≡ (self.lines, self.verdict, self.left_out) }
    {
        let Found {
            lines,
            verdict,
            left_out,
        } = self;
        (lines, verdict, left_out)
    }
}

/// The features of a new tree, and no verdict.
pub(crate) fn featured(new: Listed) -> Found
    ensures verdict { result.verdict ≡ None }
    ensures lines { result.lines ≡ new.lines }
    ensures left_out { result.left_out ≡ left_out_alone new.left_out }
{
    let (lines, left_out) = new.into_parts();
    Found {
        lines,
        verdict: None,
        left_out: LeftOut {
            old: 0,
            new: left_out,
        },
    }
}

// The features of the new world, and the verdict on both.
fn compared(
    alloc: Global,
    old_world: &World,
    old: &Listed,
    new_world: &World,
    new: Listed,
) -> Result<Found, NoMemory>
    requires shared { ShareStd old_world.now new_world.now }
    requires old { IsListing (IsFeature old_world.now) old.now.lines }
    requires new { IsListing (IsFeature new_world.now) new.lines }
    ensures found { IfOk result (IsCompared old_world.now new_world.now) }
    ensures left_out { IfOk result (λ found. found.left_out ≡ left_out_of old.now.left_out new.left_out) }
{
    let verdict = judge_listed(
        alloc,
        old_world,
        new_world,
        old.lines.items(),
        new.lines.items(),
    )?;
    let (lines, left_out) = new.into_parts();
    Ok(Found {
        lines,
        verdict: Some(verdict),
        left_out: LeftOut {
            old: old.left_out.items().len(),
            new: left_out,
        },
    })
}

/// What is found on a platform, where both trees have these worlds there.
pub(crate) fn verdict_of(
    alloc: Global,
    old_tree: &Tree,
    trees: &RunTrees<'_>,
    platform: Platform,
    old_world: &World,
    old: &Listed,
    new_world: &World,
    new: Listed,
) -> Result<Found, PlatformError>
    requires old_tree { IsOldTree trees.now.barred.now (Some old_tree.now) }
    requires trees { AreTrees trees.now.barred.now trees.now.tree.now trees.now.std_tree.now }
    requires old { IsListedOn trees.now.barred.now old_tree.now trees.now.std_tree.now platform old_world.now old.now }
    requires new { IsListedOn trees.now.barred.now trees.now.tree.now trees.now.std_tree.now platform new_world.now new }
    ensures answer { AnswersFound trees.now.barred.now (Some old_tree.now) trees.now.tree.now trees.now.std_tree.now platform result }
    ensures left_out { IfOk result (λ found. IsLeftOut trees.now.barred.now trees.now.std_tree.now (Some old_tree.now) trees.now.tree.now platform found.left_out) }
{
    same_std_packages();
    unit_paths();
    match compared(alloc, old_world, old, new_world, new) {
        Ok(found) => Ok(found),
        Err(NoMemory) => Err(PlatformError::NoMemory),
    }
}
