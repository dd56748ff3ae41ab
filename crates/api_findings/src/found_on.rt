//! What is found on one platform.
ghost use Rattle.std.specs.Prelude.{◌∷◌, [], IfOk, Some, None};
ghost use Rattle.std.specs.Option.{option_copied};
ghost use Rattle.api_findings.specs.Checks.{CountsAtMost};
ghost use Rattle.api_findings.specs.Findings.{IsLeftOut, IsOldTree};
ghost use Rattle.api_findings.specs.inner.Chains.{IsChain};
ghost use Rattle.api_findings.specs.inner.Found.{AnswersFound};
ghost use Rattle.api_findings.specs.inner.Sides.{AnswersListed, AreTrees, IsListedOn};
ghost use Rattle.api_texts.specs.declared.lines.Side.TheVariants as side;

use crate::chain::Chain;
use crate::found::{Found, featured, verdict_of};
use crate::next_found::{features_next, verdict_next};
use crate::sides::{CountedWorld, ListedWorld, both_on, listed_on};
use crate::trees::RunTrees;
use api_texts::lines::Side;
use api_worlds::error::PlatformError;
use api_worlds::trees::PlatformTrees;
use go_base::steps::Steps;
use go_model::files::platform::Platform;
use go_model::files::tree::Tree;
use go_outside::gate::Gate;
use std::alloc::Global;
use std::thread::Threads;

// What is found on a platform where there is no old tree. No package is taken over, and none is kept.
fn features_alone<R: Threads + Sync, G: Gate + Sync, L: Copy + Send>(
    rt: &R,
    alloc: Global,
    workers: u32,
    trees: &RunTrees<'_>,
    platform: Platform,
    gate: &G,
    steps: &mut Steps<L>,
) -> Result<Found, PlatformError>
    requires trees { AreTrees trees.now.barred.now trees.now.tree.now trees.now.std_tree.now }
    ensures answer { AnswersFound trees.now.barred.now None trees.now.tree.now trees.now.std_tree.now platform result }
    ensures left_out { IfOk result (λ found. IsLeftOut trees.now.barred.now trees.now.std_tree.now None trees.now.tree.now platform found.left_out) }
    ensures steps { CountsAtMost trees.now.barred.now None trees.now.tree.now trees.now.std_tree.now (platform ∷ []) steps.old steps.new }
{
    match listed_on(
        rt,
        alloc,
        Side::New,
        workers,
        &PlatformTrees {
            tree: trees.tree,
            std_tree: trees.std_tree,
            barred: trees.barred,
            platform,
        },
        gate,
        steps,
    ) {
        Err(error) => Err(error),
        Ok(new) => Ok(featured(new.into_listed())),
    }
}

// The same, where packages are taken over if one worker looks at several platforms.
fn features_on<R: Threads + Sync, G: Gate + Sync, L: Copy + Send>(
    rt: &R,
    alloc: Global,
    workers: u32,
    trees: &RunTrees<'_>,
    platform: Platform,
    chain: &mut Chain,
    gate: &G,
    steps: &mut Steps<L>,
) -> Result<Found, PlatformError>
    requires trees { AreTrees trees.now.barred.now trees.now.tree.now trees.now.std_tree.now }
    requires chain { IsChain chain.old }
    ensures answer { AnswersFound trees.now.barred.now None trees.now.tree.now trees.now.std_tree.now platform result }
    ensures left_out { IfOk result (λ found. IsLeftOut trees.now.barred.now trees.now.std_tree.now None trees.now.tree.now platform found.left_out) }
    ensures chain { IsChain chain.new }
    ensures steps { CountsAtMost trees.now.barred.now None trees.now.tree.now trees.now.std_tree.now (platform ∷ []) steps.old steps.new }
{
    if workers < 2 && chain.keeps {
        return features_next(alloc, trees, platform, chain, gate, steps);
    }
    features_alone(rt, alloc, workers, trees, platform, gate, steps)
}

// What is found on a platform where the old tree has a world, and the new one that, or none.
fn verdict_with(
    alloc: Global,
    old_tree: &Tree,
    trees: &RunTrees<'_>,
    platform: Platform,
    old: &ListedWorld,
    new: Result<ListedWorld, PlatformError>,
) -> Result<Found, PlatformError>
    requires old_tree { IsOldTree trees.now.barred.now (Some old_tree.now) }
    requires trees { AreTrees trees.now.barred.now trees.now.tree.now trees.now.std_tree.now }
    requires old { IsListedOn trees.now.barred.now old_tree.now trees.now.std_tree.now platform old.now.world old.now.listed }
    requires new { AnswersListed trees.now.barred.now trees.now.tree.now trees.now.std_tree.now side.New platform new }
    ensures answer { AnswersFound trees.now.barred.now (Some old_tree.now) trees.now.tree.now trees.now.std_tree.now platform result }
    ensures left_out { IfOk result (λ found. IsLeftOut trees.now.barred.now trees.now.std_tree.now (Some old_tree.now) trees.now.tree.now platform found.left_out) }
{
    match new {
        Err(error) => Err(error),
        Ok(new) => {
            let (world, listed) = new.into_parts();
            verdict_of(
                alloc,
                old_tree,
                trees,
                platform,
                &old.world,
                &old.listed,
                &world,
                listed,
            )
        }
    }
}

// What is found on a platform where there is an old tree, and both trees are looked at at once.
fn verdict_at_once<R: Threads + Sync, G: Gate + Sync, L: Copy + Send>(
    rt: &R,
    alloc: Global,
    workers: u32,
    old_tree: &Tree,
    trees: &RunTrees<'_>,
    platform: Platform,
    gate: &G,
    steps: &mut Steps<L>,
) -> Result<Found, PlatformError>
    requires old { IsOldTree trees.now.barred.now (Some old_tree.now) }
    requires trees { AreTrees trees.now.barred.now trees.now.tree.now trees.now.std_tree.now }
    ensures answer { AnswersFound trees.now.barred.now (Some old_tree.now) trees.now.tree.now trees.now.std_tree.now platform result }
    ensures left_out { IfOk result (λ found. IsLeftOut trees.now.barred.now trees.now.std_tree.now (Some old_tree.now) trees.now.tree.now platform found.left_out) }
    ensures steps { CountsAtMost trees.now.barred.now (Some old_tree.now) trees.now.tree.now trees.now.std_tree.now (platform ∷ []) steps.old steps.new }
{
    let (before, now) = both_on(
        rt,
        alloc,
        workers,
        &PlatformTrees {
            tree: old_tree,
            std_tree: trees.std_tree,
            barred: trees.barred,
            platform,
        },
        &PlatformTrees {
            tree: trees.tree,
            std_tree: trees.std_tree,
            barred: trees.barred,
            platform,
        },
        gate,
        steps.owner(),
    );
    let CountedWorld {
        outcome: old,
        steps: old_steps,
    } = before;
    let CountedWorld {
        outcome: new,
        steps: new_steps,
    } = now;
    steps.merge(old_steps);
    steps.merge(new_steps);
    match old {
        Err(error) => Err(error),
        Ok(old) => verdict_with(alloc, old_tree, trees, platform, &old, new),
    }
}

// The same, by so many workers. A single one looks at one tree after the other.
fn verdict_on<R: Threads + Sync, G: Gate + Sync, L: Copy + Send>(
    rt: &R,
    alloc: Global,
    workers: u32,
    old_tree: &Tree,
    trees: &RunTrees<'_>,
    platform: Platform,
    chain: &mut Chain,
    gate: &G,
    steps: &mut Steps<L>,
) -> Result<Found, PlatformError>
    requires old { IsOldTree trees.now.barred.now (Some old_tree.now) }
    requires trees { AreTrees trees.now.barred.now trees.now.tree.now trees.now.std_tree.now }
    requires chain { IsChain chain.old }
    ensures answer { AnswersFound trees.now.barred.now (Some old_tree.now) trees.now.tree.now trees.now.std_tree.now platform result }
    ensures left_out { IfOk result (λ found. IsLeftOut trees.now.barred.now trees.now.std_tree.now (Some old_tree.now) trees.now.tree.now platform found.left_out) }
    ensures chain { IsChain chain.new }
    ensures steps { CountsAtMost trees.now.barred.now (Some old_tree.now) trees.now.tree.now trees.now.std_tree.now (platform ∷ []) steps.old steps.new }
{
    if workers < 2 {
        return verdict_next(alloc, old_tree, trees, platform, chain, gate, steps);
    }
    verdict_at_once(rt, alloc, workers, old_tree, trees, platform, gate, steps)
}

/// What is found on a platform: what `find` says, on it alone. Two workers look at both trees at once; a single one takes over from the platform before.
pub(crate) fn found_on<R: Threads + Sync, G: Gate + Sync, L: Copy + Send>(
    rt: &R,
    alloc: Global,
    workers: u32,
    trees: &RunTrees<'_>,
    platform: Platform,
    chain: &mut Chain,
    gate: &G,
    steps: &mut Steps<L>,
) -> Result<Found, PlatformError>
    requires old { IsOldTree trees.now.barred.now (option_copied trees.now.old_tree) }
    requires trees { AreTrees trees.now.barred.now trees.now.tree.now trees.now.std_tree.now }
    requires chain { IsChain chain.old }
    ensures answer { AnswersFound trees.now.barred.now (option_copied trees.now.old_tree) trees.now.tree.now trees.now.std_tree.now platform result }
    ensures left_out { IfOk result (λ found. IsLeftOut trees.now.barred.now trees.now.std_tree.now (option_copied trees.now.old_tree) trees.now.tree.now platform found.left_out) }
    ensures chain { IsChain chain.new }
    ensures steps { CountsAtMost trees.now.barred.now (option_copied trees.now.old_tree) trees.now.tree.now trees.now.std_tree.now (platform ∷ []) steps.old steps.new }
{
    match trees.old_tree {
        None => features_on(rt, alloc, workers, trees, platform, chain, gate, steps),
        Some(old_tree) => verdict_on(
            rt, alloc, workers, old_tree, trees, platform, chain, gate, steps,
        ),
    }
}
