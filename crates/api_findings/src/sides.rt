//! What one tree of a run has on a platform, with what is listed of it, and what two trees have at once.
ghost use Rattle.std.specs.Prelude.{◌≡◌};
ghost use Rattle.std.specs.Thread.{IsSend, IsSync};
ghost use Rattle.api_findings.specs.inner.Sides.{AnswersListed, AreTrees};
ghost use Rattle.api_texts.specs.declared.lines.Side.TheVariants as side;
ghost use Rattle.api_worlds.specs.PlatformWorlds.{CountsAtMost};

use crate::listed::Listed;
use api_features::features::features;
use api_lines::line::Line;
use api_texts::lines::Side;
use api_worlds::error::PlatformError;
use api_worlds::platform_world::PlatformWorld;
use api_worlds::trees::PlatformTrees;
use api_worlds::world::world_on;
use go_base::list::List;
use go_base::memory::NoMemory;
use go_base::steps::Steps;
use go_model::laws::sendable;
use go_model::types::world::World;
use go_outside::gate::Gate;
use std::alloc::Global;
use std::thread::{Threads, join};

/// The world of one tree on a platform, and what is listed of it.
pub(crate) struct ListedWorld {
    pub world: World,
    pub listed: Listed,
}

impl Drop for ListedWorld {
    fn drop(self) {
        let ListedWorld {
            world: _,
            listed: _,
        } = self;
    }
}

impl ListedWorld {
    /// Both, moved out.
    pub(crate) fn into_parts(self) -> (World, Listed)
        ensures { result ≡ (self.world, self.listed) }
    {
        let ListedWorld { world, listed } = self;
        (world, listed)
    }

    /// What is listed, moved out.
    pub(crate) fn into_listed(self) -> Listed
        ensures { result ≡ self.listed }
    {
        let ListedWorld { world: _, listed } = self;
        listed
    }
}

/// What came of one tree in a thread, and the packages that were counted there.
pub(crate) struct CountedWorld<L> {
    pub outcome: Result<ListedWorld, PlatformError>,
    pub steps: Steps<L>,
}

fn with_lines(found: PlatformWorld, lines: List<Line>) -> ListedWorld
    ensures world { result.world ≡ found.world }
    ensures lines { result.listed.lines ≡ lines }
    ensures left_out { result.listed.left_out ≡ found.left_out }
{
    let (world, left_out) = found.into_parts();
    ListedWorld {
        world,
        listed: Listed { lines, left_out },
    }
}

/// The world of one tree on a platform, and what is listed of it.
pub(crate) fn listed_on<R: Threads + Sync, G: Gate + Sync, L: Copy + Send>(
    rt: &R,
    alloc: Global,
    side: Side,
    workers: u32,
    trees: &PlatformTrees<'_>,
    gate: &G,
    steps: &mut Steps<L>,
) -> Result<ListedWorld, PlatformError>
    requires trees { AreTrees trees.now.barred.now trees.now.tree.now trees.now.std_tree.now }
    ensures answer { AnswersListed trees.now.barred.now trees.now.tree.now trees.now.std_tree.now side trees.now.platform result }
    ensures steps { CountsAtMost trees.now.barred.now trees.now.tree.now trees.now.std_tree.now trees.now.platform steps.old steps.new }
{
    match world_on(rt, alloc, side, workers, trees, gate, steps) {
        Err(error) => Err(error),
        Ok(found) => match features(alloc, &found.world) {
            Err(NoMemory) => Err(PlatformError::NoMemory),
            Ok(lines) => Ok(with_lines(found, lines)),
        },
    }
}

// The same, with a counter of its own, which begins at none.
fn counted_on<R: Threads + Sync, G: Gate + Sync, L: Copy + Send>(
    rt: &R,
    alloc: Global,
    side: Side,
    workers: u32,
    trees: &PlatformTrees<'_>,
    gate: &G,
    owner: L,
) -> CountedWorld<L>
    requires trees { AreTrees trees.now.barred.now trees.now.tree.now trees.now.std_tree.now }
    ensures answer { AnswersListed trees.now.barred.now trees.now.tree.now trees.now.std_tree.now side trees.now.platform result.outcome }
    ensures steps { CountsAtMost trees.now.barred.now trees.now.tree.now trees.now.std_tree.now trees.now.platform 0 result.steps }
{
    let mut steps = Steps::new(owner);
    let outcome = listed_on(rt, alloc, side, workers, trees, gate, &mut steps);
    CountedWorld { outcome, steps }
}

/// The same of an old and a new tree, each in a thread of its own where one can be made, by half of the workers.
pub(crate) fn both_on<R: Threads + Sync, G: Gate + Sync, L: Copy + Send>(
    rt: &R,
    alloc: Global,
    workers: u32,
    old: &PlatformTrees<'_>,
    new: &PlatformTrees<'_>,
    gate: &G,
    owner: L,
) -> (CountedWorld<L>, CountedWorld<L>)
    requires old { AreTrees old.now.barred.now old.now.tree.now old.now.std_tree.now }
    requires new { AreTrees new.now.barred.now new.now.tree.now new.now.std_tree.now }
    ensures old { AnswersListed old.now.barred.now old.now.tree.now old.now.std_tree.now side.Old old.now.platform result.0.outcome }
    ensures old_steps { CountsAtMost old.now.barred.now old.now.tree.now old.now.std_tree.now old.now.platform 0 result.0.steps }
    ensures new { AnswersListed new.now.barred.now new.now.tree.now new.now.std_tree.now side.New new.now.platform result.1.outcome }
    ensures new_steps { CountsAtMost new.now.barred.now new.now.tree.now new.now.std_tree.now new.now.platform 0 result.1.steps }
{
    sendable();
    let half = workers / 2;
    let others = workers - half;
    let before = move || -> CountedWorld<L>
        requires { IsSync R.row × IsSync G.row × IsSend L.row × AreTrees old.now.barred.now old.now.tree.now old.now.std_tree.now }
        ensures { AnswersListed old.entry.now.barred.now old.entry.now.tree.now old.entry.now.std_tree.now side.Old old.entry.now.platform result.outcome × CountsAtMost old.entry.now.barred.now old.entry.now.tree.now old.entry.now.std_tree.now old.entry.now.platform 0 result.steps }
    { counted_on(rt, alloc, Side::Old, others, old, gate, owner) };
    let now = move || -> CountedWorld<L>
        requires { IsSync R.row × IsSync G.row × IsSend L.row × AreTrees new.now.barred.now new.now.tree.now new.now.std_tree.now }
        ensures { AnswersListed new.entry.now.barred.now new.entry.now.tree.now new.entry.now.std_tree.now side.New new.entry.now.platform result.outcome × CountsAtMost new.entry.now.barred.now new.entry.now.tree.now new.entry.now.std_tree.now new.entry.now.platform 0 result.steps }
    { counted_on(rt, alloc, Side::New, half, new, gate, owner) };
    join(rt, before, now)
}
