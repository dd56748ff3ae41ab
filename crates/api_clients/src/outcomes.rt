//! What comes of platforms, also of several at once.
ghost use Rattle.std.specs.Prelude.{◌≡◌, ◌<◌, ◌≤◌, ◌+◌, ◌++◌, ◌^◌, ◌∷◌, [], true, false, length, IfOk};
ghost use Rattle.std.specs.Thread.{IsSend, IsSync};
ghost use Rattle.api_clients.specs.ClientChecks.{CountsAtMost};
ghost use Rattle.api_clients.specs.inner.Chains.{IsChain};
ghost use Rattle.api_clients.specs.inner.Outcomes.{AreAppended, AreOutcomes, AreTrees, IsOutcome, has_ended};

use crate::answers::answer_on;
use crate::chain::Chain;
use crate::trees::ClientTrees;
use api_reports::clients::ClientAnswer;
use api_worlds::error::PlatformError;
use go_base::list::List;
use go_base::memory::NoMemory;
use go_base::steps::Steps;
use go_model::files::platform::Platform;
use go_outside::gate::Gate;
use std::alloc::Global;
use std::thread::{Threads, join};

/// What comes of one platform.
#[derive(Drop)]
pub(crate) enum Outcome {
    /// All files are chosen there as on an earlier one.
    Alike,
    /// What is told there.
    Answered(ClientAnswer),
    Ended(PlatformError),
}

/// What came of some platforms in a thread, and the packages that were counted there.
pub(crate) struct Counted<L> {
    pub outcomes: Result<List<Outcome>, NoMemory>,
    pub steps: Steps<L>,
}

/// What comes of the platform of this number, where the first one that is alike has that number. So many workers share the packages; a single one takes over
/// from the platform before.
pub(crate) fn outcome_on<R: Threads + Sync, G: Gate + Sync, L: Copy + Send>(
    rt: &R,
    alloc: Global,
    workers: u32,
    trees: &ClientTrees<'_>,
    platform: Platform,
    first: usize,
    number: usize,
    chain: &mut Chain,
    gate: &G,
    steps: &mut Steps<L>,
) -> Outcome
    requires trees { AreTrees trees.now.barred.now trees.now.tree.now trees.now.std_tree.now trees.now.client.now }
    requires chain { IsChain chain.old }
    ensures chain { IsChain chain.new }
    ensures outcome { IsOutcome trees.now.barred.now trees.now.tree.now trees.now.std_tree.now trees.now.client.now first number platform result }
    ensures steps { CountsAtMost trees.now.barred.now trees.now.tree.now trees.now.std_tree.now trees.now.client.now (platform ∷ []) steps.old steps.new }
{
    if first < number {
        return Outcome::Alike;
    }
    match answer_on(rt, alloc, workers, trees, platform, chain, gate, steps) {
        Err(error) => Outcome::Ended(error),
        Ok(answer) => Outcome::Answered(answer),
    }
}

/// How many of the platforms aren't alike to an earlier one.
pub(crate) fn fresh_in(firsts: &[usize], start: usize) -> usize
    requires { start + length firsts.now < 2 ^ 64 }
    ensures { result ≤ length firsts.now }
{
    let mut fresh = 0;
    for at in 0..firsts.len() {
        if firsts[at] >= start + at {
            fresh += 1;
        }
    }
    fresh
}

fn has_ended(outcome: &Outcome) -> bool
    ensures { result ≡ has_ended outcome.now }
{
    match outcome {
        Outcome::Alike => false,
        Outcome::Answered(_) => false,
        Outcome::Ended(_) => true,
    }
}

// What comes of the platforms one after another, until an error; the first one has this number. Each takes over from the one before.
fn in_order<R: Threads + Sync, G: Gate + Sync, L: Copy + Send>(
    rt: &R,
    alloc: Global,
    workers: u32,
    trees: &ClientTrees<'_>,
    platforms: &[Platform],
    firsts: &[usize],
    start: usize,
    gate: &G,
    steps: &mut Steps<L>,
) -> Result<List<Outcome>, NoMemory>
    requires trees { AreTrees trees.now.barred.now trees.now.tree.now trees.now.std_tree.now trees.now.client.now }
    requires same { length firsts.now ≡ length platforms.now }
    requires few { start + length platforms.now < 2 ^ 64 }
    ensures outcomes { IfOk result (AreOutcomes trees.now.barred.now trees.now.tree.now trees.now.std_tree.now trees.now.client.now start firsts.now platforms.now) }
    ensures steps { CountsAtMost trees.now.barred.now trees.now.tree.now trees.now.std_tree.now trees.now.client.now platforms.now steps.old steps.new }
{
    let mut all = List::new(alloc);
    let mut chain = Chain::new(fresh_in(firsts, start) > 1);
    for at in 0..platforms.len() {
        let outcome = outcome_on(
            rt,
            alloc,
            workers,
            trees,
            platforms[at],
            firsts[at],
            start + at,
            &mut chain,
            gate,
            steps,
        );
        let ended = has_ended(&outcome);
        all.push(outcome)?;
        if ended {
            return Ok(all);
        }
    }
    Ok(all)
}

// The same, with a counter of its own, which begins at none.
fn alone<R: Threads + Sync, G: Gate + Sync, L: Copy + Send>(
    rt: &R,
    alloc: Global,
    workers: u32,
    trees: &ClientTrees<'_>,
    platforms: &[Platform],
    firsts: &[usize],
    start: usize,
    gate: &G,
    owner: L,
) -> Counted<L>
    requires trees { AreTrees trees.now.barred.now trees.now.tree.now trees.now.std_tree.now trees.now.client.now }
    requires same { length firsts.now ≡ length platforms.now }
    requires few { start + length platforms.now < 2 ^ 64 }
    ensures outcomes { IfOk result.outcomes (AreOutcomes trees.now.barred.now trees.now.tree.now trees.now.std_tree.now trees.now.client.now start firsts.now platforms.now) }
    ensures steps { CountsAtMost trees.now.barred.now trees.now.tree.now trees.now.std_tree.now trees.now.client.now platforms.now 0 result.steps }
{
    let mut steps = Steps::new(owner);
    let outcomes = in_order(
        rt, alloc, workers, trees, platforms, firsts, start, gate, &mut steps,
    );
    Counted { outcomes, steps }
}

fn joined(ours: List<Outcome>, theirs: List<Outcome>) -> Result<List<Outcome>, NoMemory>
    ensures { IfOk result (λ all. all ≡ ours ++ theirs) }
{
    let mut all = ours.into_vec();
    let mut more = theirs.into_vec();
    all.append(&mut more)?;
    Ok(List::from_vec(all))
}

// Those of the first platforms, and then those of the others.
fn appended(
    ours: Result<List<Outcome>, NoMemory>,
    theirs: Result<List<Outcome>, NoMemory>,
) -> Result<List<Outcome>, NoMemory>
    ensures { AreAppended result ours theirs }
{
    match ours {
        Err(NoMemory) => Err(NoMemory),
        Ok(ours) => match theirs {
            Err(NoMemory) => Err(NoMemory),
            Ok(theirs) => joined(ours, theirs),
        },
    }
}

fn together<L: Copy>(ours: Counted<L>, theirs: Counted<L>) -> Counted<L>
    ensures outcomes { AreAppended result.outcomes ours.outcomes theirs.outcomes }
    ensures steps { result.steps ≤ ours.steps + theirs.steps }
{
    let Counted {
        outcomes,
        mut steps,
    } = ours;
    let Counted {
        outcomes: others,
        steps: counted,
    } = theirs;
    steps.merge(counted);
    Counted {
        outcomes: appended(outcomes, others),
        steps,
    }
}

// The end of the platforms among which so many aren't alike to an earlier one.
fn end_of(firsts: &[usize], start: usize, many: usize) -> usize
    requires { start + length firsts.now < 2 ^ 64 }
    ensures { result ≤ length firsts.now }
{
    let mut fresh = 0;
    for at in 0..firsts.len() {
        if firsts[at] >= start + at {
            if fresh == many {
                return at;
            }
            fresh += 1;
        }
    }
    firsts.len()
}

/// What comes of platforms, whose first one has this number, by so many workers: each takes as many platforms, one after another until an error, in a thread
/// of its own where one can be made. Where there are more workers than platforms, they share the packages of one.
#[cycle(share)]
pub(crate) fn answered<R: Threads + Sync, G: Gate + Sync, L: Copy + Send>(
    rt: &R,
    alloc: Global,
    workers: u32,
    trees: &ClientTrees<'_>,
    platforms: &[Platform],
    firsts: &[usize],
    start: usize,
    gate: &G,
    owner: L,
) -> Counted<L>
    requires trees { AreTrees trees.now.barred.now trees.now.tree.now trees.now.std_tree.now trees.now.client.now }
    requires same { length firsts.now ≡ length platforms.now }
    requires few { start + length platforms.now < 2 ^ 64 }
    ensures outcomes { IfOk result.outcomes (AreOutcomes trees.now.barred.now trees.now.tree.now trees.now.std_tree.now trees.now.client.now start firsts.now platforms.now) }
    ensures steps { CountsAtMost trees.now.barred.now trees.now.tree.now trees.now.std_tree.now trees.now.client.now platforms.now 0 result.steps }
{
    let fresh = fresh_in(firsts, start);
    if workers < 2 || fresh < 2 {
        return alone(
            rt, alloc, workers, trees, platforms, firsts, start, gate, owner,
        );
    }
    let half = workers / 2;
    let others = workers - half;
    let end = end_of(firsts, start, fresh / 2);
    let next = start + end;
    let (our_platforms, their_platforms) = platforms.split_at(end);
    let (our_firsts, their_firsts) = firsts.split_at(end);
    let front = move || -> Counted<L>
        requires { IsSync R.row × IsSync G.row × IsSend L.row × AreTrees trees.now.barred.now trees.now.tree.now trees.now.std_tree.now trees.now.client.now × (length our_firsts.now ≡ length our_platforms.now) × (start + length our_platforms.now < 2 ^ 64) }
        ensures { IfOk result.outcomes (AreOutcomes trees.entry.now.barred.now trees.entry.now.tree.now trees.entry.now.std_tree.now trees.entry.now.client.now start our_firsts.entry.now our_platforms.entry.now) × CountsAtMost trees.entry.now.barred.now trees.entry.now.tree.now trees.entry.now.std_tree.now trees.entry.now.client.now our_platforms.entry.now 0 result.steps }
    {
        answered(
            rt,
            alloc,
            half,
            trees,
            our_platforms,
            our_firsts,
            start,
            gate,
            owner,
        )
    };
    let back = move || -> Counted<L>
        requires { IsSync R.row × IsSync G.row × IsSend L.row × AreTrees trees.now.barred.now trees.now.tree.now trees.now.std_tree.now trees.now.client.now × (length their_firsts.now ≡ length their_platforms.now) × (next + length their_platforms.now < 2 ^ 64) }
        ensures { IfOk result.outcomes (AreOutcomes trees.entry.now.barred.now trees.entry.now.tree.now trees.entry.now.std_tree.now trees.entry.now.client.now next their_firsts.entry.now their_platforms.entry.now) × CountsAtMost trees.entry.now.barred.now trees.entry.now.tree.now trees.entry.now.std_tree.now trees.entry.now.client.now their_platforms.entry.now 0 result.steps }
    {
        answered(
            rt,
            alloc,
            others,
            trees,
            their_platforms,
            their_firsts,
            next,
            gate,
            owner,
        )
    };
    let (ours, theirs) = join(rt, front, back);
    together(ours, theirs)
}
