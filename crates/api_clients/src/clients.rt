//! What a run tells of a client on platforms.
ghost use Rattle.std.specs.Prelude.{◌≡◌, ◌≢◌, ◌<◌, ◌++◌, [], Some, IfOk, OnOk, false, length, slice_get};
ghost use Rattle.api_clients.specs.ClientAnswers.{Answers};
ghost use Rattle.api_clients.specs.ClientChecks.{CountsAtMost};
ghost use Rattle.api_clients.specs.inner.ClientSteps.{AnswersNext, IsAnsweredAlike, listed};
ghost use Rattle.api_clients.specs.inner.Outcomes.{AreOutcomes, AreTrees, IsOutcome, has_ended};
ghost use Rattle.go_base.specs.Lists.{Has};
ghost use Rattle.go_file_choices.specs.AlikePlatforms.{AreFirsts, files_of};
ghost use Rattle.go_model.specs.files.Trees.{IsTree};

use crate::chain::Chain;
use crate::outcomes::{Counted, Outcome, answered, fresh_in, outcome_on};
use crate::trees::ClientTrees;
use api_reports::clients::ClientAnswer;
use api_worlds::error::PlatformError;
use go_base::list::List;
use go_base::memory::NoMemory;
use go_base::steps::Steps;
use go_client_unit_laws::laws::alike_client_units;
use go_file_choices::alike::first_alike;
use go_model::files::platform::Platform;
use go_outside::gate::Gate;
use std::alloc::Global;
use std::thread::Threads;

// The same answer as that of this number, where there is one.
fn answer_at(
    alloc: Global,
    answers: &[ClientAnswer],
    number: usize,
) -> Result<Option<ClientAnswer>, NoMemory>
    ensures { IfOk result (λ answer. answer ≡ slice_get answers.now number) }
{
    match answers.get(number) {
        None => Ok(None),
        Some(answer) => Ok(Some(answer.copy(alloc)?)),
    }
}

fn push(answers: &mut List<ClientAnswer>, answer: Option<ClientAnswer>) -> Result<(), NoMemory>
    ensures { OnOk result (answers.new ≡ answers.old ++ listed answer) }
{
    match answer {
        None => Ok(()),
        Some(answer) => {
            answers.push(answer)?;
            Ok(())
        }
    }
}

// Adds the answer of this number once more.
fn push_again(
    alloc: Global,
    answers: &mut List<ClientAnswer>,
    number: usize,
) -> Result<(), NoMemory>
    ensures { OnOk result (answers.new ≡ answers.old ++ listed (slice_get answers.old number)) }
{
    let answer = answer_at(alloc, answers.items(), number)?;
    push(answers, answer)
}

// Adds what came of a platform, where the first one that is alike has this number: what was told there already, or what is told here.
fn add_outcome(
    alloc: Global,
    answers: &mut List<ClientAnswer>,
    first: usize,
    trees: &ClientTrees<'_>,
    platform: Platform,
    outcome: Outcome,
) -> Result<(), PlatformError>
    requires alike { first < length answers.old → IsAnsweredAlike trees.now.barred.now trees.now.tree.now trees.now.std_tree.now trees.now.client.now platform (slice_get answers.old first) }
    requires outcome { IsOutcome trees.now.barred.now trees.now.tree.now trees.now.std_tree.now trees.now.client.now first (length answers.old) platform outcome }
    ensures goes_on { OnOk result (has_ended outcome ≡ false) }
    ensures answer { AnswersNext trees.now.barred.now trees.now.tree.now trees.now.std_tree.now trees.now.client.now platform answers.old answers.new result }
{
    alike_client_units();
    match outcome {
        Outcome::Ended(error) => Err(error),
        Outcome::Alike => match push_again(alloc, answers, first) {
            Ok(()) => Ok(()),
            Err(NoMemory) => Err(PlatformError::NoMemory),
        },
        Outcome::Answered(answer) => match answers.push(answer) {
            Ok(()) => Ok(()),
            Err(NoMemory) => Err(PlatformError::NoMemory),
        },
    }
}

// What `vet_on_platforms` says, by the numbers of the first platforms that are alike, one platform after another. Each takes over from the one before.
fn vet_in_order<R: Threads + Sync, G: Gate + Sync, L: Copy + Send>(
    rt: &R,
    alloc: Global,
    workers: u32,
    firsts: &[usize],
    trees: &ClientTrees<'_>,
    platforms: &[Platform],
    gate: &G,
    steps: &mut Steps<L>,
) -> Result<List<ClientAnswer>, PlatformError>
    requires firsts { AreFirsts (files_of (Some trees.now.client.now) trees.now.tree.now trees.now.std_tree.now) platforms.now firsts.now }
    requires trees { AreTrees trees.now.barred.now trees.now.tree.now trees.now.std_tree.now trees.now.client.now }
    ensures answer { Answers trees.now.barred.now trees.now.tree.now trees.now.std_tree.now trees.now.client.now platforms.now result }
    ensures steps { CountsAtMost trees.now.barred.now trees.now.tree.now trees.now.std_tree.now trees.now.client.now platforms.now steps.old steps.new }
{
    let mut all = List::new(alloc);
    let mut chain = Chain::new(fresh_in(firsts, 0) > 1);
    for at in 0..platforms.len() {
        let outcome = outcome_on(
            rt,
            alloc,
            workers,
            trees,
            platforms[at],
            firsts[at],
            at,
            &mut chain,
            gate,
            steps,
        );
        match add_outcome(alloc, &mut all, firsts[at], trees, platforms[at], outcome) {
            Err(error) => return Err(error),
            Ok(()) => {}
        }
    }
    Ok(all)
}

// What is told, of what came of each platform.
fn gathered(
    alloc: Global,
    firsts: &[usize],
    trees: &ClientTrees<'_>,
    platforms: &[Platform],
    outcomes: List<Outcome>,
) -> Result<List<ClientAnswer>, PlatformError>
    requires firsts { AreFirsts (files_of (Some trees.now.client.now) trees.now.tree.now trees.now.std_tree.now) platforms.now firsts.now }
    requires outcomes { AreOutcomes trees.now.barred.now trees.now.tree.now trees.now.std_tree.now trees.now.client.now 0 firsts.now platforms.now outcomes }
    ensures { Answers trees.now.barred.now trees.now.tree.now trees.now.std_tree.now trees.now.client.now platforms.now result }
{
    let mut all = List::new(alloc);
    let mut rest = outcomes.into_vec().into_iter();
    for at in 0..platforms.len() {
        let Some(outcome) = rest.next() else {
            return Err(PlatformError::NoMemory);
        };
        match add_outcome(alloc, &mut all, firsts[at], trees, platforms[at], outcome) {
            Err(error) => return Err(error),
            Ok(()) => {}
        }
    }
    Ok(all)
}

// The same, where several workers look at platforms at once.
fn vet_at_once<R: Threads + Sync, G: Gate + Sync, L: Copy + Send>(
    rt: &R,
    alloc: Global,
    workers: u32,
    firsts: &[usize],
    trees: &ClientTrees<'_>,
    platforms: &[Platform],
    gate: &G,
    steps: &mut Steps<L>,
) -> Result<List<ClientAnswer>, PlatformError>
    requires firsts { AreFirsts (files_of (Some trees.now.client.now) trees.now.tree.now trees.now.std_tree.now) platforms.now firsts.now }
    requires trees { AreTrees trees.now.barred.now trees.now.tree.now trees.now.std_tree.now trees.now.client.now }
    ensures answer { Answers trees.now.barred.now trees.now.tree.now trees.now.std_tree.now trees.now.client.now platforms.now result }
    ensures steps { CountsAtMost trees.now.barred.now trees.now.tree.now trees.now.std_tree.now trees.now.client.now platforms.now steps.old steps.new }
{
    let Counted {
        outcomes,
        steps: counted,
    } = answered(
        rt,
        alloc,
        workers,
        trees,
        platforms,
        firsts,
        0,
        gate,
        steps.owner(),
    );
    steps.merge(counted);
    match outcomes {
        Err(NoMemory) => Err(PlatformError::NoMemory),
        Ok(outcomes) => gathered(alloc, firsts, trees, platforms, outcomes),
    }
}

// What `vet_on_platforms` says, by the numbers of the first platforms that are alike.
fn vet_by<R: Threads + Sync, G: Gate + Sync, L: Copy + Send>(
    rt: &R,
    alloc: Global,
    workers: u32,
    firsts: &[usize],
    trees: &ClientTrees<'_>,
    platforms: &[Platform],
    gate: &G,
    steps: &mut Steps<L>,
) -> Result<List<ClientAnswer>, PlatformError>
    requires firsts { AreFirsts (files_of (Some trees.now.client.now) trees.now.tree.now trees.now.std_tree.now) platforms.now firsts.now }
    requires trees { AreTrees trees.now.barred.now trees.now.tree.now trees.now.std_tree.now trees.now.client.now }
    ensures answer { Answers trees.now.barred.now trees.now.tree.now trees.now.std_tree.now trees.now.client.now platforms.now result }
    ensures steps { CountsAtMost trees.now.barred.now trees.now.tree.now trees.now.std_tree.now trees.now.client.now platforms.now steps.old steps.new }
{
    if workers < 2 {
        return vet_in_order(rt, alloc, workers, firsts, trees, platforms, gate, steps);
    }
    vet_at_once(rt, alloc, workers, firsts, trees, platforms, gate, steps)
}

/// What is told of a client on each of these platforms, over the packages of the module and those of the standard library that it and
/// the client reach; or `Refused` with the fault line of the first platform on which a package or the client's files are refused; or
/// `NoMemory`. So many workers look at platforms at once, and where there are more of them than platforms, at the packages of one; what is
/// told doesn't depend on their number. A worker that has a platform to itself takes over what it typed on its last platform: what stands
/// there as it is written here isn't parsed or checked again. The counter rises by at most the number of these packages on all platforms
/// together.
pub fn vet_on_platforms<R: Threads + Sync, G: Gate + Sync, L: Copy + Send>(
    rt: &R,
    alloc: Global,
    workers: u32,
    trees: &ClientTrees<'_>,
    platforms: &[Platform],
    gate: &G,
    steps: &mut Steps<L>,
) -> Result<List<ClientAnswer>, PlatformError>
    requires tree { IsTree trees.now.tree.now }
    requires std { IsTree trees.now.std_tree.now }
    requires client { IsTree trees.now.client.now }
    requires named { trees.now.tree.now.module ≢ [] }
    requires barred { Has trees.now.barred.now trees.now.tree.now.module }
    ensures answer { Answers trees.now.barred.now trees.now.tree.now trees.now.std_tree.now trees.now.client.now platforms.now result }
    ensures steps { CountsAtMost trees.now.barred.now trees.now.tree.now trees.now.std_tree.now trees.now.client.now platforms.now steps.old steps.new }
{
    // The client's files stand in the place of those of an old tree.
    match first_alike(
        alloc,
        Some(trees.client),
        trees.tree,
        trees.std_tree,
        platforms,
    ) {
        Err(NoMemory) => Err(PlatformError::NoMemory),
        Ok(firsts) => {
            let firsts = firsts.items();
            vet_by(rt, alloc, workers, firsts, trees, platforms, gate, steps)
        }
    }
}
