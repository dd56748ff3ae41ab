//! What a run finds in its trees on platforms.
ghost use Rattle.std.specs.Prelude.{◌≡◌, ◌≢◌, ◌<◌, ◌++◌, ◌∷◌, [], IfOk, OnOk, false, get_or, length, slice_get};
ghost use Rattle.std.specs.Option.{option_copied};
ghost use Rattle.api_findings.specs.Checks.{CountsAtMost};
ghost use Rattle.api_findings.specs.Findings.{AnswersFindings, AreLeftOut, IsOldTree};
ghost use Rattle.api_findings.specs.inner.Found.{AnswersNext, IsFoundAlike, IsLeftOutAlike, IsMoreLeftOut, listed, verdicts_of};
ghost use Rattle.api_findings.specs.inner.Outcomes.{AreOutcomes, IsOutcome, has_ended};
ghost use Rattle.api_findings.specs.inner.Sides.{AreTrees};
ghost use Rattle.api_lines.specs.Lines.{AreInOrder};
ghost use Rattle.api_lines.specs.Merging.{HasNoContext};
ghost use Rattle.go_base.specs.Lists.{Each, Has};
ghost use Rattle.go_file_choices.specs.AlikePlatforms.{AreFirsts, files_of};
ghost use Rattle.go_model.specs.files.Trees.{IsTree};

use crate::chain::Chain;
use crate::copies::{left_out_at, verdict_at};
use crate::found::Found;
use crate::outcomes::{Counted, Outcome, fresh_in, outcome_on, sought};
use crate::trees::RunTrees;
use api_judge::verdict::Verdict;
use api_lines::platform_lines::PlatformLines;
use api_texts::left_out::LeftOut;
use api_worlds::error::PlatformError;
use go_base::list::List;
use go_base::memory::NoMemory;
use go_base::steps::Steps;
use go_file_choices::alike::first_alike;
use go_model::files::platform::Platform;
use go_outside::gate::Gate;
use go_unit_laws::laws::alike_units;
use std::alloc::Global;
use std::thread::Threads;

/// What a run finds in its trees on platforms.
pub struct Findings {
    /// The features of the new tree on each platform, without contexts.
    pub features: PlatformLines,
    /// The verdict on each platform, where there is an old tree, and else none.
    pub verdicts: List<Verdict>,
    /// What was left out of the trees on each platform.
    pub left_out: List<LeftOut>,
}

impl Drop for Findings {
    fn drop(self) {
        let Findings {
            features: _,
            verdicts: _,
            left_out: _,
        } = self;
    }
}

impl Findings {
    // Nothing, on no platform.
    fn none(alloc: Global) -> Findings
        ensures features { result.features ≡ [] }
        ensures verdicts { result.verdicts ≡ [] }
        ensures left_out { result.left_out ≡ [] }
    {
        Findings {
            features: PlatformLines::new(alloc),
            verdicts: List::new(alloc),
            left_out: List::new(alloc),
        }
    }

    fn push_verdict(&mut self, verdict: Option<Verdict>) -> Result<(), NoMemory>
        ensures same { self.new.features ≡ self.old.features }
        ensures left_out { self.new.left_out ≡ self.old.left_out }
        ensures verdicts { OnOk result (self.new.verdicts ≡ self.old.verdicts ++ listed verdict) }
    {
        match verdict {
            None => Ok(()),
            Some(verdict) => {
                self.verdicts.push(verdict)?;
                Ok(())
            }
        }
    }

    fn push_left_out(&mut self, left_out: Option<LeftOut>) -> Result<(), NoMemory>
        ensures features { self.new.features ≡ self.old.features }
        ensures verdicts { self.new.verdicts ≡ self.old.verdicts }
        ensures left_out { OnOk result (self.new.left_out ≡ self.old.left_out ++ listed left_out) }
    {
        match left_out {
            None => Ok(()),
            Some(left_out) => {
                self.left_out.push(left_out)?;
                Ok(())
            }
        }
    }

    // Adds what is found on one platform more.
    fn push(&mut self, alloc: Global, found: Found) -> Result<(), NoMemory>
        requires { AreInOrder found.lines }
        ensures features { OnOk result (self.new.features ≡ self.old.features ++ found.lines ∷ []) }
        ensures verdicts { OnOk result (self.new.verdicts ≡ self.old.verdicts ++ verdicts_of found) }
        ensures left_out { OnOk result (self.new.left_out ≡ self.old.left_out ++ found.left_out ∷ []) }
    {
        let (lines, verdict, left_out) = found.into_parts();
        self.features.add(alloc, lines)?;
        self.push_verdict(verdict)?;
        self.push_left_out(Some(left_out))
    }

    // Adds what was found on the platform of this number, once more.
    fn push_again(&mut self, alloc: Global, number: usize) -> Result<(), NoMemory>
        requires { number < length self.old.features }
        ensures features { OnOk result (self.new.features ≡ self.old.features ++ get_or self.old.features number [] ∷ []) }
        ensures verdicts { OnOk result (self.new.verdicts ≡ self.old.verdicts ++ listed (slice_get self.old.verdicts number)) }
        ensures left_out { OnOk result (self.new.left_out ≡ self.old.left_out ++ listed (slice_get self.old.left_out number)) }
    {
        let verdict = verdict_at(alloc, self.verdicts.items(), number)?;
        let left_out = left_out_at(alloc, self.left_out.items(), number)?;
        self.features.add_again(alloc, number)?;
        self.push_verdict(verdict)?;
        self.push_left_out(left_out)
    }
}

// Adds what came of a platform, where the first one that is alike has this number: what was found there already, or what was found here.
fn add_outcome(
    alloc: Global,
    all: &mut Findings,
    first: usize,
    trees: &RunTrees<'_>,
    platform: Platform,
    outcome: Outcome,
) -> Result<(), PlatformError>
    requires alike { first < length all.old.features → IsFoundAlike trees.now.barred.now (option_copied trees.now.old_tree) trees.now.tree.now trees.now.std_tree.now platform (get_or all.old.features first []) (slice_get all.old.verdicts first) }
    requires left_out { first < length all.old.features → IsLeftOutAlike trees.now.barred.now (option_copied trees.now.old_tree) trees.now.tree.now trees.now.std_tree.now platform (slice_get all.old.left_out first) }
    requires outcome { IsOutcome trees.now.barred.now (option_copied trees.now.old_tree) trees.now.tree.now trees.now.std_tree.now first (length all.old.features) platform outcome }
    ensures goes_on { OnOk result (has_ended outcome ≡ false) }
    ensures left_out { OnOk result (IsMoreLeftOut trees.now.barred.now (option_copied trees.now.old_tree) trees.now.tree.now trees.now.std_tree.now platform all.old.left_out all.new.left_out) }
    ensures answer { AnswersNext trees.now.barred.now (option_copied trees.now.old_tree) trees.now.tree.now trees.now.std_tree.now platform all.old.features all.old.verdicts all.new.features all.new.verdicts result }
{
    alike_units();
    match outcome {
        Outcome::Ended(error) => Err(error),
        Outcome::Alike => match all.push_again(alloc, first) {
            Ok(()) => Ok(()),
            Err(NoMemory) => Err(PlatformError::NoMemory),
        },
        Outcome::Sought(found) => match all.push(alloc, found) {
            Ok(()) => Ok(()),
            Err(NoMemory) => Err(PlatformError::NoMemory),
        },
    }
}

// What `find` says, by the numbers of the first platforms that are alike, one platform after another. Each takes over from the one before.
fn find_in_order<R: Threads + Sync, G: Gate + Sync, L: Copy + Send>(
    rt: &R,
    alloc: Global,
    workers: u32,
    firsts: &[usize],
    trees: &RunTrees<'_>,
    platforms: &[Platform],
    gate: &G,
    steps: &mut Steps<L>,
) -> Result<Findings, PlatformError>
    requires firsts { AreFirsts (files_of (option_copied trees.now.old_tree) trees.now.tree.now trees.now.std_tree.now) platforms.now firsts.now }
    requires old { IsOldTree trees.now.barred.now (option_copied trees.now.old_tree) }
    requires trees { AreTrees trees.now.barred.now trees.now.tree.now trees.now.std_tree.now }
    ensures answer { AnswersFindings trees.now.barred.now (option_copied trees.now.old_tree) trees.now.tree.now trees.now.std_tree.now platforms.now result }
    ensures left_out { IfOk result (λ found. AreLeftOut trees.now.barred.now trees.now.std_tree.now (option_copied trees.now.old_tree) trees.now.tree.now platforms.now found.left_out) }
    ensures steps { CountsAtMost trees.now.barred.now (option_copied trees.now.old_tree) trees.now.tree.now trees.now.std_tree.now platforms.now steps.old steps.new }
{
    let mut all = Findings::none(alloc);
    let mut chain = Chain::new(fresh_in(firsts, 0) > 1);
    for at in 0..platforms.len() {
        let outcome = outcome_on(
            rt,
            alloc,
            workers,
            trees,
            platforms[at],
            firsts[at],
            at,
            &mut chain,
            gate,
            steps,
        );
        match add_outcome(alloc, &mut all, firsts[at], trees, platforms[at], outcome) {
            Err(error) => return Err(error),
            Ok(()) => {}
        }
    }
    Ok(all)
}

// The findings, of what came of each platform.
fn gathered(
    alloc: Global,
    firsts: &[usize],
    trees: &RunTrees<'_>,
    platforms: &[Platform],
    outcomes: List<Outcome>,
) -> Result<Findings, PlatformError>
    requires firsts { AreFirsts (files_of (option_copied trees.now.old_tree) trees.now.tree.now trees.now.std_tree.now) platforms.now firsts.now }
    requires outcomes { AreOutcomes trees.now.barred.now (option_copied trees.now.old_tree) trees.now.tree.now trees.now.std_tree.now 0 firsts.now platforms.now outcomes }
    ensures answer { AnswersFindings trees.now.barred.now (option_copied trees.now.old_tree) trees.now.tree.now trees.now.std_tree.now platforms.now result }
    ensures left_out { IfOk result (λ found. AreLeftOut trees.now.barred.now trees.now.std_tree.now (option_copied trees.now.old_tree) trees.now.tree.now platforms.now found.left_out) }
{
    let mut all = Findings::none(alloc);
    let mut rest = outcomes.into_vec().into_iter();
    for at in 0..platforms.len() {
        let Some(outcome) = rest.next() else {
            return Err(PlatformError::NoMemory);
        };
        match add_outcome(alloc, &mut all, firsts[at], trees, platforms[at], outcome) {
            Err(error) => return Err(error),
            Ok(()) => {}
        }
    }
    Ok(all)
}

// The same, where several workers look at platforms at once.
fn find_at_once<R: Threads + Sync, G: Gate + Sync, L: Copy + Send>(
    rt: &R,
    alloc: Global,
    workers: u32,
    firsts: &[usize],
    trees: &RunTrees<'_>,
    platforms: &[Platform],
    gate: &G,
    steps: &mut Steps<L>,
) -> Result<Findings, PlatformError>
    requires firsts { AreFirsts (files_of (option_copied trees.now.old_tree) trees.now.tree.now trees.now.std_tree.now) platforms.now firsts.now }
    requires old { IsOldTree trees.now.barred.now (option_copied trees.now.old_tree) }
    requires trees { AreTrees trees.now.barred.now trees.now.tree.now trees.now.std_tree.now }
    ensures answer { AnswersFindings trees.now.barred.now (option_copied trees.now.old_tree) trees.now.tree.now trees.now.std_tree.now platforms.now result }
    ensures left_out { IfOk result (λ found. AreLeftOut trees.now.barred.now trees.now.std_tree.now (option_copied trees.now.old_tree) trees.now.tree.now platforms.now found.left_out) }
    ensures steps { CountsAtMost trees.now.barred.now (option_copied trees.now.old_tree) trees.now.tree.now trees.now.std_tree.now platforms.now steps.old steps.new }
{
    let Counted {
        outcomes,
        steps: counted,
    } = sought(
        rt,
        alloc,
        workers,
        trees,
        platforms,
        firsts,
        0,
        gate,
        steps.owner(),
    );
    steps.merge(counted);
    match outcomes {
        Err(NoMemory) => Err(PlatformError::NoMemory),
        Ok(outcomes) => gathered(alloc, firsts, trees, platforms, outcomes),
    }
}

// What `find` says, by the numbers of the first platforms that are alike.
fn find_by<R: Threads + Sync, G: Gate + Sync, L: Copy + Send>(
    rt: &R,
    alloc: Global,
    workers: u32,
    firsts: &[usize],
    trees: &RunTrees<'_>,
    platforms: &[Platform],
    gate: &G,
    steps: &mut Steps<L>,
) -> Result<Findings, PlatformError>
    requires firsts { AreFirsts (files_of (option_copied trees.now.old_tree) trees.now.tree.now trees.now.std_tree.now) platforms.now firsts.now }
    requires old { IsOldTree trees.now.barred.now (option_copied trees.now.old_tree) }
    requires trees { AreTrees trees.now.barred.now trees.now.tree.now trees.now.std_tree.now }
    ensures answer { AnswersFindings trees.now.barred.now (option_copied trees.now.old_tree) trees.now.tree.now trees.now.std_tree.now platforms.now result }
    ensures left_out { IfOk result (λ found. AreLeftOut trees.now.barred.now trees.now.std_tree.now (option_copied trees.now.old_tree) trees.now.tree.now platforms.now found.left_out) }
    ensures steps { CountsAtMost trees.now.barred.now (option_copied trees.now.old_tree) trees.now.tree.now trees.now.std_tree.now platforms.now steps.old steps.new }
{
    if workers < 2 {
        return find_in_order(rt, alloc, workers, firsts, trees, platforms, gate, steps);
    }
    find_at_once(rt, alloc, workers, firsts, trees, platforms, gate, steps)
}

/// What is found on these platforms in the new tree over the standard library's and, where there is an old tree, in both, and what was left out of them; or `Refused`
/// with the fault line of the first platform on which a tree is refused, the old one before the new; or `NoMemory`. So many workers look at platforms at
/// once, and where there are more of them than platforms, at both trees; what is found doesn't depend on their number. A worker that has a platform to
/// itself takes over what it typed before: of the same tree on its last platform, and of the old tree on this one. What stands there as it is written
/// here isn't parsed or checked again. The counter rises by at most the number of the packages of both trees on all platforms together.
pub fn find<R: Threads + Sync, G: Gate + Sync, L: Copy + Send>(
    rt: &R,
    alloc: Global,
    workers: u32,
    trees: &RunTrees<'_>,
    platforms: &[Platform],
    gate: &G,
    steps: &mut Steps<L>,
) -> Result<Findings, PlatformError>
    requires old { IsOldTree trees.now.barred.now (option_copied trees.now.old_tree) }
    requires tree { IsTree trees.now.tree.now }
    requires std { IsTree trees.now.std_tree.now }
    requires named { trees.now.tree.now.module ≢ [] }
    requires barred { Has trees.now.barred.now trees.now.tree.now.module }
    ensures answer { AnswersFindings trees.now.barred.now (option_copied trees.now.old_tree) trees.now.tree.now trees.now.std_tree.now platforms.now result }
    ensures left_out { IfOk result (λ found. AreLeftOut trees.now.barred.now trees.now.std_tree.now (option_copied trees.now.old_tree) trees.now.tree.now platforms.now found.left_out) }
    ensures many { IfOk result (λ found. length found.features ≡ length platforms.now) }
    ensures plain { IfOk result (λ found. Each (Each HasNoContext) found.features) }
    ensures steps { CountsAtMost trees.now.barred.now (option_copied trees.now.old_tree) trees.now.tree.now trees.now.std_tree.now platforms.now steps.old steps.new }
{
    match first_alike(alloc, trees.old_tree, trees.tree, trees.std_tree, platforms) {
        Err(NoMemory) => Err(PlatformError::NoMemory),
        Ok(firsts) => find_by(
            rt,
            alloc,
            workers,
            firsts.items(),
            trees,
            platforms,
            gate,
            steps,
        ),
    }
}
