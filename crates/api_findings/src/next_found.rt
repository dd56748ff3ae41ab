//! What is found on one platform by one worker, which takes over what was typed on the platform before.
ghost use Rattle.std.specs.Prelude.{◌≡◌, ◌∷◌, [], IfErr, IfOk, IfSome, Some, None};
ghost use Rattle.std.specs.Option.{option_copied};
ghost use Rattle.api_findings.specs.Checks.{CountsAtMost};
ghost use Rattle.api_findings.specs.Findings.{IsLeftOut, IsOldTree};
ghost use Rattle.api_findings.specs.inner.Chains.{IsChain};
ghost use Rattle.api_features.specs.Features.{IsFeature};
ghost use Rattle.api_findings.specs.inner.Found.{AnswersFound, left_out_alone};
ghost use Rattle.api_findings.specs.inner.NextLines.{AreFeatured};
ghost use Rattle.api_findings.specs.inner.Sides.{AnswersNextListed, AreTrees, IsListedOn};
ghost use Rattle.api_lines.specs.Lines.{IsListing};
ghost use Rattle.api_worlds.specs.declared.error.PlatformError.TheVariants as platform_error;
ghost use Rattle.api_worlds.specs.PlatformWorlds.{CountsAtMost as CountsAtMostOn};
ghost use Rattle.api_worlds.specs.go_work.TypedUnits.{AreTypedUnits};

use crate::chain::Chain;
use crate::found::{Found, featured, verdict_of};
use crate::listed::Listed;
use crate::next_lines::{
    FeaturedUnits, borrowed, copy_if, features_beside, next_features, typed_of, with_features,
};
use crate::trees::RunTrees;
use api_lines::line::Line;
use api_texts::lines::Side;
use api_worlds::error::PlatformError;
use api_worlds::go_work::typed::TypedUnits;
use api_worlds::next_world::{NextWorld, next_world_on};
use api_worlds::trees::PlatformTrees;
use go_base::list::List;
use go_base::memory::NoMemory;
use go_base::steps::Steps;
use go_model::files::platform::Platform;
use go_model::files::tree::Tree;
use go_outside::gate::Gate;
use std::alloc::Global;
use std::mem;

/// The packages of one tree on a platform as they were typed, and what is listed of them.
pub(crate) struct ListedUnits {
    pub typed: TypedUnits,
    pub listed: Listed,
}

impl Drop for ListedUnits {
    fn drop(self) {
        let ListedUnits {
            typed: _,
            listed: _,
        } = self;
    }
}

impl ListedUnits {
    // The packages and their features, moved out.
    fn into_featured(self) -> FeaturedUnits
        ensures typed { result.typed ≡ self.typed }
        ensures lines { result.lines ≡ self.listed.lines }
    {
        let ListedUnits { typed, listed } = self;
        let (lines, _left_out) = listed.into_parts();
        FeaturedUnits { typed, lines }
    }

    // What is found where there is no old tree. The packages are kept for further platforms.
    fn featured_kept(self, alloc: Global, chain: &mut Chain) -> Result<Found, PlatformError>
        requires typed { AreTypedUnits self.typed }
        requires lines { IsListing (IsFeature self.typed.world) self.listed.lines }
        requires chain { IsChain chain.old }
        ensures verdict { IfOk result (λ found. found.verdict ≡ None) }
        ensures lines { IfOk result (λ found. found.lines ≡ self.listed.lines) }
        ensures left_out { IfOk result (λ found. found.left_out ≡ left_out_alone self.listed.left_out) }
        ensures none { IfErr result (λ error. error ≡ platform_error.NoMemory) }
        ensures chain { IsChain chain.new }
    {
        let ListedUnits { typed, listed } = self;
        match copy_if(alloc, chain.keeps, &listed.lines) {
            Err(NoMemory) => Err(PlatformError::NoMemory),
            Ok(lines) => {
                chain.of_first = with_features(typed, lines);
                Ok(featured(listed))
            }
        }
    }

    // What is found where the old tree has these packages and the new one has those. The new ones are kept for further platforms.
    fn verdict_kept(
        self,
        alloc: Global,
        old_tree: &Tree,
        trees: &RunTrees<'_>,
        platform: Platform,
        old: &ListedUnits,
        chain: &mut Chain,
    ) -> Result<Found, PlatformError>
        requires old_tree { IsOldTree trees.now.barred.now (Some old_tree.now) }
        requires trees { AreTrees trees.now.barred.now trees.now.tree.now trees.now.std_tree.now }
        requires old { IsListedOn trees.now.barred.now old_tree.now trees.now.std_tree.now platform old.now.typed.world old.now.listed }
        requires new { IsListedOn trees.now.barred.now trees.now.tree.now trees.now.std_tree.now platform self.typed.world self.listed }
        requires typed { AreTypedUnits self.typed }
        requires chain { IsChain chain.old }
        ensures answer { AnswersFound trees.now.barred.now (Some old_tree.now) trees.now.tree.now trees.now.std_tree.now platform result }
        ensures left_out { IfOk result (λ found. IsLeftOut trees.now.barred.now trees.now.std_tree.now (Some old_tree.now) trees.now.tree.now platform found.left_out) }
        ensures chain { IsChain chain.new }
    {
        let ListedUnits { typed, listed } = self;
        let found = verdict_of(
            alloc,
            old_tree,
            trees,
            platform,
            &old.typed.world,
            &old.listed,
            &typed.world,
            listed,
        );
        chain.of_second = Some(typed);
        found
    }
}

fn with_lines(found: NextWorld, lines: List<Line>) -> ListedUnits
    ensures typed { result.typed ≡ found.typed }
    ensures lines { result.listed.lines ≡ lines }
    ensures left_out { result.listed.left_out ≡ found.left_out }
{
    let (typed, left_out) = found.into_parts();
    ListedUnits {
        typed,
        listed: Listed { lines, left_out },
    }
}

// The packages of the tree that is looked at first on a platform, and what is listed of them. The features of packages that are taken over from those of the
// platform before stay.
fn listed_next<G: Gate, L: Copy>(
    alloc: Global,
    side: Side,
    trees: &PlatformTrees<'_>,
    before: Option<FeaturedUnits>,
    gate: &G,
    steps: &mut Steps<L>,
) -> Result<ListedUnits, PlatformError>
    requires trees { AreTrees trees.now.barred.now trees.now.tree.now trees.now.std_tree.now }
    requires before { IfSome before AreFeatured }
    ensures answer { AnswersNextListed trees.now.barred.now trees.now.tree.now trees.now.std_tree.now side trees.now.platform result }
    ensures steps { CountsAtMostOn trees.now.barred.now trees.now.tree.now trees.now.std_tree.now trees.now.platform steps.old steps.new }
{
    match next_world_on(alloc, side, trees, None, typed_of(&before), gate, steps) {
        Err(error) => Err(error),
        Ok(found) => match next_features(alloc, &found.typed, before) {
            Err(NoMemory) => Err(PlatformError::NoMemory),
            Ok(lines) => Ok(with_lines(found, lines)),
        },
    }
}

// The packages of a tree on a platform where another one has some of them, and what is listed of them. The features of packages that are taken over from the other
// tree stay.
fn listed_beside<G: Gate, L: Copy>(
    alloc: Global,
    side: Side,
    trees: &PlatformTrees<'_>,
    other: &ListedUnits,
    before: Option<&TypedUnits>,
    gate: &G,
    steps: &mut Steps<L>,
) -> Result<ListedUnits, PlatformError>
    requires trees { AreTrees trees.now.barred.now trees.now.tree.now trees.now.std_tree.now }
    requires typed { AreTypedUnits other.now.typed }
    requires lines { IsListing (IsFeature other.now.typed.world) other.now.listed.lines }
    requires before { IfSome (option_copied before) AreTypedUnits }
    ensures answer { AnswersNextListed trees.now.barred.now trees.now.tree.now trees.now.std_tree.now side trees.now.platform result }
    ensures steps { CountsAtMostOn trees.now.barred.now trees.now.tree.now trees.now.std_tree.now trees.now.platform steps.old steps.new }
{
    match next_world_on(alloc, side, trees, Some(&other.typed), before, gate, steps) {
        Err(error) => Err(error),
        Ok(found) => {
            match features_beside(alloc, &found.typed, &other.typed, &other.listed.lines) {
                Err(NoMemory) => Err(PlatformError::NoMemory),
                Ok(lines) => Ok(with_lines(found, lines)),
            }
        }
    }
}

/// What is found on a platform where there is no old tree.
pub(crate) fn features_next<G: Gate, L: Copy>(
    alloc: Global,
    trees: &RunTrees<'_>,
    platform: Platform,
    chain: &mut Chain,
    gate: &G,
    steps: &mut Steps<L>,
) -> Result<Found, PlatformError>
    requires trees { AreTrees trees.now.barred.now trees.now.tree.now trees.now.std_tree.now }
    requires chain { IsChain chain.old }
    ensures answer { AnswersFound trees.now.barred.now None trees.now.tree.now trees.now.std_tree.now platform result }
    ensures left_out { IfOk result (λ found. IsLeftOut trees.now.barred.now trees.now.std_tree.now None trees.now.tree.now platform found.left_out) }
    ensures chain { IsChain chain.new }
    ensures steps { CountsAtMost trees.now.barred.now None trees.now.tree.now trees.now.std_tree.now (platform ∷ []) steps.old steps.new }
{
    let before = mem::replace(&mut chain.of_first, None);
    match listed_next(
        alloc,
        Side::New,
        &PlatformTrees {
            tree: trees.tree,
            std_tree: trees.std_tree,
            barred: trees.barred,
            platform,
        },
        before,
        gate,
        steps,
    ) {
        Err(error) => Err(error),
        Ok(new) => new.featured_kept(alloc, chain),
    }
}

// What is found on a platform where the old tree has these packages. The new tree takes over from them, and from its own on the platform before.
fn verdict_after<G: Gate, L: Copy>(
    alloc: Global,
    old_tree: &Tree,
    trees: &RunTrees<'_>,
    platform: Platform,
    old: &ListedUnits,
    chain: &mut Chain,
    gate: &G,
    steps: &mut Steps<L>,
) -> Result<Found, PlatformError>
    requires old_tree { IsOldTree trees.now.barred.now (Some old_tree.now) }
    requires trees { AreTrees trees.now.barred.now trees.now.tree.now trees.now.std_tree.now }
    requires old { IsListedOn trees.now.barred.now old_tree.now trees.now.std_tree.now platform old.now.typed.world old.now.listed }
    requires typed { AreTypedUnits old.now.typed }
    requires chain { IsChain chain.old }
    ensures answer { AnswersFound trees.now.barred.now (Some old_tree.now) trees.now.tree.now trees.now.std_tree.now platform result }
    ensures left_out { IfOk result (λ found. IsLeftOut trees.now.barred.now trees.now.std_tree.now (Some old_tree.now) trees.now.tree.now platform found.left_out) }
    ensures chain { IsChain chain.new }
    ensures steps { CountsAtMostOn trees.now.barred.now trees.now.tree.now trees.now.std_tree.now platform steps.old steps.new }
{
    let before = mem::replace(&mut chain.of_second, None);
    match listed_beside(
        alloc,
        Side::New,
        &PlatformTrees {
            tree: trees.tree,
            std_tree: trees.std_tree,
            barred: trees.barred,
            platform,
        },
        old,
        borrowed(&before),
        gate,
        steps,
    ) {
        Err(error) => Err(error),
        Ok(new) => new.verdict_kept(alloc, old_tree, trees, platform, old, chain),
    }
}

/// What is found on a platform where there is an old tree: it is looked at first, and takes over from its packages on the platform before.
pub(crate) fn verdict_next<G: Gate, L: Copy>(
    alloc: Global,
    old_tree: &Tree,
    trees: &RunTrees<'_>,
    platform: Platform,
    chain: &mut Chain,
    gate: &G,
    steps: &mut Steps<L>,
) -> Result<Found, PlatformError>
    requires old { IsOldTree trees.now.barred.now (Some old_tree.now) }
    requires trees { AreTrees trees.now.barred.now trees.now.tree.now trees.now.std_tree.now }
    requires chain { IsChain chain.old }
    ensures answer { AnswersFound trees.now.barred.now (Some old_tree.now) trees.now.tree.now trees.now.std_tree.now platform result }
    ensures left_out { IfOk result (λ found. IsLeftOut trees.now.barred.now trees.now.std_tree.now (Some old_tree.now) trees.now.tree.now platform found.left_out) }
    ensures chain { IsChain chain.new }
    ensures steps { CountsAtMost trees.now.barred.now (Some old_tree.now) trees.now.tree.now trees.now.std_tree.now (platform ∷ []) steps.old steps.new }
{
    let before = mem::replace(&mut chain.of_first, None);
    match listed_next(
        alloc,
        Side::Old,
        &PlatformTrees {
            tree: old_tree,
            std_tree: trees.std_tree,
            barred: trees.barred,
            platform,
        },
        before,
        gate,
        steps,
    ) {
        Err(error) => Err(error),
        Ok(old) => {
            let found = verdict_after(alloc, old_tree, trees, platform, &old, chain, gate, steps);
            chain.of_first = Some(old.into_featured());
            found
        }
    }
}
