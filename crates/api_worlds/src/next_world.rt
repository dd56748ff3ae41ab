//! The world of trees on a platform, over what was typed before.
ghost use Rattle.std.specs.Prelude.{◌≡◌, ◌≢◌, ◌≤◌, ◌+◌, IfOk, IfSome, [], length, map};
ghost use Rattle.std.specs.Option.{option_copied};
ghost use Rattle.api_worlds.specs.LeftOut.{AreLeftOutOn, all_lines, lines_with};
ghost use Rattle.api_worlds.specs.PlatformWorlds.{AnswersNext, CountsAtMost};
ghost use Rattle.api_worlds.specs.inner.PlatformSteps.{AnswersNextUnits, AreLinesOf};
ghost use Rattle.go_base.specs.Lists.{Has};
ghost use Rattle.go_exposed.specs.SkippedValues.{all_skipped};
ghost use Rattle.go_model.specs.files.Trees.{IsTree};
ghost use Rattle.go_work.specs.Paths.{AreOfPackages};
ghost use Rattle.go_work.specs.TypedUnits.{AreTypedUnits};

use crate::error::PlatformError;
use crate::known::known_of;
use crate::left_out::left_out_of;
use crate::platform_units::platform_units;
use crate::refused::{refused_package, refused_units};
use crate::trees::PlatformTrees;
use api_texts::lines::Side;
use go_base::list::List;
use go_base::memory::NoMemory;
use go_base::steps::Steps;
use go_base::text::Text;
use go_outside::gate::Gate;
use go_reading::laws::unit_paths;
use go_units::unit_list::Units;
use go_work::error::WorkError;
use go_work::typed::{TypedUnits, typed};
use std::alloc::Global;

/// What trees have on a platform, with the packages as they were typed.
pub struct NextWorld {
    /// The packages, which others may take over.
    pub typed: TypedUnits,
    /// The declarations that were left out of them, by file and place, each as `FILE:LINE:COLUMN NAME: CAUSE`.
    pub left_out: List<Text>,
}

impl Drop for NextWorld {
    fn drop(self) {
        let NextWorld {
            typed: _,
            left_out: _,
        } = self;
    }
}

impl NextWorld {
    /// The packages and what was left out, moved out.
    pub fn into_parts(self) -> (TypedUnits, List<Text>)
        ensures { result ≡ (self.typed, self.left_out) }
    {
        let NextWorld { typed, left_out } = self;
        (typed, left_out)
    }
}

// Packages that were typed, with the lines of what is left out of them.
fn with_lines(
    alloc: Global,
    trees: &PlatformTrees<'_>,
    typed: TypedUnits,
) -> Result<NextWorld, NoMemory>
    ensures typed { IfOk result (λ found. found.typed ≡ typed) }
    ensures lines { IfOk result (λ found. found.left_out ≡ all_lines (lines_with trees.now.tree.now trees.now.std_tree.now [] typed.units (map all_skipped typed.skipped))) }
{
    let left_out = left_out_of(
        alloc,
        trees.tree,
        trees.std_tree,
        typed.units.items(),
        typed.skipped.items(),
    )?;
    Ok(NextWorld { typed, left_out })
}

fn next_world_of<G: Gate, L: Copy>(
    alloc: Global,
    side: Side,
    trees: &PlatformTrees<'_>,
    units: Units,
    first: Option<&TypedUnits>,
    second: Option<&TypedUnits>,
    gate: &G,
    steps: &mut Steps<L>,
) -> Result<NextWorld, PlatformError>
    requires paths { AreOfPackages units.packages }
    requires first { IfSome (option_copied first) AreTypedUnits }
    requires second { IfSome (option_copied second) AreTypedUnits }
    ensures answer { AnswersNextUnits trees.now.tree.now trees.now.std_tree.now side trees.now.platform units result }
    ensures left_out { IfOk result (λ found. AreLinesOf trees.now.tree.now trees.now.std_tree.now trees.now.platform units found.left_out) }
    ensures typed { IfOk result (λ found. AreTypedUnits found.typed) }
    ensures steps { steps.new ≤ steps.old + length units.packages }
{
    let bits = trees.platform.int_bits();
    match typed(alloc, units, bits, first, second, gate, steps) {
        Ok(packages) => match with_lines(alloc, trees, packages) {
            Ok(found) => Ok(found),
            Err(NoMemory) => Err(PlatformError::NoMemory),
        },
        Err(WorkError::NoMemory) => Err(PlatformError::NoMemory),
        Err(WorkError::Refused(_, unit, error)) => Err(refused_package(
            alloc,
            side,
            trees,
            &[],
            &unit,
            error,
        )),
    }
}

/// The world of a module's tree over the standard library's on a platform, and what is left out of them, or the fault line of its first refusal, as `world_on`
/// has them. What two trees have that were typed before is taken over: a file of theirs isn't parsed again, and a package that stands there as it is
/// written here, with the same size of `int` and with all that it reaches, isn't checked again. One worker checks the others.
pub fn next_world_on<G: Gate, L: Copy>(
    alloc: Global,
    side: Side,
    trees: &PlatformTrees<'_>,
    first: Option<&TypedUnits>,
    second: Option<&TypedUnits>,
    gate: &G,
    steps: &mut Steps<L>,
) -> Result<NextWorld, PlatformError>
    requires tree { IsTree trees.now.tree.now }
    requires std { IsTree trees.now.std_tree.now }
    requires named { trees.now.tree.now.module ≢ [] }
    requires barred { Has trees.now.barred.now trees.now.tree.now.module }
    requires first { IfSome (option_copied first) AreTypedUnits }
    requires second { IfSome (option_copied second) AreTypedUnits }
    ensures answer { AnswersNext trees.now.barred.now trees.now.tree.now trees.now.std_tree.now side trees.now.platform result }
    ensures left_out { IfOk result (λ found. AreLeftOutOn trees.now.barred.now trees.now.tree.now trees.now.std_tree.now trees.now.platform found.left_out) }
    ensures typed { IfOk result (λ found. AreTypedUnits found.typed) }
    ensures steps { CountsAtMost trees.now.barred.now trees.now.tree.now trees.now.std_tree.now trees.now.platform steps.old steps.new }
{
    unit_paths();
    let known = known_of(alloc, first, second);
    match platform_units(alloc, trees, known) {
        Err(error) => Err(refused_units(alloc, side, trees, &[], &error)),
        Ok(units) => next_world_of(alloc, side, trees, units, first, second, gate, steps),
    }
}
