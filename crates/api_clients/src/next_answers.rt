//! What is told of a client on one platform by one worker, which takes over what was typed on the platform before.
ghost use Rattle.std.specs.Prelude.{◌≢◌, ◌≤◌, ◌+◌, ◌∷◌, [], length};
ghost use Rattle.api_clients.specs.ClientChecks.{CountsAtMost};
ghost use Rattle.api_clients.specs.inner.Chains.{IsChain};
ghost use Rattle.api_clients.specs.inner.ClientSteps.{AnswersOfUnits, AnswersOn};
ghost use Rattle.go_base.specs.Lists.{Has};
ghost use Rattle.go_clients.specs.Vetting.{IsClientPath};
ghost use Rattle.go_model.specs.files.Trees.{IsTree};
ghost use Rattle.api_worlds.specs.go_work.Paths.{AreOfPackages};

use crate::chain::Chain;
use crate::told::told;
use crate::trees::ClientTrees;
use crate::units::units_over;
use api_reports::clients::ClientAnswer;
use api_texts::lines::Side;
use api_worlds::error::PlatformError;
use api_worlds::go_work::error::WorkError;
use api_worlds::go_work::typed::typed;
use api_worlds::known::known_of;
use api_worlds::refused::{refused_package, refused_units};
use api_worlds::trees::PlatformTrees;
use go_base::memory::NoMemory;
use go_base::steps::Steps;
use go_client_unit_laws::go_client_units::units::ClientUnits;
use go_client_unit_laws::laws::client_unit_paths;
use go_model::files::platform::Platform;
use go_outside::gate::Gate;
use std::alloc::Global;

fn next_answer_of<G: Gate, L: Copy>(
    alloc: Global,
    trees: &ClientTrees<'_>,
    platform: Platform,
    units: ClientUnits,
    chain: &mut Chain,
    gate: &G,
    steps: &mut Steps<L>,
) -> Result<ClientAnswer, PlatformError>
    requires packages { AreOfPackages units.packages.packages }
    requires path { IsClientPath units.client }
    requires chain { IsChain chain.old }
    ensures answer { AnswersOfUnits trees.now.tree.now trees.now.std_tree.now trees.now.client.now platform units result }
    ensures chain { IsChain chain.new }
    ensures steps { steps.new ≤ steps.old + length units.packages.packages }
{
    let ClientUnits { packages, client } = units;
    let bits = platform.int_bits();
    match typed(
        alloc,
        packages,
        bits,
        None,
        chain.typed.as_ref(),
        gate,
        steps,
    ) {
        Ok(kept) => {
            let answer = told(
                alloc,
                trees.client.files.items(),
                &kept.world,
                client.as_ref(),
                bits,
            );
            chain.typed = Some(kept);
            match answer {
                Ok(answer) => Ok(answer),
                Err(NoMemory) => Err(PlatformError::NoMemory),
            }
        }
        Err(WorkError::NoMemory) => Err(PlatformError::NoMemory),
        Err(WorkError::Refused(_, unit, error)) => Err(refused_package(
            alloc,
            Side::New,
            &PlatformTrees {
                tree: trees.tree,
                std_tree: trees.std_tree,
                barred: trees.barred,
                platform,
            },
            trees.client.files.items(),
            &unit,
            error,
        )),
    }
}

/// What is told of a client on a platform: what `vet_on_platforms` says, on it alone. What stands as it is written here among the packages of the platform
/// before isn't parsed again, and where `int` has the same size, and all that it reaches stands there, it isn't checked again.
pub(crate) fn answer_next<G: Gate, L: Copy>(
    alloc: Global,
    trees: &ClientTrees<'_>,
    platform: Platform,
    chain: &mut Chain,
    gate: &G,
    steps: &mut Steps<L>,
) -> Result<ClientAnswer, PlatformError>
    requires tree { IsTree trees.now.tree.now }
    requires std { IsTree trees.now.std_tree.now }
    requires client { IsTree trees.now.client.now }
    requires named { trees.now.tree.now.module ≢ [] }
    requires barred { Has trees.now.barred.now trees.now.tree.now.module }
    requires chain { IsChain chain.old }
    ensures answer { AnswersOn trees.now.barred.now trees.now.tree.now trees.now.std_tree.now trees.now.client.now platform result }
    ensures chain { IsChain chain.new }
    ensures steps { CountsAtMost trees.now.barred.now trees.now.tree.now trees.now.std_tree.now trees.now.client.now (platform ∷ []) steps.old steps.new }
{
    client_unit_paths();
    let known = known_of(alloc, None, chain.typed.as_ref());
    match units_over(alloc, trees, platform, known) {
        Err(error) => Err(refused_units(
            alloc,
            Side::New,
            &PlatformTrees {
                tree: trees.tree,
                std_tree: trees.std_tree,
                barred: trees.barred,
                platform,
            },
            trees.client.files.items(),
            &error,
        )),
        Ok(units) => next_answer_of(alloc, trees, platform, units, chain, gate, steps),
    }
}
