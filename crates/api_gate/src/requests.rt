//! What a request decides: its files are read, its trees are judged or its client is vetted, and its report is made.
ghost use Rattle.std.specs.Prelude.{◌≡◌, ◌≢◌, ◌≤◌, ◌<◌, ◌⊎◌, [], None, Some, IfOk, length};
ghost use Rattle.api_clients.specs.ClientChecks.{CountsAtMost as CountsClientAtMost};
ghost use Rattle.api_findings.specs.Checks.{CountsAtMost};
ghost use Rattle.api_findings.specs.Findings.{IsOldTree};
ghost use Rattle.api_gate.specs.inner.Decisions.{ChecksFor, ChecksIn, IsClientTree, IsFinding, IsOfInputs, IsOfStore};
ghost use Rattle.api_gate.specs.runs.Outcomes.{modules_of};
ghost use Rattle.api_generator.specs.MadeTrees.{made_contents};
ghost use Rattle.api_inputs.specs.Reads.{NeverFell};
ghost use Rattle.go_model.specs.files.Trees.{IsTree};

use crate::reports::decision::Decision;
use crate::reports::report::report;
use crate::reports::vetting::client_report;
use api_clients::clients::vet_on_platforms;
use api_clients::trees::ClientTrees;
use api_findings::findings::find;
use api_findings::trees::RunTrees;
use api_generator::make::make;
use api_inputs::inputs::{Inputs, read_inputs};
use api_words::request::{MadeTrees, Request};
use go_base::list::List;
use go_base::memory::NoMemory;
use go_base::steps::Steps;
use go_base::text::Text;
use go_model::files::tree::Tree;
use go_outside::files::Files;
use go_outside::gate::Gate;
use std::alloc::Global;
use std::thread::Threads;

// The module paths of a run.
fn modules_of(alloc: Global, inputs: &Inputs) -> Result<List<Text>, NoMemory>
    ensures { IfOk result (λ modules. modules ≡ modules_of inputs.now) }
{
    let path = inputs.tree.module.copy()?;
    let mut modules = List::new(alloc);
    modules.push(path)?;
    let Some(old) = &inputs.old_tree else {
        return Ok(modules);
    };
    let path = old.module.copy()?;
    modules.push(path)?;
    Ok(modules)
}

// What is found in the trees of these inputs decides.
fn on_platforms<R: Threads + Sync, G: Gate + Sync, L: Copy + Send>(
    rt: &R,
    alloc: Global,
    request: &Request,
    inputs: &Inputs,
    modules: &[Text],
    gate: &G,
    steps: &mut Steps<L>,
) -> Decision
    requires old { IsOldTree (modules_of inputs.now) inputs.now.old_tree }
    requires tree { IsTree inputs.now.tree }
    requires std { IsTree inputs.now.std_tree }
    requires named { inputs.now.tree.module ≢ [] }
    requires modules { modules.now ≡ modules_of inputs.now }
    requires some { 0 < length request.now.platforms }
    requires finds { IsFinding request.now.mode inputs.now.client }
    requires alone { inputs.now.client ≡ None }
    ensures decision { IsOfInputs request.now inputs.now result }
    ensures steps { CountsAtMost (modules_of inputs.now) inputs.now.old_tree inputs.now.tree inputs.now.std_tree request.now.platforms steps.old steps.new }
{
    match find(
        rt,
        alloc,
        request.workers,
        &RunTrees {
            old_tree: inputs.old_tree.as_ref(),
            tree: &inputs.tree,
            std_tree: &inputs.std_tree,
            barred: modules,
        },
        request.platforms.items(),
        gate,
        steps,
    ) {
        Err(error) => Decision::unfound(error),
        Ok(found) => report(alloc, request, inputs, found),
    }
}

// What is told of the client of these inputs decides.
fn on_client<R: Threads + Sync, G: Gate + Sync, L: Copy + Send>(
    rt: &R,
    alloc: Global,
    request: &Request,
    inputs: &Inputs,
    client: &Tree,
    modules: &[Text],
    gate: &G,
    steps: &mut Steps<L>,
) -> Decision
    requires tree { IsTree inputs.now.tree }
    requires std { IsTree inputs.now.std_tree }
    requires client { IsTree client.now }
    requires named { inputs.now.tree.module ≢ [] }
    requires modules { modules.now ≡ modules_of inputs.now }
    requires given { inputs.now.client ≡ Some client.now }
    ensures decision { IsOfInputs request.now inputs.now result }
    ensures steps { CountsClientAtMost (modules_of inputs.now) inputs.now.tree inputs.now.std_tree client.now request.now.platforms steps.old steps.new }
{
    let platforms = request.platforms.items();
    match vet_on_platforms(
        rt,
        alloc,
        request.workers,
        &ClientTrees {
            tree: &inputs.tree,
            std_tree: &inputs.std_tree,
            client,
            barred: modules,
        },
        platforms,
        gate,
        steps,
    ) {
        Err(error) => Decision::unfound(error),
        Ok(answers) => client_report(alloc, platforms, answers.items()),
    }
}

// What these inputs decide, by their modules.
fn on_modules<R: Threads + Sync, G: Gate + Sync, L: Copy + Send>(
    rt: &R,
    alloc: Global,
    request: &Request,
    inputs: &Inputs,
    modules: &[Text],
    gate: &G,
    steps: &mut Steps<L>,
) -> Decision
    requires old { IsOldTree (modules_of inputs.now) inputs.now.old_tree }
    requires tree { IsTree inputs.now.tree }
    requires std { IsTree inputs.now.std_tree }
    requires client { IsClientTree inputs.now.client }
    requires named { inputs.now.tree.module ≢ [] }
    requires modules { modules.now ≡ modules_of inputs.now }
    requires some { 0 < length request.now.platforms }
    requires finds { IsFinding request.now.mode inputs.now.client }
    ensures decision { IsOfInputs request.now inputs.now result }
    ensures steps { ChecksIn request.now inputs.now steps.old steps.new }
{
    match &inputs.client {
        None => on_platforms(rt, alloc, request, inputs, modules, gate, steps),
        Some(client) => on_client(rt, alloc, request, inputs, client, modules, gate, steps),
    }
}

// What these inputs decide.
fn on_inputs<R: Threads + Sync, G: Gate + Sync, L: Copy + Send>(
    rt: &R,
    alloc: Global,
    request: &Request,
    inputs: &Inputs,
    gate: &G,
    steps: &mut Steps<L>,
) -> Decision
    requires old { IsOldTree (modules_of inputs.now) inputs.now.old_tree }
    requires tree { IsTree inputs.now.tree }
    requires std { IsTree inputs.now.std_tree }
    requires client { IsClientTree inputs.now.client }
    requires named { inputs.now.tree.module ≢ [] }
    requires some { 0 < length request.now.platforms }
    requires finds { IsFinding request.now.mode inputs.now.client }
    ensures decision { IsOfInputs request.now inputs.now result }
    ensures steps { (steps.new ≤ steps.old) ⊎ ChecksIn request.now inputs.now steps.old steps.new }
{
    match modules_of(alloc, inputs) {
        Err(NoMemory) => Decision::NoMemory,
        Ok(modules) => on_modules(rt, alloc, request, inputs, modules.items(), gate, steps),
    }
}

/// What a request decides over these files.
pub(crate) fn on_files<R: Threads + Sync, F: Files, G: Gate + Sync, L: Copy + Send>(
    rt: &R,
    alloc: Global,
    files: &mut F,
    request: &Request,
    gate: &G,
    steps: &mut Steps<L>,
) -> Decision
    requires some { 0 < length request.now.platforms }
    requires finds { IsFinding request.now.mode request.now.client }
    ensures decision { IsOfStore (F.told files.old) (F.faults files.old) (F.faults files.new) request.now result }
    ensures same { F.told files.new ≡ F.told files.old }
    ensures count { NeverFell (F.faults files.old) (F.faults files.new) }
    ensures steps { ChecksFor (F.told files.old) request.now steps.old steps.new }
{
    match read_inputs(alloc, files, request) {
        Err(error) => Decision::unread(error),
        Ok(inputs) => on_inputs(rt, alloc, request, &inputs, gate, steps),
    }
}

/// What a request decides over the files that the generator makes for it.
pub(crate) fn on_made<R: Threads + Sync, G: Gate + Sync, L: Copy + Send>(
    rt: &R,
    alloc: Global,
    made: MadeTrees,
    request: &Request,
    gate: &G,
    steps: &mut Steps<L>,
) -> Decision
    requires platforms { 0 < length request.now.platforms }
    requires finds { IsFinding request.now.mode request.now.client }
    requires some { 1 ≤ made.size }
    requires few { made.size ≤ 2000 }
    ensures decision { IsOfStore (Some (made_contents made.seed made.size)) 0 0 request.now result }
    ensures steps { ChecksFor (Some (made_contents made.seed made.size)) request.now steps.old steps.new }
{
    match make(alloc, made.seed, made.size) {
        Err(NoMemory) => Decision::NoMemory,
        Ok(mut store) => on_files(rt, alloc, &mut store, request, gate, steps),
    }
}
