//! The least package on a cycle.
ghost use Rattle.std.specs.Prelude.{◌≡◌, ◌<◌, ◌≤◌, ◌∷◌, ℕ, [], length, get_or, true, false, nat_eq, IfOk, OnOk, IfNone, IfSome};
ghost use Rattle.indexmap.specs.IndexSet.{insert_key, insert_all};
ghost use Rattle.go_base.specs.Lists.{Has};
ghost use Rattle.go_imports.specs.Orders.{IsGraph, IsOnCycle, IsLeastOnCycle, needs_of};
ghost use Rattle.go_imports.specs.inner.Levels.{Falls, Reached, at_level, LeastOrNone};
ghost use Rattle.go_imports.specs.Answers.{Decides};

use crate::components::components;
use crate::order::needs_of;
use go_base::list::List;
use go_base::memory::NoMemory;
use indexmap::IndexSet;
use std::alloc::Global;

fn level_of(levels: &[usize], node: usize) -> usize
    ensures { result ≡ get_or levels.now node 0 }
{
    match levels.get(node) {
        Some(level) => *level,
        None => 0,
    }
}

fn add(seen: &mut IndexSet<usize>, node: usize) -> Result<(), NoMemory>
    ensures { OnOk result (seen.new.keys ≡ insert_key nat_eq seen.old.keys node) }
{
    seen.insert(node)?;
    Ok(())
}

fn add_all(
    seen: &mut IndexSet<usize>,
    nodes: &[usize],
    levels: &[usize],
    level: usize,
) -> Result<(), NoMemory>
    ensures { OnOk result (seen.new.keys ≡ insert_all nat_eq seen.old.keys (at_level levels.now level nodes.now)) }
{
    for node in nodes {
        if level_of(levels, *node) == level {
            add(seen, *node)?;
        }
    }
    Ok(())
}

// What a package leads to on its own level.
fn reached(
    alloc: Global,
    graph: &[List<usize>],
    levels: &[usize],
    from: usize,
    level: usize,
) -> Result<IndexSet<usize>, NoMemory>
    ensures sound { IfOk result (λ s. (n : ℕ) → Has s.keys n → Reached (λ m. at_level levels.now level (needs_of graph.now m)) (at_level levels.now level (needs_of graph.now from)) n) }
    ensures complete { IfOk result (λ s. (n : ℕ) → Reached (λ m. at_level levels.now level (needs_of graph.now m)) (at_level levels.now level (needs_of graph.now from)) n → Has s.keys n) }
{
    let mut seen = IndexSet::new(alloc);
    add_all(&mut seen, needs_of(graph, from), levels, level)?;
    for at in 0..usize::MAX {
        match seen.get_index(at) {
            None => return Ok(seen),
            Some(node) => {
                let node = *node;
                add_all(&mut seen, needs_of(graph, node), levels, level)?;
            }
        }
    }
    Err(NoMemory)
}

fn is_on_cycle(
    alloc: Global,
    graph: &[List<usize>],
    levels: &[usize],
    node: usize,
) -> Result<bool, NoMemory>
    requires { Falls graph.now levels.now }
    ensures { IfOk result (λ r. Decides r (IsOnCycle graph.now node)) }
{
    let level = level_of(levels, node);
    let seen = reached(alloc, graph, levels, node, level)?;
    Ok(seen.contains(&node))
}

fn needs_fall(levels: &[usize], needs: &[usize], level: usize) -> bool
    ensures { result ≡ true → (n : ℕ) → Has needs.now n → get_or levels.now n 0 ≤ level }
{
    for need in needs {
        if level_of(levels, *need) > level {
            return false;
        }
    }
    true
}

fn falls(graph: &[List<usize>], levels: &[usize]) -> bool
    ensures { result ≡ true → Falls graph.now levels.now }
{
    for node in 0..graph.len() {
        if !needs_fall(levels, needs_of(graph, node), level_of(levels, node)) {
            return false;
        }
    }
    true
}

// Levels that never rise along needs: the components where that hint is right, else one level for all.
fn levels_of(alloc: Global, graph: &[List<usize>]) -> Result<Vec<usize>, NoMemory>
    ensures { IfOk result (λ levels. Falls graph.now levels.items) }
{
    let hint = components(alloc, graph)?;
    if falls(graph, &hint) {
        return Ok(hint);
    }
    Ok(Vec::new(alloc))
}

/// The least package that needs itself, directly or through others, or `None` where there is none.
pub fn least_on_cycle(alloc: Global, graph: &[List<usize>]) -> Result<Option<usize>, NoMemory>
    requires { IsGraph graph.now }
    ensures { IfOk result (LeastOrNone graph.now) }
{
    let levels = levels_of(alloc, graph)?;
    for node in 0..graph.len() {
        if is_on_cycle(alloc, graph, &levels, node)? {
            return Ok(Some(node));
        }
    }
    Ok(None)
}
