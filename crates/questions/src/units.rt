//! Questions on packages and their paths.
ghost use Rattle.std.specs.Prelude.{◌≡◌, ◌<◌, ℕ, true, length};
ghost use Rattle.go_base.specs.Lists.{Each};
ghost use Rattle.go_imports.specs.Orders.{IsGraph};

use crate::refusal::Refusal;
use go_base::list::List;
use go_imports::cycle::least_on_cycle;
use go_imports::import_paths::{assumed_name, is_internal_use, is_under};
use go_imports::order::{OrderError, canonical_order};
use std::alloc::Global;

fn truth(alloc: Global, truth: bool) -> Result<Vec<u8>, Refusal> {
    Ok(format!(in alloc; "{truth}")?.into_bytes())
}

/// The name that a path lets expect.
pub fn name_answer(alloc: Global, path: &str) -> Result<Vec<u8>, Refusal> {
    Ok(Vec::from_slice(alloc, assumed_name(path.as_bytes()))?)
}

/// Whether a path equals another or lies under it.
pub fn under_answer(alloc: Global, path: &str, root: &str) -> Result<Vec<u8>, Refusal> {
    truth(alloc, is_under(path.as_bytes(), root.as_bytes()))
}

/// Whether a package of a module, or of the standard library, may not import a path.
pub fn internal_answer(
    alloc: Global,
    from: &str,
    importer: &str,
    path: &str,
) -> Result<Vec<u8>, Refusal> {
    let from_std = match from {
        "std" => true,
        "module" => false,
        _ => return Err(Refusal::NotAQuestion),
    };
    truth(
        alloc,
        is_internal_use(importer.as_bytes(), from_std, path.as_bytes()),
    )
}

fn number(word: &str) -> Result<usize, Refusal> {
    match word.parse::<usize>() {
        Ok(number) => Ok(number),
        Err(_) => Err(Refusal::NotAQuestion),
    }
}

fn numbers(alloc: Global, words: &str) -> Result<List<usize>, Refusal> {
    let mut all = List::new(alloc);
    if words.is_empty() {
        return Ok(all);
    }
    for word in words.split(' ') {
        all.push(number(word)?)?;
    }
    Ok(all)
}

fn needs(alloc: Global, parts: &[&str]) -> Result<Vec<List<usize>>, Refusal> {
    let mut graph = Vec::new(alloc);
    for part in parts {
        graph.push(numbers(alloc, part)?)?;
    }
    Ok(graph)
}

fn are_below(numbers: &[usize], end: usize) -> bool
    ensures { result ≡ true → Each (λ n. n < end) numbers.now }
{
    for number in numbers {
        if *number >= end {
            return false;
        }
    }
    true
}

fn is_graph(graph: &[List<usize>]) -> bool
    ensures { result ≡ true → IsGraph graph.now }
{
    for node in 0..graph.len() {
        if !are_below(graph[node].items(), graph.len()) {
            return false;
        }
    }
    true
}

/// The canonical order of packages, or the least one on a cycle.
pub fn order_answer(alloc: Global, parts: &[&str]) -> Result<Vec<u8>, Refusal> {
    let graph = needs(alloc, parts)?;
    if !is_graph(&graph) {
        return Err(Refusal::NotAQuestion);
    }
    let order = match canonical_order(alloc, &graph) {
        Ok(order) => order,
        Err(OrderError::Cycle(node)) => return Ok(format!(in alloc;
            "cycle at {node}"
        )?.into_bytes()),
        Err(OrderError::NoMemory) => return Err(Refusal::NoMemory),
    };
    let mut out = Vec::new(alloc);
    for node in order.items() {
        out.extend_from_slice(format!(in alloc; "{node};")?.as_bytes())?;
    }
    Ok(out)
}

/// The least package on a cycle.
pub fn cycle_answer(alloc: Global, parts: &[&str]) -> Result<Vec<u8>, Refusal> {
    let graph = needs(alloc, parts)?;
    if !is_graph(&graph) {
        return Err(Refusal::NotAQuestion);
    }
    let answer = match least_on_cycle(alloc, &graph)? {
        Some(node) => format!(in alloc; "{node}")?,
        None => format!(in alloc; "none")?,
    };
    Ok(answer.into_bytes())
}
