//! The canonical order of packages that need each other.
ghost use Rattle.std.specs.Prelude.{◌≡◌, ◌<◌, ◌≤◌, ◌∷◌, ◌++◌, ℕ, List, [], length, get_or, true, false, IsTrue, ◌↔◌, IfOk, IfErr, OnOk};
ghost use Rattle.go_imports.specs.declared.order.Wait.{Wait};
ghost use Rattle.go_base.specs.Growing.{Grows};
ghost use Rattle.go_base.specs.Lists.{Has};
ghost use Rattle.go_imports.specs.Orders.{IsGraph, IsCanonical, IsOrder, IsReady, needs_of};
ghost use Rattle.go_imports.specs.inner.OrderCauses.{OrderCause};
ghost use Rattle.go_imports.specs.inner.Sorting.{row_of, Waited, Emptied, StandBefore, IsWait, Settles, Sorting, IsWokenBy};

use crate::cycle::least_on_cycle;
use go_base::list::List;
use go_base::memory::NoMemory;
use indexmap::IndexSet;
use std::alloc::Global;
use std::collections::BTreeSet;
use thiserror::Error;

/// Why packages have no canonical order.
#[derive(Clone, Copy, Debug, PartialEq, Eq, Error)]
pub enum OrderError {
    /// This is the least package that needs itself, directly or through others.
    #[error("import cycle")]
    Cycle(usize),
    #[error("out of memory")]
    NoMemory,
}

impl From<NoMemory> for OrderError {
    ghost use Rattle.std.specs.Prelude.{◌≡◌};
    ghost use Rattle.go_imports.specs.declared.order.OrderError.TheVariants.{NoMemory};

    ghost from_gives = { λ _ e. e ≡ NoMemory };

    fn from(_: NoMemory) -> OrderError {
        OrderError::NoMemory
    }
}

/// A package that waits for one of its needs: all needs before the place stand.
#[derive(Clone, Copy)]
struct Wait {
    node: usize,
    at: usize,
}

pub(crate) fn needs_of(graph: &[List<usize>], node: usize) -> &[usize]
    ensures { result.now ≡ needs_of graph.now node }
{
    match graph.get(node) {
        Some(needs) => needs.items(),
        None => &[],
    }
}

fn stands(standing: &IndexSet<usize>, node: usize) -> bool
    ensures { IsTrue result ↔ Has standing.now.keys node }
{
    standing.contains(&node)
}

// The place of the first need that doesn't stand, from a place on: behind the last where all stand.
fn first_lacking(standing: &IndexSet<usize>, needs: &[usize], from: usize) -> usize
    requires { from ≤ length needs.now }
    ensures within { result ≤ length needs.now }
    ensures stand { (k : ℕ) → from ≤ k → k < result → Has standing.now.keys (get_or needs.now k 0) }
    ensures lacking { result < length needs.now → Has standing.now.keys (get_or needs.now result 0) → ⊥ }
{
    let mut at = from;
    while at < needs.len() {
        if !stands(standing, needs[at]) {
            return at;
        }
        at += 1;
    }
    at
}

fn add_ready(ready: &mut BTreeSet<usize>, node: usize) -> Result<(), NoMemory>
    ensures { OnOk result (Grows (λ x. node ≡ x) ready.old.keys ready.new.keys) }
{
    ready.insert(node)?;
    Ok(())
}

fn add_wait(waits: &mut Vec<List<Wait>>, on: usize, wait: Wait) -> Result<(), NoMemory>
    requires { on < length waits.old.items }
    ensures { OnOk result (Waited waits.old.items on wait waits.new.items) }
{
    waits[on].push(wait)?;
    Ok(())
}

fn take_row(alloc: Global, waits: &mut Vec<List<Wait>>, on: usize) -> List<Wait>
    requires { on < length waits.old.items }
    ensures row { result ≡ row_of waits.old.items on }
    ensures emptied { Emptied waits.old.items on waits.new.items }
{
    std::mem::replace(&mut waits[on], List::new(alloc))
}

// A package is ready, or waits for the first of its needs that doesn't stand; those before `from` do.
fn settle(
    graph: &[List<usize>],
    standing: &IndexSet<usize>,
    ready: &mut BTreeSet<usize>,
    waits: &mut Vec<List<Wait>>,
    node: usize,
    from: usize,
) -> Result<(), NoMemory>
    requires graph { IsGraph graph.now }
    requires is { node < length graph.now }
    requires rows { length waits.old.items ≡ length graph.now }
    requires within { from ≤ length (needs_of graph.now node) }
    requires before { StandBefore graph.now standing.now.keys node from }
    ensures { OnOk result (Settles graph.now standing.now.keys node ready.old.keys ready.new.keys waits.old.items waits.new.items) }
{
    let needs = needs_of(graph, node);
    let at = first_lacking(standing, needs, from);
    if at == needs.len() {
        add_ready(ready, node)?;
        return Ok(());
    }
    add_wait(waits, needs[at], Wait { node, at })?;
    Ok(())
}

fn settle_all(
    graph: &[List<usize>],
    standing: &IndexSet<usize>,
    ready: &mut BTreeSet<usize>,
    waits: &mut Vec<List<Wait>>,
) -> Result<(), NoMemory>
    requires graph { IsGraph graph.now }
    requires none { standing.now.keys ≡ [] }
    requires sorting { Sorting graph.now standing.now.keys ready.old.keys waits.old.items (λ n. 0 ≤ n) }
    ensures { OnOk result (Sorting graph.now standing.now.keys ready.new.keys waits.new.items (λ n. length graph.now ≤ n)) }
{
    for node in 0..graph.len() {
        settle(graph, standing, ready, waits, node, 0)?;
    }
    Ok(())
}

fn wake(
    graph: &[List<usize>],
    standing: &IndexSet<usize>,
    ready: &mut BTreeSet<usize>,
    waits: &mut Vec<List<Wait>>,
    woken: &[Wait],
) -> Result<(), NoMemory>
    requires graph { IsGraph graph.now }
    requires held { (x : Wait) → Has woken.now x → IsWait graph.now standing.now.keys x }
    requires fresh { (x : Wait) → Has woken.now x → Has standing.now.keys x.node → ⊥ }
    requires sorting { Sorting graph.now standing.now.keys ready.old.keys waits.old.items (IsWokenBy woken.now) }
    ensures { OnOk result (Sorting graph.now standing.now.keys ready.new.keys waits.new.items (λ n. ⊥)) }
{
    for wait in woken {
        settle(graph, standing, ready, waits, wait.node, wait.at)?;
    }
    Ok(())
}

fn add(standing: &mut IndexSet<usize>, node: usize) -> Result<(), NoMemory>
    requires { Has standing.old.keys node → ⊥ }
    ensures { OnOk result (standing.new.keys ≡ standing.old.keys ++ node ∷ []) }
{
    standing.insert(node)?;
    Ok(())
}

// The least package that is ready stands, and those that waited for it go on.
fn stand(
    alloc: Global,
    graph: &[List<usize>],
    standing: &mut IndexSet<usize>,
    ready: &mut BTreeSet<usize>,
    waits: &mut Vec<List<Wait>>,
    node: usize,
) -> Result<(), NoMemory>
    requires graph { IsGraph graph.now }
    requires least { (m : ℕ) → Has ready.old.keys m → node < m }
    requires sorting { Sorting graph.now standing.old.keys (node ∷ ready.old.keys) waits.old.items (λ n. ⊥) }
    ensures { OnOk result (Sorting graph.now standing.new.keys ready.new.keys waits.new.items (λ n. ⊥)) }
{
    add(standing, node)?;
    let woken = take_row(alloc, waits, node);
    wake(graph, standing, ready, waits, woken.items())?;
    Ok(())
}

fn empty_rows(alloc: Global, count: usize) -> Result<Vec<List<Wait>>, NoMemory>
    ensures length { IfOk result (λ rows. length rows.items ≡ count) }
    ensures empty { IfOk result (λ rows. (n : ℕ) → row_of rows.items n ≡ []) }
{
    let mut rows = Vec::new(alloc);
    for _ in 0..count {
        rows.push(List::new(alloc))?;
    }
    Ok(rows)
}

// As many packages in canonical order as there are.
fn stand_all(alloc: Global, graph: &[List<usize>]) -> Result<IndexSet<usize>, NoMemory>
    requires { IsGraph graph.now }
    ensures ordered { IfOk result (λ standing. IsOrder graph.now standing.keys) }
    ensures stuck { IfOk result (λ standing. (n : ℕ) → IsReady graph.now standing.keys n → ⊥) }
{
    let mut standing = IndexSet::new(alloc);
    let mut ready = BTreeSet::new(alloc);
    let mut waits = empty_rows(alloc, graph.len())?;
    settle_all(graph, &standing, &mut ready, &mut waits)?;
    for _ in 0..usize::MAX {
        match ready.pop_first() {
            None => return Ok(standing),
            Some(node) => stand(alloc, graph, &mut standing, &mut ready, &mut waits, node)?,
        }
    }
    Err(NoMemory)
}

fn all_stand(standing: &IndexSet<usize>, count: usize) -> bool
    ensures yes { result ≡ true → (n : ℕ) → n < count → Has standing.now.keys n }
    ensures no { result ≡ false → (n : ℕ) × (n < count) × (Has standing.now.keys n → ⊥) }
{
    for node in 0..count {
        if !stands(standing, node) {
            return false;
        }
    }
    true
}

fn list_of(alloc: Global, standing: &IndexSet<usize>) -> Result<List<usize>, NoMemory>
    ensures { IfOk result (λ order. order ≡ standing.now.keys) }
{
    let mut order = List::new(alloc);
    for at in 0..usize::MAX {
        match standing.get_index(at) {
            None => return Ok(order),
            Some(node) => order.push(*node)?,
        }
    }
    Err(NoMemory)
}

/// The packages `0..graph.len()` in canonical order, where the list at a package's place has those that it needs: the next
/// is always the least package that doesn't stand yet and whose needs all do.
///
/// `Cycle` comes exactly where a package needs itself, directly or through others, with the least such package.
pub fn canonical_order(alloc: Global, graph: &[List<usize>]) -> Result<List<usize>, OrderError>
    requires { IsGraph graph.now }
    ensures order { IfOk result (IsCanonical graph.now) }
    ensures cause { IfErr result (OrderCause graph.now) }
{
    let standing = stand_all(alloc, graph)?;
    if all_stand(&standing, graph.len()) {
        return Ok(list_of(alloc, &standing)?);
    }
    match least_on_cycle(alloc, graph)? {
        Some(node) => Err(OrderError::Cycle(node)),
        None => unreachable!(),
    }
}
