//! All pairs of types that are reached from some, each once, with those to which each leads.
ghost use Rattle.std.specs.Prelude.{◌≡◌, option_map, IfOk, OnOk};
ghost use Rattle.go_model.specs.types.Terms.{error_type};
ghost use Rattle.api_correspond.specs.inner.Tables.{InStep, AddsPairs};
ghost use Rattle.go_base.specs.Lists.{Has};
ghost use Rattle.go_type_images.specs.declared.pair.TypePair.{TypePair as Pair};
ghost use Rattle.api_forced.specs.inner.Graphs.{IsClosed, FollowedBy, Extends, Reached};

use api_correspond::leads::leads;
use api_correspond::table::PairTable;
use go_base::list::List;
use go_base::memory::NoMemory;
use go_model::types::package::Defined;
use go_model::types::world::World;
use go_type_images::pair::TypePair;
use std::alloc::Global;

/// Numbered pairs, and for each the numbers of those to which it leads.
#[derive(Drop)]
pub(crate) struct Graph {
    pub(crate) table: PairTable,
    pub(crate) next: Vec<List<usize>>,
}

// Adds pairs, where they aren't there, and tells their numbers.
fn add_all(
    alloc: Global,
    table: &mut PairTable,
    pairs: &mut Vec<TypePair>,
) -> Result<List<usize>, NoMemory>
    requires { InStep table.old.codes.keys table.old.pairs.items }
    ensures in_step { OnOk result (InStep table.new.codes.keys table.new.pairs.items) }
    ensures adds { IfOk result (AddsPairs table.old.pairs.items table.new.pairs.items pairs.old.items) }
{
    let mut numbers = List::new(alloc);
    while let Some(pair) = pairs.pop() {
        let at = table.add(alloc, pair)?;
        numbers.push(at)?;
    }
    Ok(numbers)
}

// The pairs to which the pair of a number leads, where there is one.
fn followed(
    alloc: Global,
    error: &Defined,
    old: &World,
    new: &World,
    table: &PairTable,
    at: usize,
) -> Result<Option<Vec<TypePair>>, NoMemory>
    requires { error.now ≡ error_type }
    ensures { IfOk result (λ found. FollowedBy old.now new.now table.now.pairs.items at (option_map (λ v. v.items) found)) }
{
    match table.get(at) {
        None => Ok(None),
        Some(pair) => {
            let pairs = leads(alloc, error, old, new, pair)?;
            Ok(Some(pairs))
        }
    }
}

/// All pairs that are reached from those of a table.
pub(crate) fn close(
    alloc: Global,
    error: &Defined,
    old: &World,
    new: &World,
    mut table: PairTable,
) -> Result<Graph, NoMemory>
    requires error { error.now ≡ error_type }
    requires in_step { InStep table.codes.keys table.pairs.items }
    ensures in_step { IfOk result (λ graph. InStep graph.table.codes.keys graph.table.pairs.items) }
    ensures extends { IfOk result (λ graph. Extends table.pairs.items graph.table.pairs.items) }
    ensures closed { IfOk result (λ graph. IsClosed old.now new.now graph.table.pairs.items graph.next.items) }
    ensures reached { IfOk result (λ graph. (p : Pair) → Has graph.table.pairs.items p → Reached old.now new.now table.pairs.items p) }
{
    let mut next = Vec::new(alloc);
    for at in 0..usize::MAX {
        let found = followed(alloc, error, old, new, &table, at)?;
        match found {
            None => return Ok(Graph { table, next }),
            Some(mut pairs) => {
                let numbers = add_all(alloc, &mut table, &mut pairs)?;
                next.push(numbers)?;
            }
        }
    }
    Err(NoMemory)
}
