//! The pairs of types that have to correspond.
ghost use Rattle.std.specs.Prelude.{◌≡◌, ◌++◌, ◌∷◌, [], IfOk, OnOk};
ghost use Rattle.api_correspond.specs.OwnedPairs.{AreOwnedPairs};
ghost use Rattle.api_forced.specs.Ownerships.{IsOwnership};
ghost use Rattle.api_forced.specs.inner.Claims.{Takes, TakesAll};
ghost use Rattle.api_forced.specs.inner.Graphs.{Entered, AreEntered};
ghost use Rattle.api_correspond.specs.inner.Tables.{InStep, ItemAt, KeepsTexts};

use crate::claims::{Claim, claims, own_names};
use crate::graph::{Graph, close};
use crate::objects::object_pairs;
use api_correspond::pair::OwnedPair;
use api_correspond::table::{PairTable, add_text};
use go_base::list::List;
use go_base::memory::NoMemory;
use go_base::text::Text;
use go_model::types::world::World;
use go_selectors::lookup::error_type;
use go_type_images::pair::TypePair;
use indexmap::IndexSet;
use std::alloc::Global;

/// The pairs of types that have to correspond, each once, and the exported objects that own them, by their numbers: an object
/// owns a pair where there is a claim with the numbers of both.
pub struct Ownership {
    pub owners: IndexSet<Text>,
    pub pairs: Vec<TypePair>,
    pub claims: IndexSet<Claim>,
}

impl Drop for Ownership {
    fn drop(self) {
        let Ownership {
            owners: _,
            pairs: _,
            claims: _,
        } = self;
    }
}

// Enters the pairs of objects into tables, and tells their numbers.
fn enter(
    alloc: Global,
    found: &mut Vec<OwnedPair>,
    table: &mut PairTable,
    texts: &mut IndexSet<Text>,
) -> Result<Vec<Claim>, NoMemory>
    requires in_step { InStep table.old.codes.keys table.old.pairs.items }
    requires none { table.old.pairs.items ≡ [] }
    ensures in_step { OnOk result (InStep table.new.codes.keys table.new.pairs.items) }
    ensures texts { OnOk result (KeepsTexts texts.old.keys texts.new.keys) }
    ensures roots { IfOk result (λ roots. Entered found.old.items texts.new.keys table.new.pairs.items roots.items) }
    ensures only { OnOk result (AreEntered found.old.items table.new.pairs.items) }
{
    let mut roots = Vec::new(alloc);
    while let Some(one) = found.pop() {
        let (name, pair) = one.into_parts();
        let (owner, _fresh) = add_text(texts, name)?;
        let pair = table.add(alloc, pair)?;
        roots.push(Claim { owner, pair })?;
    }
    Ok(roots)
}

fn text_at(texts: &IndexSet<Text>, at: usize) -> Option<&Text>
    ensures { ItemAt texts.now.keys at result }
{
    match texts.as_slice().get(at) {
        Some(text) => Some(text),
        None => None,
    }
}

fn pair_at(pairs: &Vec<TypePair>, at: usize) -> Option<&TypePair>
    ensures { ItemAt pairs.now.items at result }
{
    match pairs.get(at) {
        Some(pair) => Some(pair),
        None => None,
    }
}

fn push_owned(
    alloc: Global,
    owner: &Text,
    pair: &TypePair,
    all: &mut List<OwnedPair>,
) -> Result<(), NoMemory>
    ensures { OnOk result (all.new ≡ all.old ++ record { owner = owner.now; old = pair.now.old; new = pair.now.new } ∷ []) }
{
    let owner = owner.copy()?;
    let old = pair.old.copy(alloc)?;
    let new = pair.new.copy(alloc)?;
    all.push(OwnedPair { owner, old, new })
}

// The pair of a claim with the text of its owner.
fn take(
    alloc: Global,
    texts: &IndexSet<Text>,
    pairs: &Vec<TypePair>,
    claim: &Claim,
    all: &mut List<OwnedPair>,
) -> Result<(), NoMemory>
    ensures { OnOk result (Takes texts.now.keys pairs.now.items claim.now all.old all.new) }
{
    match text_at(texts, claim.owner) {
        None => Ok(()),
        Some(owner) => match pair_at(pairs, claim.pair) {
            None => Ok(()),
            Some(pair) => {
                push_owned(alloc, owner, pair, all)?;
                Ok(())
            }
        },
    }
}

fn take_all(
    alloc: Global,
    texts: &IndexSet<Text>,
    pairs: &Vec<TypePair>,
    claims: &IndexSet<Claim>,
) -> Result<List<OwnedPair>, NoMemory>
    ensures { IfOk result (λ all. TakesAll texts.now.keys pairs.now.items claims.now.keys all) }
{
    let mut all = List::new(alloc);
    let items = claims.as_slice();
    for claim in items {
        take(alloc, texts, pairs, claim, &mut all)?;
    }
    Ok(all)
}

// The pairs of a graph, without what only its search needs.
fn pairs_of(graph: Graph) -> Vec<TypePair>
    ensures { result.items ≡ graph.table.pairs.items }
{
    let Graph { table, next: _ } = graph;
    let PairTable { codes: _, pairs } = table;
    pairs
}

/// The pairs of types that have to correspond where the new world stands in for the old one, each once, with the exported objects
/// that own them. The search follows each pair of types once, and then hands on its owners.
pub fn owned_pairs(alloc: Global, old: &World, new: &World) -> Result<Ownership, NoMemory>
    ensures { IfOk result (λ all. IsOwnership old.now new.now all.owners.keys all.pairs.items all.claims.keys) }
{
    let error = error_type(alloc)?;
    let mut table = PairTable::new(alloc);
    let mut owners = IndexSet::new(alloc);
    let mut found = object_pairs(alloc, old, new)?;
    let roots = enter(alloc, &mut found, &mut table, &mut owners)?;
    let graph = close(alloc, &error, old, new, table)?;
    let own = own_names(alloc, old, &graph.table.pairs, &mut owners)?;
    let claims = claims(alloc, &own, &graph.next, &roots)?;
    let pairs = pairs_of(graph);
    Ok(Ownership {
        owners,
        pairs,
        claims,
    })
}

/// The pairs of types that have to correspond where the new world stands in for the old one, each once for each exported object
/// that owns it.
pub fn forced(alloc: Global, old: &World, new: &World) -> Result<List<OwnedPair>, NoMemory>
    ensures { IfOk result (AreOwnedPairs old.now new.now) }
{
    let all = owned_pairs(alloc, old, new)?;
    let pairs = take_all(alloc, &all.owners, &all.pairs, &all.claims)?;
    Ok(pairs)
}
