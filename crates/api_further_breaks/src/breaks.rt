//! What is broken where a new world takes the place of an old one, by all rules.
ghost use Rattle.std.specs.Prelude.{◌≡◌, ◌↔◌, List as Seq, [], IfOk, OnOk};
ghost use Rattle.go_base.specs.Growing.{Grows};
ghost use Rattle.go_base.specs.Lists.{Has};
ghost use Rattle.api_correspond.specs.OwnedPairs.{HoldsOwned};
ghost use Rattle.api_correspond.specs.Rules.{Compatible};
ghost use Rattle.go_type_images.specs.declared.pair.TypePair.{TypePair};
ghost use Rattle.api_correspond.specs.inner.Tables.{ItemAt};
ghost use Rattle.api_breaks.specs.Breaks.{IsBreak};
ghost use Rattle.api_breaks.specs.declared.broken.Break.{Break as Broken};
ghost use Rattle.api_further_breaks.specs.inner.Losses.{IsOfClaim, AreOfClaims, IsOfLost, AreOfLosses};

use crate::losses::all_losses;
use api_breaks::broken::{Break, Lost};
use api_breaks::packages::package_breaks;
use api_forced::claims::Claim;
use api_forced::forced::owned_pairs;
use go_base::list::List;
use go_base::memory::NoMemory;
use go_base::text::Text;
use go_model::types::world::World;
use go_selectors::lookup::error_type;
use indexmap::IndexSet;
use std::alloc::Global;

fn owner_at(owners: &IndexSet<Text>, at: usize) -> Option<&Text>
    ensures { ItemAt owners.now.keys at result }
{
    match owners.as_slice().get(at) {
        Some(owner) => Some(owner),
        None => None,
    }
}

fn losses_at(losses: &Vec<List<Lost>>, at: usize) -> Option<&List<Lost>>
    ensures { ItemAt losses.now.items at result }
{
    match losses.get(at) {
        Some(list) => Some(list),
        None => None,
    }
}

fn push_loss(
    alloc: Global,
    owner: &Text,
    lost: &Lost,
    breaks: &mut Vec<Break>,
) -> Result<(), NoMemory>
    ensures { OnOk result (Grows (IsOfLost owner.now lost.now) breaks.old.items breaks.new.items) }
{
    let owner = owner.copy()?;
    let lost = lost.copy(alloc)?;
    breaks.push(Break { owner, lost })?;
    Ok(())
}

fn push_losses(
    alloc: Global,
    owner: &Text,
    losses: &[Lost],
    breaks: &mut Vec<Break>,
) -> Result<(), NoMemory>
    ensures { OnOk result (Grows (AreOfLosses owner.now losses.now) breaks.old.items breaks.new.items) }
{
    for lost in losses {
        push_loss(alloc, owner, lost, breaks)?;
    }
    Ok(())
}

// Adds what the pair of a claim loses, for its owner.
fn push_claim(
    alloc: Global,
    owners: &IndexSet<Text>,
    losses: &Vec<List<Lost>>,
    claim: &Claim,
    breaks: &mut Vec<Break>,
) -> Result<(), NoMemory>
    ensures { OnOk result (Grows (IsOfClaim owners.now.keys losses.now.items claim.now) breaks.old.items breaks.new.items) }
{
    match owner_at(owners, claim.owner) {
        None => Ok(()),
        Some(owner) => match losses_at(losses, claim.pair) {
            None => Ok(()),
            Some(list) => {
                push_losses(alloc, owner, list.items(), breaks)?;
                Ok(())
            }
        },
    }
}

fn push_claims(
    alloc: Global,
    owners: &IndexSet<Text>,
    losses: &Vec<List<Lost>>,
    claims: &IndexSet<Claim>,
    breaks: &mut Vec<Break>,
) -> Result<(), NoMemory>
    ensures { OnOk result (Grows (AreOfClaims owners.now.keys losses.now.items claims.now.keys) breaks.old.items breaks.new.items) }
{
    let items = claims.as_slice();
    for claim in items {
        push_claim(alloc, owners, losses, claim, breaks)?;
    }
    Ok(())
}

/// What is broken: what the public packages of the old world and their exported objects lose, and what the types lose that have to
/// correspond, each for the objects that own them. Nothing is, exactly where the new world keeps all of the old one. And some
/// list holds all pairs of types that have to correspond.
pub fn breaks(alloc: Global, old: &World, new: &World) -> Result<Vec<Break>, NoMemory>
    ensures exact { IfOk result (λ breaks. (b : Broken) → Has breaks.items b ↔ IsBreak old.now new.now b) }
    ensures compatible { IfOk result (λ breaks. (breaks.items ≡ []) ↔ Compatible old.now new.now) }
    ensures held { IfOk result (λ breaks. (pairs : Seq TypePair) × HoldsOwned old.now new.now pairs) }
{
    let mut breaks = package_breaks(alloc, old, new)?;
    let all = owned_pairs(alloc, old, new)?;
    let error = error_type(alloc)?;
    let losses = all_losses(alloc, &error, old, new, &all.pairs)?;
    push_claims(alloc, &all.owners, &losses, &all.claims, &mut breaks)?;
    Ok(breaks)
}
