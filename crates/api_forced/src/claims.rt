//! Which exported object owns which pairs of types.
ghost use Rattle.std.specs.Prelude.{◌≡◌, [], IfOk, OnOk};
ghost use Rattle.api_forced.specs.inner.Graphs.{OwnNames, OwnName};
ghost use Rattle.api_forced.specs.inner.Claims.{ClaimAt, IsClaimOf, AddsClaims, LedClaims, RootClaims, LedBy, HoldClaims, owner_by};
ghost use Rattle.api_correspond.specs.inner.Tables.{ItemAt, KeepsTexts};

use api_correspond::publics::{public_name, qualified};
use api_correspond::table::add_text;
use go_base::list::List;
use go_base::memory::NoMemory;
use go_base::text::Text;
use go_model::types::world::World;
use go_type_images::pair::TypePair;
use indexmap::IndexSet;
use std::alloc::Global;

/// A pair of types by its number, with the number of an owner.
#[derive(Clone, Copy, Debug, PartialEq, Eq, Hash)]
pub struct Claim {
    pub owner: usize,
    pub pair: usize,
}

// The number of the owner that an old type has by its own name.
fn own_name(
    alloc: Global,
    world: &World,
    pair: &TypePair,
    texts: &mut IndexSet<Text>,
) -> Result<Option<usize>, NoMemory>
    ensures keeps { OnOk result (KeepsTexts texts.old.keys texts.new.keys) }
    ensures own { IfOk result (OwnName world.now texts.new.keys pair.now.old) }
{
    match public_name(world, &pair.old) {
        None => Ok(None),
        Some(name) => {
            let text = qualified(alloc, &name.path, &name.name)?;
            let (at, _fresh) = add_text(texts, text)?;
            Ok(Some(at))
        }
    }
}

/// The numbers of the owners that the old types have by their own names.
pub(crate) fn own_names(
    alloc: Global,
    world: &World,
    pairs: &Vec<TypePair>,
    texts: &mut IndexSet<Text>,
) -> Result<Vec<Option<usize>>, NoMemory>
    ensures keeps { OnOk result (KeepsTexts texts.old.keys texts.new.keys) }
    ensures own { IfOk result (λ own. OwnNames world.now texts.new.keys pairs.now.items own.items) }
{
    let mut own = Vec::new(alloc);
    for pair in pairs {
        let name = own_name(alloc, world, pair, texts)?;
        own.push(name)?;
    }
    Ok(own)
}

// Adds a claim, where it isn't there.
fn add(claims: &mut IndexSet<Claim>, claim: Claim) -> Result<(), NoMemory>
    ensures { OnOk result (AddsClaims (λ c. claim ≡ c) claims.old.keys claims.new.keys) }
{
    claims.insert(claim)?;
    Ok(())
}

// Adds the claim of a pair to which one with this owner leads: the pair's own name comes first.
fn add_led(
    claims: &mut IndexSet<Claim>,
    own: &Vec<Option<usize>>,
    leader: usize,
    pair: usize,
) -> Result<(), NoMemory>
    ensures { OnOk result (AddsClaims (IsClaimOf own.now.items leader pair) claims.old.keys claims.new.keys) }
{
    match name_at(own, pair) {
        None => Ok(()),
        Some(name) => {
            let owner = owner_by(*name, leader);
            add(claims, Claim { owner, pair })?;
            Ok(())
        }
    }
}

fn name_at(own: &Vec<Option<usize>>, at: usize) -> Option<&Option<usize>>
    ensures { ItemAt own.now.items at result }
{
    match own.get(at) {
        Some(name) => Some(name),
        None => None,
    }
}

fn numbers_at(next: &Vec<List<usize>>, at: usize) -> Option<&List<usize>>
    ensures { ItemAt next.now.items at result }
{
    match next.get(at) {
        Some(numbers) => Some(numbers),
        None => None,
    }
}

fn owner_by(own: Option<usize>, leader: usize) -> usize
    ensures { result ≡ owner_by own leader }
{
    match own {
        Some(name) => name,
        None => leader,
    }
}

fn add_all(
    claims: &mut IndexSet<Claim>,
    own: &Vec<Option<usize>>,
    leader: usize,
    numbers: &[usize],
) -> Result<(), NoMemory>
    ensures { OnOk result (AddsClaims (LedClaims own.now.items leader numbers.now) claims.old.keys claims.new.keys) }
{
    for pair in numbers {
        add_led(claims, own, leader, *pair)?;
    }
    Ok(())
}

fn add_roots(
    claims: &mut IndexSet<Claim>,
    own: &Vec<Option<usize>>,
    roots: &Vec<Claim>,
) -> Result<(), NoMemory>
    ensures { OnOk result (AddsClaims (RootClaims own.now.items roots.now.items) claims.old.keys claims.new.keys) }
{
    for root in roots {
        add_led(claims, own, root.owner, root.pair)?;
    }
    Ok(())
}

fn claim_at(claims: &IndexSet<Claim>, at: usize) -> Option<Claim>
    ensures { ClaimAt claims.now.keys at result }
{
    match claims.as_slice().get(at) {
        Some(claim) => Some(*claim),
        None => None,
    }
}

// Adds the claims to which one leads.
fn follow(
    claims: &mut IndexSet<Claim>,
    own: &Vec<Option<usize>>,
    next: &Vec<List<usize>>,
    claim: Claim,
) -> Result<(), NoMemory>
    ensures { OnOk result (AddsClaims (LedBy own.now.items next.now.items claim) claims.old.keys claims.new.keys) }
{
    match numbers_at(next, claim.pair) {
        None => Ok(()),
        Some(numbers) => {
            add_all(claims, own, claim.owner, numbers.items())?;
            Ok(())
        }
    }
}

/// All claims: those of the roots, and those to which claims lead.
pub(crate) fn claims(
    alloc: Global,
    own: &Vec<Option<usize>>,
    next: &Vec<List<usize>>,
    roots: &Vec<Claim>,
) -> Result<IndexSet<Claim>, NoMemory>
    ensures { IfOk result (λ claims. HoldClaims own.now.items next.now.items roots.now.items claims.keys) }
{
    let mut claims = IndexSet::new(alloc);
    add_roots(&mut claims, own, roots)?;
    for at in 0..usize::MAX {
        match claim_at(&claims, at) {
            None => return Ok(claims),
            Some(claim) => follow(&mut claims, own, next, claim)?,
        }
    }
    Err(NoMemory)
}
