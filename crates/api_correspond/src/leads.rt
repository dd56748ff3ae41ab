//! The pairs of types to which a pair leads.
ghost use Rattle.std.specs.Prelude.{◌≡◌, ◌↔◌, IfOk, OnOk};
ghost use Rattle.go_base.specs.Growing.{Grows};
ghost use Rattle.go_base.specs.Lists.{Has};
ghost use Rattle.go_model.specs.declared.types.term.Term.{out-Term};
ghost use Rattle.go_model.specs.types.Terms.{error_type};
ghost use Rattle.api_correspond.specs.OwnedPairs.{have_members, Leads};
ghost use Rattle.go_type_images.specs.Levels.{is_structured};
ghost use Rattle.go_type_images.specs.declared.pair.TypePair.{TypePair};
ghost use Rattle.api_correspond.specs.inner.Leading.{IsPart, IsPartUnderneath, IsTopField, IsMember};

use crate::levels::{fields_of, is_struct, under};
use crate::matching::types_match;
use crate::members::{push_common_fields, push_common_methods, push_promoted_fields};
use crate::parts::{parts, push_pairs};
use crate::publics::are_of_module;
use go_base::memory::NoMemory;
use go_model::types::package::Defined;
use go_model::types::term::Term;
use go_model::types::world::World;
use go_type_images::pair::TypePair;
use std::alloc::Global;

fn is_structured(term: &Term) -> bool
    ensures { result ≡ is_structured (out-Term term.now) }
{
    match term {
        Term::Struct(_) => true,
        Term::Interface(_) => true,
        _ => false,
    }
}

fn have_members(old: &World, new: &World, pair: &TypePair) -> bool
    ensures { result ≡ have_members old.now new.now pair.now }
{
    are_of_module(old, new, pair) || is_struct(&pair.old) && is_struct(&pair.new)
}

// Adds the pairs of parts, where the outermost constructors match.
fn push_parts(
    alloc: Global,
    old: &World,
    new: &World,
    before: &Term,
    after: &Term,
    pairs: &mut Vec<TypePair>,
) -> Result<(), NoMemory>
    ensures { OnOk result (Grows (IsPart old.now new.now (out-Term before.now) (out-Term after.now)) pairs.old.items pairs.new.items) }
{
    if !types_match(old, new, before, after) {
        return Ok(());
    }
    let first = parts(alloc, before)?;
    let second = parts(alloc, after)?;
    let before_parts = first.as_slice();
    let after_parts = second.as_slice();
    push_pairs(alloc, before_parts, after_parts, pairs)?;
    Ok(())
}

// The same of what is underneath types of the module, where that is neither a struct nor an interface.
fn push_underneath<'a>(
    alloc: Global,
    error: &'a Defined,
    old: &'a World,
    new: &'a World,
    pair: &'a TypePair,
    pairs: &mut Vec<TypePair>,
) -> Result<(), NoMemory>
    requires { error.now ≡ error_type }
    ensures { OnOk result (Grows (IsPartUnderneath old.now new.now pair.now) pairs.old.items pairs.new.items) }
{
    if !are_of_module(old, new, pair) {
        return Ok(());
    }
    let before = under(error, old, &pair.old);
    if is_structured(before) {
        return Ok(());
    }
    let after = under(error, new, &pair.new);
    push_parts(alloc, old, new, before, after, pairs)?;
    Ok(())
}

// Adds the types of exported fields that stand in both types, where they are of the module.
fn push_fields<'a>(
    alloc: Global,
    error: &'a Defined,
    old: &'a World,
    new: &'a World,
    pair: &'a TypePair,
    pairs: &mut Vec<TypePair>,
) -> Result<(), NoMemory>
    requires { error.now ≡ error_type }
    ensures { OnOk result (Grows (IsTopField old.now new.now pair.now) pairs.old.items pairs.new.items) }
{
    if !are_of_module(old, new, pair) {
        return Ok(());
    }
    let first = under(error, old, &pair.old);
    let second = under(error, new, &pair.new);
    let before = fields_of(first);
    let after = fields_of(second);
    push_common_fields(alloc, before, after, pairs)?;
    Ok(())
}

// Adds the types of promoted fields and of methods of both types, where these are followed.
fn push_members(
    alloc: Global,
    error: &Defined,
    old: &World,
    new: &World,
    pair: &TypePair,
    pairs: &mut Vec<TypePair>,
) -> Result<(), NoMemory>
    requires { error.now ≡ error_type }
    ensures { OnOk result (Grows (IsMember old.now new.now pair.now) pairs.old.items pairs.new.items) }
{
    if !have_members(old, new, pair) {
        return Ok(());
    }
    push_promoted_fields(alloc, error, old, new, pair, pairs)?;
    push_common_methods(alloc, error, old, new, pair, pairs)?;
    Ok(())
}

/// The pairs of types to which a pair leads.
pub fn leads(
    alloc: Global,
    error: &Defined,
    old: &World,
    new: &World,
    pair: &TypePair,
) -> Result<Vec<TypePair>, NoMemory>
    requires { error.now ≡ error_type }
    ensures { IfOk result (λ pairs. (q : TypePair) → Has pairs.items q ↔ Leads old.now new.now pair.now q) }
{
    let mut pairs = Vec::new(alloc);
    push_parts(alloc, old, new, &pair.old, &pair.new, &mut pairs)?;
    push_underneath(alloc, error, old, new, pair, &mut pairs)?;
    push_fields(alloc, error, old, new, pair, &mut pairs)?;
    push_members(alloc, error, old, new, pair, &mut pairs)?;
    Ok(pairs)
}
