//! What method sets lose.
ghost use Rattle.std.specs.Prelude.{◌≡◌, [], true, OnOk};
ghost use Rattle.go_model.specs.types.Terms.{error_type, pointer_to};
ghost use Rattle.go_selectors.specs.Answers.{Decides};
ghost use Rattle.go_selectors.specs.Candidates.{Candidates, HoldMethodSet};
ghost use Rattle.api_correspond.specs.Publics.{types_of};
ghost use Rattle.api_correspond.specs.Rules.{have_method_sets};
ghost use Rattle.api_breaks.specs.inner.MethodSets.{KeptIn, KeepsCalled, IsLostIn, AreLostIn, KeepsMethodSet, IsLostMethod, KeepsSets, IsMethodSetLoss, are_plain};
ghost use Rattle.api_breaks.specs.inner.Telling.{Tells, KeptBy};

use crate::broken::Lost;
use crate::interfaces::{counts, is_std_sel};
use crate::pairs::are_structs;
use api_correspond::levels::{is_interface, method_set, under};
use api_correspond::publics::are_of_module;
use go_base::memory::NoMemory;
use go_model::types::names::Sel;
use go_model::types::package::Defined;
use go_model::types::term::{Method, Term, pointer_to};
use go_model::types::world::World;
use go_selectors::candidate::Candidate;
use go_selectors::candidates::{called_at, candidates};
use go_selectors::identity::same_signature;
use go_selectors::lookup::Lookup;
use go_type_images::pair::TypePair;
use std::alloc::Global;
use std::collections::BTreeMap;

// Whether a method can still be called; an unexported one of the standard library only with its signature.
fn keeps_method(old: &World, callable: &BTreeMap<Sel, Candidate<'_>>, method: &Method) -> bool
    ensures { Decides result (KeptIn old.now callable.now method.now) }
{
    match called_at(callable, &method.sel) {
        None => false,
        Some(after) => {
            if !is_std_sel(old, &method.sel) {
                return true;
            }
            same_signature(after, &method.signature)
        }
    }
}

// Adds that a method that counts can't be called any more.
fn push_lost(
    alloc: Global,
    old: &World,
    callable: &BTreeMap<Sel, Candidate<'_>>,
    method: &Method,
    losses: &mut Vec<Lost>,
) -> Result<(), NoMemory>
    ensures { OnOk result (Tells (KeepsCalled old.now callable.now method.now) (IsLostIn old.now callable.now method.now) losses.old.items losses.new.items) }
{
    if !counts(old, &method.sel) {
        return Ok(());
    }
    if keeps_method(old, callable, method) {
        return Ok(());
    }
    let sel = method.sel.copy(alloc)?;
    losses.push(Lost::Method(sel))?;
    Ok(())
}

fn push_all_lost(
    alloc: Global,
    old: &World,
    callable: &BTreeMap<Sel, Candidate<'_>>,
    methods: &[Method],
    losses: &mut Vec<Lost>,
) -> Result<(), NoMemory>
    ensures { OnOk result (Tells (KeptBy (KeepsCalled old.now callable.now) methods.now) (AreLostIn old.now callable.now methods.now) losses.old.items losses.new.items) }
{
    for method in methods {
        push_lost(alloc, old, callable, method, losses)?;
    }
    Ok(())
}

// Adds the methods of these that can't be called on a type of the new world.
fn push_uncalled<'a>(
    alloc: Global,
    error: &'a Defined,
    old: &World,
    new: &'a World,
    after: &'a Term,
    methods: &[Method],
    losses: &mut Vec<Lost>,
) -> Result<(), NoMemory>
    requires { error.now ≡ error_type }
    ensures { OnOk result ((callable : Candidates) × HoldMethodSet (types_of new.now) after.now callable × Tells (KeptBy (KeepsCalled old.now callable) methods.now) (AreLostIn old.now callable methods.now) losses.old.items losses.new.items) }
{
    let types = Lookup::new(new, error);
    let callable = candidates(alloc, &types, after)?;
    push_all_lost(alloc, old, &callable, methods, losses)?;
    Ok(())
}

fn is_none(methods: &[Method]) -> bool
    ensures { result ≡ true → methods.now ≡ [] }
{
    methods.is_empty()
}

// Adds what the method set of a type loses.
fn push_set(
    alloc: Global,
    error: &Defined,
    old: &World,
    new: &World,
    before: &Term,
    after: &Term,
    losses: &mut Vec<Lost>,
) -> Result<(), NoMemory>
    requires { error.now ≡ error_type }
    ensures { OnOk result (Tells (KeepsMethodSet old.now new.now before.now after.now) (IsLostMethod old.now new.now before.now after.now) losses.old.items losses.new.items) }
{
    let set = method_set(alloc, error, old, before)?;
    let methods = set.items();
    if is_none(methods) {
        return Ok(());
    }
    push_uncalled(alloc, error, old, new, after, methods, losses)?;
    Ok(())
}

fn push_pointers(
    alloc: Global,
    error: &Defined,
    old: &World,
    new: &World,
    pair: &TypePair,
    losses: &mut Vec<Lost>,
) -> Result<(), NoMemory>
    requires { error.now ≡ error_type }
    ensures { OnOk result (Tells (KeepsMethodSet old.now new.now (pointer_to pair.now.old) (pointer_to pair.now.new)) (IsLostMethod old.now new.now (pointer_to pair.now.old) (pointer_to pair.now.new)) losses.old.items losses.new.items) }
{
    let before = pointer_to(alloc, &pair.old)?;
    let after = pointer_to(alloc, &pair.new)?;
    push_set(alloc, error, old, new, &before, &after, losses)?;
    Ok(())
}

// Whether both types are of the module and neither is an interface.
fn are_plain<'a>(error: &'a Defined, old: &'a World, new: &'a World, pair: &'a TypePair) -> bool
    requires { error.now ≡ error_type }
    ensures { result ≡ are_plain old.now new.now pair.now }
{
    let of_module = are_of_module(old, new, pair);
    let before = is_interface(under(error, old, &pair.old));
    let after = is_interface(under(error, new, &pair.new));
    of_module && !before && !after
}

fn have_method_sets(error: &Defined, old: &World, new: &World, pair: &TypePair) -> bool
    requires { error.now ≡ error_type }
    ensures { result ≡ have_method_sets old.now new.now pair.now }
{
    are_plain(error, old, new, pair) || are_structs(&pair.old, &pair.new)
}

/// Adds what the method sets of two types and of their pointers lose, where these are compared.
pub(crate) fn push_method_sets(
    alloc: Global,
    error: &Defined,
    old: &World,
    new: &World,
    pair: &TypePair,
    losses: &mut Vec<Lost>,
) -> Result<(), NoMemory>
    requires { error.now ≡ error_type }
    ensures { OnOk result (Tells (KeepsSets old.now new.now pair.now) (IsMethodSetLoss old.now new.now pair.now) losses.old.items losses.new.items) }
{
    if !have_method_sets(error, old, new, pair) {
        return Ok(());
    }
    push_set(alloc, error, old, new, &pair.old, &pair.new, losses)?;
    push_pointers(alloc, error, old, new, pair, losses)?;
    Ok(())
}
