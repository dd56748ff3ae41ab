//! Fields and methods that an old and a new type both have.
ghost use Rattle.std.specs.Prelude.{◌≡◌, ◌++◌, ◌∷◌, [], map, IfOk, OnOk};
ghost use Rattle.go_base.specs.Growing.{Grows};
ghost use Rattle.go_model.specs.types.Members.{field_sel};
ghost use Rattle.go_model.specs.types.Terms.{error_type};
ghost use Rattle.go_selectors.specs.Candidates.{Candidates, HoldMethodSet};
ghost use Rattle.api_correspond.specs.OwnedPairs.{receiver};
ghost use Rattle.api_correspond.specs.Outermost.{pair};
ghost use Rattle.go_type_images.specs.Parts.{function_type};
ghost use Rattle.api_correspond.specs.Publics.{types_of};
ghost use Rattle.api_correspond.specs.inner.BySel.{ArePlaces};
ghost use Rattle.api_correspond.specs.inner.Tables.{ItemAt};
ghost use Rattle.api_correspond.specs.inner.Leading.{IsFieldAt, AreFieldsAt, IsExportedWith, IsCommonField, IsFoundAfter, IsPromotedBy, IsPromotedField, IsCalledIn, AreCalledIn, IsCommonMethod, FieldTerm, FieldOf};

use crate::by_sel::{field_places, places_at};
use crate::embedded::{deep_fields, is_exported};
use crate::levels::method_set;
use go_base::boxed::Box;
use go_base::list::List;
use go_base::memory::NoMemory;
use go_base::shared::Shared;
use go_model::types::found::Found;
use go_model::types::names::Sel;
use go_model::types::package::Defined;
use go_model::types::term::{Field, Method, Signature, Term};
use go_model::types::world::World;
use go_selectors::candidate::Candidate;
use go_selectors::candidates::{called_at, candidates};
use go_selectors::lookup::Lookup;
use go_type_images::pair::TypePair;
use std::alloc::Global;
use std::collections::BTreeMap;

fn push_types(
    alloc: Global,
    before: &Term,
    after: &Term,
    pairs: &mut Vec<TypePair>,
) -> Result<(), NoMemory>
    ensures { OnOk result (pairs.new.items ≡ pairs.old.items ++ pair before.now after.now ∷ []) }
{
    let old = before.copy(alloc)?;
    let new = after.copy(alloc)?;
    pairs.push(TypePair { old, new })?;
    Ok(())
}

fn field_at(fields: &[Field], at: usize) -> Option<&Field>
    ensures { ItemAt fields.now at result }
{
    match fields.get(at) {
        Some(field) => Some(field),
        None => None,
    }
}

// Adds the types of a field and of the one at a place.
fn push_at(
    alloc: Global,
    field: &Field,
    after: &[Field],
    at: usize,
    pairs: &mut Vec<TypePair>,
) -> Result<(), NoMemory>
    ensures { OnOk result (Grows (IsFieldAt field.now after.now at) pairs.old.items pairs.new.items) }
{
    match field_at(after, at) {
        None => Ok(()),
        Some(other) => {
            push_types(alloc, &field.term, &other.term, pairs)?;
            Ok(())
        }
    }
}

// Adds the types of a field and of those at places.
fn push_field(
    alloc: Global,
    field: &Field,
    after: &[Field],
    places: &[usize],
    pairs: &mut Vec<TypePair>,
) -> Result<(), NoMemory>
    ensures { OnOk result (Grows (AreFieldsAt field.now after.now places.now) pairs.old.items pairs.new.items) }
{
    for at in places {
        push_at(alloc, field, after, *at, pairs)?;
    }
    Ok(())
}

// Adds the types of an exported field and of those with its selector.
fn push_exported(
    alloc: Global,
    field: &Field,
    after: &[Field],
    places: &BTreeMap<Sel, List<usize>>,
    pairs: &mut Vec<TypePair>,
) -> Result<(), NoMemory>
    requires { ArePlaces (map field_sel after.now) places.now }
    ensures { OnOk result (Grows (IsExportedWith after.now field.now) pairs.old.items pairs.new.items) }
{
    if !is_exported(&field.sel) {
        return Ok(());
    }
    let same = places_at(places, &field.sel);
    push_field(alloc, field, after, same, pairs)?;
    Ok(())
}

/// Adds the types of the exported fields that stand in both lists.
pub(crate) fn push_common_fields(
    alloc: Global,
    before: &[Field],
    after: &[Field],
    pairs: &mut Vec<TypePair>,
) -> Result<(), NoMemory>
    ensures { OnOk result (Grows (IsCommonField before.now after.now) pairs.old.items pairs.new.items) }
{
    let places = field_places(alloc, after)?;
    for field in before {
        push_exported(alloc, field, after, &places, pairs)?;
    }
    Ok(())
}

// The type of a field that was found at least so deep.
fn field_type(alloc: Global, found: &Found, least: u32) -> Result<Option<Box<Term>>, NoMemory>
    ensures { IfOk result (FieldTerm found.now least) }
{
    match found {
        Found::FieldAt(field) => {
            if field.depth < least {
                return Ok(None);
            }
            let term = field.term.copy(alloc)?;
            Ok(Some(Box::new(alloc, term)?))
        }
        _ => Ok(None),
    }
}

// The type of the field that a selector finds in a type at least so deep.
fn field_of<'a>(
    alloc: Global,
    error: &'a Defined,
    world: &'a World,
    term: &'a Term,
    sel: &Sel,
    least: u32,
) -> Result<Option<Box<Term>>, NoMemory>
    requires { error.now ≡ error_type }
    ensures { IfOk result (FieldOf (types_of world.now) sel.now term.now least) }
{
    let found = Lookup::new(world, error).find(alloc, term, sel)?;
    let answer = field_type(alloc, &found, least)?;
    Ok(answer)
}

// Adds the type of a field with that of the one that a selector finds in the new type.
fn push_found(
    alloc: Global,
    error: &Defined,
    new: &World,
    after: &Term,
    sel: &Sel,
    before: Box<Term>,
    pairs: &mut Vec<TypePair>,
) -> Result<(), NoMemory>
    requires { error.now ≡ error_type }
    ensures { OnOk result (Grows (IsFoundAfter (types_of new.now) after.now sel.now before) pairs.old.items pairs.new.items) }
{
    let found = field_of(alloc, error, new, after, sel, 0)?;
    match found {
        None => Ok(()),
        Some(found) => {
            let old = before.into_value();
            let new = found.into_value();
            pairs.push(TypePair { old, new })?;
            Ok(())
        }
    }
}

// Adds the types of the field that an exported selector finds in both types, in the old one below the top level.
fn push_promoted(
    alloc: Global,
    error: &Defined,
    old: &World,
    new: &World,
    pair: &TypePair,
    sel: &Sel,
    pairs: &mut Vec<TypePair>,
) -> Result<(), NoMemory>
    requires { error.now ≡ error_type }
    ensures { OnOk result (Grows (IsPromotedBy (types_of old.now) (types_of new.now) pair.now sel.now) pairs.old.items pairs.new.items) }
{
    if !is_exported(sel) {
        return Ok(());
    }
    let found = field_of(alloc, error, old, &pair.old, sel, 1)?;
    match found {
        None => Ok(()),
        Some(before) => {
            push_found(alloc, error, new, &pair.new, sel, before, pairs)?;
            Ok(())
        }
    }
}

/// Adds the types of the exported fields that are found in both types, in the old one below the top level.
pub(crate) fn push_promoted_fields(
    alloc: Global,
    error: &Defined,
    old: &World,
    new: &World,
    pair: &TypePair,
    pairs: &mut Vec<TypePair>,
) -> Result<(), NoMemory>
    requires { error.now ≡ error_type }
    ensures { OnOk result (Grows (IsPromotedField (types_of old.now) (types_of new.now) pair.now) pairs.old.items pairs.new.items) }
{
    let sels = deep_fields(alloc, error, old, &pair.old)?;
    for sel in &sels {
        push_promoted(alloc, error, old, new, pair, sel, pairs)?;
    }
    Ok(())
}

// The type whose method set counts: an interface itself, and the pointer to any other type.
fn receiver<'a>(
    alloc: Global,
    error: &'a Defined,
    world: &'a World,
    term: &'a Term,
) -> Result<Term, NoMemory>
    requires { error.now ≡ error_type }
    ensures { IfOk result (λ copied. copied ≡ receiver (types_of world.now) term.now) }
{
    let copied = term.copy(alloc)?;
    match Lookup::new(world, error).under(term) {
        Term::Interface(_) => Ok(copied),
        _ => Ok(Term::Pointer(Shared::new(alloc, copied)?)),
    }
}

fn push_functions(
    alloc: Global,
    before: &Signature,
    after: &Signature,
    pairs: &mut Vec<TypePair>,
) -> Result<(), NoMemory>
    ensures { OnOk result (pairs.new.items ≡ pairs.old.items ++ pair (function_type before.now) (function_type after.now) ∷ []) }
{
    let old = Term::Func(before.copy(alloc)?);
    let new = Term::Func(after.copy(alloc)?);
    pairs.push(TypePair { old, new })?;
    Ok(())
}

// Adds the types of a method and of the one with its selector that can be called.
fn push_method(
    alloc: Global,
    method: &Method,
    callable: &BTreeMap<Sel, Candidate<'_>>,
    pairs: &mut Vec<TypePair>,
) -> Result<(), NoMemory>
    ensures { OnOk result (Grows (IsCalledIn callable.now method.now) pairs.old.items pairs.new.items) }
{
    if !is_exported(&method.sel) {
        return Ok(());
    }
    match called_at(callable, &method.sel) {
        None => Ok(()),
        Some(after) => {
            push_functions(alloc, &method.signature, after, pairs)?;
            Ok(())
        }
    }
}

fn push_methods(
    alloc: Global,
    methods: &[Method],
    callable: &BTreeMap<Sel, Candidate<'_>>,
    pairs: &mut Vec<TypePair>,
) -> Result<(), NoMemory>
    ensures { OnOk result (Grows (AreCalledIn callable.now methods.now) pairs.old.items pairs.new.items) }
{
    for method in methods {
        push_method(alloc, method, callable, pairs)?;
    }
    Ok(())
}

// Adds the types of methods and of those with their selectors that can be called on a type.
fn push_called<'a>(
    alloc: Global,
    error: &'a Defined,
    world: &'a World,
    term: &'a Term,
    methods: &[Method],
    pairs: &mut Vec<TypePair>,
) -> Result<(), NoMemory>
    requires { error.now ≡ error_type }
    ensures { OnOk result ((callable : Candidates) × HoldMethodSet (types_of world.now) term.now callable × Grows (AreCalledIn callable methods.now) pairs.old.items pairs.new.items) }
{
    let types = Lookup::new(world, error);
    let callable = candidates(alloc, &types, term)?;
    push_methods(alloc, methods, &callable, pairs)?;
    Ok(())
}

/// Adds the types of the exported methods of both types.
pub(crate) fn push_common_methods(
    alloc: Global,
    error: &Defined,
    old: &World,
    new: &World,
    pair: &TypePair,
    pairs: &mut Vec<TypePair>,
) -> Result<(), NoMemory>
    requires { error.now ≡ error_type }
    ensures { OnOk result (Grows (IsCommonMethod (types_of old.now) (types_of new.now) pair.now) pairs.old.items pairs.new.items) }
{
    let before = receiver(alloc, error, old, &pair.old)?;
    let after = receiver(alloc, error, new, &pair.new)?;
    let methods = method_set(alloc, error, old, &before)?;
    push_called(alloc, error, new, &after, methods.items(), pairs)?;
    Ok(())
}
