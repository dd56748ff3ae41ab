//! What the types of a pair lose.
ghost use Rattle.std.specs.Prelude.{◌≡◌, ◌&&◌, [], map, IfOk, OnOk};
ghost use Rattle.go_model.specs.types.Members.{field_sel};
ghost use Rattle.go_model.specs.types.Terms.{error_type};
ghost use Rattle.go_model.specs.declared.types.term.Term.{out-Term};
ghost use Rattle.go_selectors.specs.Answers.{Decides};
ghost use Rattle.go_type_images.specs.Levels.{struct_layer, interface_layer};
ghost use Rattle.api_correspond.specs.Rules.{KeepsType, CoversComparable, KeepsPair};
ghost use Rattle.api_correspond.specs.inner.BySel.{ArePlaces};
ghost use Rattle.api_breaks.specs.Breaks.{IsLoss};
ghost use Rattle.api_breaks.specs.inner.Pairs.{KeepsLayer, KeepsUnderneath, KeepsIn, KeepsFields, KeepsComparison, same_form, IsTypesLoss, IsUnderlyingLoss, IsComparableLoss, HasField, IsFieldGone, AreFieldsGone, IsFieldsLoss};
ghost use Rattle.api_breaks.specs.inner.Telling.{Tells, KeptBy};

use crate::broken::Lost;
use crate::interfaces::push_interfaces;
use crate::method_sets::push_method_sets;
use crate::selectable::push_selectable;
use api_correspond::by_sel::{field_places, places_at};
use api_correspond::embedded::is_exported;
use api_correspond::levels::{fields_of, is_interface, is_struct, under};
use api_correspond::matching::types_match;
use api_correspond::publics::are_of_module;
use go_base::list::List;
use go_base::memory::NoMemory;
use go_model::types::names::Sel;
use go_model::types::package::Defined;
use go_model::types::term::{Field, Term};
use go_model::types::world::World;
use go_type_images::pair::TypePair;
use go_types::comparison::comparable;
use std::alloc::Global;
use std::collections::BTreeMap;

pub(crate) fn are_structs(before: &Term, after: &Term) -> bool
    ensures { result ≡ (struct_layer (out-Term before.now) && struct_layer (out-Term after.now)) }
{
    is_struct(before) && is_struct(after)
}

pub(crate) fn are_interfaces(before: &Term, after: &Term) -> bool
    ensures { result ≡ (interface_layer (out-Term before.now) && interface_layer (out-Term after.now)) }
{
    is_interface(before) && is_interface(after)
}

fn have_same_form(before: &Term, after: &Term) -> bool
    ensures { result ≡ same_form (out-Term before.now) (out-Term after.now) }
{
    are_structs(before, after) || are_interfaces(before, after)
}

// Adds that the outermost constructors differ.
fn push_types(
    alloc: Global,
    old: &World,
    new: &World,
    pair: &TypePair,
    losses: &mut Vec<Lost>,
) -> Result<(), NoMemory>
    ensures { OnOk result (Tells (KeepsType old.now new.now pair.now) (IsTypesLoss old.now new.now pair.now) losses.old.items losses.new.items) }
{
    if types_match(old, new, &pair.old, &pair.new) {
        return Ok(());
    }
    let before = pair.old.copy(alloc)?;
    let after = pair.new.copy(alloc)?;
    losses.push(Lost::Type(before, after))?;
    Ok(())
}

// Whether what is underneath types of the module may become this.
fn keeps_layer(old: &World, new: &World, before: &Term, after: &Term) -> bool
    ensures { Decides result (KeepsLayer old.now new.now (out-Term before.now) (out-Term after.now)) }
{
    if types_match(old, new, before, after) {
        return true;
    }
    have_same_form(before, after)
}

// Adds that what is underneath types of the module differs so.
fn push_underlying<'a>(
    alloc: Global,
    error: &'a Defined,
    old: &'a World,
    new: &'a World,
    pair: &'a TypePair,
    losses: &mut Vec<Lost>,
) -> Result<(), NoMemory>
    requires { error.now ≡ error_type }
    ensures { OnOk result (Tells (KeepsUnderneath old.now new.now pair.now) (IsUnderlyingLoss old.now new.now pair.now) losses.old.items losses.new.items) }
{
    if !are_of_module(old, new, pair) {
        return Ok(());
    }
    let before = under(error, old, &pair.old);
    let after = under(error, new, &pair.new);
    if keeps_layer(old, new, before, after) {
        return Ok(());
    }
    let first = before.copy(alloc)?;
    let second = after.copy(alloc)?;
    losses.push(Lost::Underlying(first, second))?;
    Ok(())
}

// Whether the old type can be compared, and the outermost constructor is the same.
fn was_comparable(
    alloc: Global,
    old: &World,
    new: &World,
    pair: &TypePair,
) -> Result<bool, NoMemory>
    ensures { IfOk result (λ answer. Decides answer (CoversComparable old.now new.now pair.now)) }
{
    if !types_match(old, new, &pair.old, &pair.new) {
        return Ok(false);
    }
    let before = comparable(alloc, old, &pair.old)?;
    Ok(before)
}

// Adds that a type can't be compared any more.
fn push_comparable(
    alloc: Global,
    old: &World,
    new: &World,
    pair: &TypePair,
    losses: &mut Vec<Lost>,
) -> Result<(), NoMemory>
    ensures { OnOk result (Tells (KeepsComparison old.now new.now pair.now) (IsComparableLoss old.now new.now pair.now) losses.old.items losses.new.items) }
{
    let was = was_comparable(alloc, old, new, pair)?;
    if !was {
        return Ok(());
    }
    let after = comparable(alloc, new, &pair.new)?;
    if after {
        return Ok(());
    }
    losses.push(Lost::Comparable)?;
    Ok(())
}

/// Whether a selector stands at no place.
pub(crate) fn is_empty(places: &[usize]) -> bool
    ensures { Decides result (places.now ≡ []) }
{
    places.is_empty()
}

// Whether a field of this selector stands among fields.
fn has_field(fields: &[Field], places: &BTreeMap<Sel, List<usize>>, sel: &Sel) -> bool
    requires { ArePlaces (map field_sel fields.now) places.now }
    ensures { Decides result (HasField fields.now sel.now) }
{
    !is_empty(places_at(places, sel))
}

// Adds that an exported field is gone.
fn push_field(
    field: &Field,
    after: &[Field],
    places: &BTreeMap<Sel, List<usize>>,
    losses: &mut Vec<Lost>,
) -> Result<(), NoMemory>
    requires { ArePlaces (map field_sel after.now) places.now }
    ensures { OnOk result (Tells (KeepsIn after.now field.now) (IsFieldGone after.now field.now) losses.old.items losses.new.items) }
{
    if !is_exported(&field.sel) {
        return Ok(());
    }
    if has_field(after, places, &field.sel) {
        return Ok(());
    }
    let name = field.sel.name.copy()?;
    losses.push(Lost::Field(name))?;
    Ok(())
}

fn push_all_fields(
    alloc: Global,
    before: &[Field],
    after: &[Field],
    losses: &mut Vec<Lost>,
) -> Result<(), NoMemory>
    ensures { OnOk result (Tells (KeptBy (KeepsIn after.now) before.now) (AreFieldsGone after.now before.now) losses.old.items losses.new.items) }
{
    let places = field_places(alloc, after)?;
    for field in before {
        push_field(field, after, &places, losses)?;
    }
    Ok(())
}

// Adds the exported fields at the top level of a struct that are gone.
fn push_fields<'a>(
    alloc: Global,
    error: &'a Defined,
    old: &'a World,
    new: &'a World,
    pair: &'a TypePair,
    losses: &mut Vec<Lost>,
) -> Result<(), NoMemory>
    requires { error.now ≡ error_type }
    ensures { OnOk result (Tells (KeepsFields old.now new.now pair.now) (IsFieldsLoss old.now new.now pair.now) losses.old.items losses.new.items) }
{
    if !are_of_module(old, new, pair) {
        return Ok(());
    }
    let first = under(error, old, &pair.old);
    let second = under(error, new, &pair.new);
    if !are_structs(first, second) {
        return Ok(());
    }
    let before = fields_of(first);
    let after = fields_of(second);
    push_all_fields(alloc, before, after, losses)?;
    Ok(())
}

/// Adds what the types of a pair lose, by the rules on one pair.
pub fn push_pair(
    alloc: Global,
    error: &Defined,
    old: &World,
    new: &World,
    pair: &TypePair,
    losses: &mut Vec<Lost>,
) -> Result<(), NoMemory>
    requires { error.now ≡ error_type }
    ensures { OnOk result (Tells (KeepsPair old.now new.now pair.now) (IsLoss old.now new.now pair.now) losses.old.items losses.new.items) }
{
    push_types(alloc, old, new, pair, losses)?;
    push_underlying(alloc, error, old, new, pair, losses)?;
    push_fields(alloc, error, old, new, pair, losses)?;
    push_selectable(alloc, error, old, new, pair, losses)?;
    push_comparable(alloc, old, new, pair, losses)?;
    push_interfaces(alloc, error, old, new, pair, losses)?;
    push_method_sets(alloc, error, old, new, pair, losses)?;
    Ok(())
}
