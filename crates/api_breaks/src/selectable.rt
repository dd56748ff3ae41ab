//! What structs lose of the fields that are found below the top level.
ghost use Rattle.std.specs.Prelude.{◌≡◌, ◌++◌, ◌∷◌, [], IfOk, OnOk};
ghost use Rattle.go_model.specs.types.Terms.{error_type};
ghost use Rattle.go_selectors.specs.Answers.{Decides};
ghost use Rattle.api_correspond.specs.Publics.{types_of};
ghost use Rattle.api_correspond.specs.Rules.{have_structs};
ghost use Rattle.api_breaks.specs.inner.Selecting.{ThroughOf, FieldThrough, KeepsPointer, KeepsSel, IsSelLoss, AreSelLosses, KeepsSels, IsSelectableLoss};
ghost use Rattle.api_breaks.specs.declared.broken.Lost.TheVariants as lost;
ghost use Rattle.api_breaks.specs.inner.Telling.{Tells, KeptBy};

use crate::broken::Lost;
use crate::pairs::are_structs;
use api_correspond::embedded::{deep_fields, is_exported};
use api_correspond::levels::under;
use go_base::memory::NoMemory;
use go_model::types::found::Found;
use go_model::types::names::Sel;
use go_model::types::package::Defined;
use go_model::types::term::Term;
use go_model::types::world::World;
use go_selectors::lookup::Lookup;
use go_type_images::pair::TypePair;
use std::alloc::Global;

// Whether a field that was found at least so deep was found through a pointer.
fn through_of(found: &Found, least: u32) -> Option<bool>
    ensures { ThroughOf found.now least result }
{
    match found {
        Found::FieldAt(field) => {
            if field.depth < least {
                return None;
            }
            Some(field.through_pointer)
        }
        _ => None,
    }
}

// Whether a selector finds a field at least so deep, and through a pointer.
fn field_through<'a>(
    alloc: Global,
    error: &'a Defined,
    world: &'a World,
    term: &'a Term,
    sel: &Sel,
    least: u32,
) -> Result<Option<bool>, NoMemory>
    requires { error.now ≡ error_type }
    ensures { IfOk result (FieldThrough (types_of world.now) sel.now term.now least) }
{
    let found = Lookup::new(world, error).find(alloc, term, sel)?;
    Ok(through_of(&found, least))
}

// Whether a field that was found through a pointer, or not, may become this.
fn keeps_pointer(before: bool, after: Option<bool>) -> bool
    ensures { Decides result (KeepsPointer before after) }
{
    match after {
        None => false,
        Some(through) => !before || through,
    }
}

fn push_name(sel: &Sel, losses: &mut Vec<Lost>) -> Result<(), NoMemory>
    ensures { OnOk result (losses.new.items ≡ losses.old.items ++ lost.Selectable sel.now.name ∷ []) }
{
    let name = sel.name.copy()?;
    losses.push(Lost::Selectable(name))?;
    Ok(())
}

// Adds that an exported selector isn't that of a field any more, where it was one below the top level.
fn push_sel(
    alloc: Global,
    error: &Defined,
    old: &World,
    new: &World,
    pair: &TypePair,
    sel: &Sel,
    losses: &mut Vec<Lost>,
) -> Result<(), NoMemory>
    requires { error.now ≡ error_type }
    ensures { OnOk result (Tells (KeepsSel old.now new.now pair.now sel.now) (IsSelLoss old.now new.now pair.now sel.now) losses.old.items losses.new.items) }
{
    if !is_exported(sel) {
        return Ok(());
    }
    let found = field_through(alloc, error, old, &pair.old, sel, 1)?;
    match found {
        None => Ok(()),
        Some(before) => {
            let after = field_through(alloc, error, new, &pair.new, sel, 0)?;
            if keeps_pointer(before, after) {
                return Ok(());
            }
            push_name(sel, losses)?;
            Ok(())
        }
    }
}

fn push_sels(
    alloc: Global,
    error: &Defined,
    old: &World,
    new: &World,
    pair: &TypePair,
    sels: &Vec<Sel>,
    losses: &mut Vec<Lost>,
) -> Result<(), NoMemory>
    requires { error.now ≡ error_type }
    ensures { OnOk result (Tells (KeptBy (KeepsSel old.now new.now pair.now) sels.now.items) (AreSelLosses old.now new.now pair.now sels.now.items) losses.old.items losses.new.items) }
{
    for sel in sels {
        push_sel(alloc, error, old, new, pair, sel, losses)?;
    }
    Ok(())
}

fn have_structs<'a>(error: &'a Defined, old: &'a World, new: &'a World, pair: &'a TypePair) -> bool
    requires { error.now ≡ error_type }
    ensures { result ≡ have_structs old.now new.now pair.now }
{
    are_structs(under(error, old, &pair.old), under(error, new, &pair.new))
}

/// Adds the exported names that are fields of the old struct below the top level, and not so in the new one.
pub(crate) fn push_selectable(
    alloc: Global,
    error: &Defined,
    old: &World,
    new: &World,
    pair: &TypePair,
    losses: &mut Vec<Lost>,
) -> Result<(), NoMemory>
    requires { error.now ≡ error_type }
    ensures { OnOk result (Tells (KeepsSels old.now new.now pair.now) (IsSelectableLoss old.now new.now pair.now) losses.old.items losses.new.items) }
{
    if !have_structs(error, old, new, pair) {
        return Ok(());
    }
    let sels = deep_fields(alloc, error, old, &pair.old)?;
    push_sels(alloc, error, old, new, pair, &sels, losses)?;
    Ok(())
}
