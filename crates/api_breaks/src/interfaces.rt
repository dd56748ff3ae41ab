//! What interfaces of the module lose.
ghost use Rattle.std.specs.Prelude.{◌≡◌, ◌↔◌, ◌++◌, ◌∷◌, [], map, IsTrue, OnOk};
ghost use Rattle.go_base.specs.Keys.{item_of};
ghost use Rattle.go_model.specs.types.MethodSets.{method_sel};
ghost use Rattle.go_model.specs.types.Terms.{error_type};
ghost use Rattle.go_selectors.specs.Answers.{Decides};
ghost use Rattle.api_correspond.specs.Publics.{of_std};
ghost use Rattle.api_correspond.specs.Rules.{is_std_sel, Counts};
ghost use Rattle.api_correspond.specs.inner.BySel.{ArePlaces};
ghost use Rattle.api_correspond.specs.inner.Tables.{ItemAt};
ghost use Rattle.api_breaks.specs.inner.Interfaces.{HasSealing, Serves, HasServing, ServesAt, HasSel, KeepsMethod, IsMethodGone, AreMethodsGone, WasMethod, IsMethodNew, AreMethodsNew, IsSealedApart, KeepsWhere, IsNewWhere, KeepsMethods, IsOfMethods, KeepsInterface, IsInterfaceLoss, lost_method};
ghost use Rattle.api_breaks.specs.inner.Telling.{Tells, KeptBy};

use crate::broken::Lost;
use crate::pairs::{are_interfaces, is_empty};
use api_correspond::by_sel::{method_places, places_at};
use api_correspond::embedded::is_exported;
use api_correspond::levels::{methods_of, under};
use api_correspond::publics::{are_of_module, is_sealing};
use go_base::list::List;
use go_base::memory::NoMemory;
use go_model::types::names::Sel;
use go_model::types::package::{Defined, Package};
use go_model::types::term::Method;
use go_model::types::world::World;
use go_selectors::identity::{same_sel, same_signature};
use go_type_images::pair::TypePair;
use std::alloc::Global;
use std::collections::BTreeMap;

fn has_sealing(world: &World, methods: &[Method]) -> bool
    ensures { Decides result (HasSealing world.now methods.now) }
{
    for method in methods {
        if is_sealing(world, &method.sel) {
            return true;
        }
    }
    false
}

fn of_std(found: Option<&Package>) -> bool
    ensures { result ≡ of_std (item_of found.entry) }
{
    match found {
        Some(package) => package.from_std,
        None => false,
    }
}

/// Whether a selector is of a package of the standard library.
pub(crate) fn is_std_sel(world: &World, sel: &Sel) -> bool
    ensures { result ≡ is_std_sel world.now sel.now }
{
    of_std(world.package(sel.package.bytes()))
}

/// Whether a method counts by itself.
pub(crate) fn counts(world: &World, sel: &Sel) -> bool
    ensures { Decides result (Counts world.now sel.now) }
{
    if is_exported(sel) {
        return true;
    }
    is_std_sel(world, sel)
}

fn is_same(left: &Method, right: &Method) -> bool
    ensures { IsTrue result ↔ (left.now ≡ right.now) }
{
    same_sel(&left.sel, &right.sel) && same_signature(&left.signature, &right.signature)
}

// Whether a method stands for another one: an unexported one of the standard library only for itself.
fn serves(world: &World, other: &Method, method: &Method) -> bool
    ensures { Decides result (Serves world.now method.now other.now) }
{
    if !same_sel(&other.sel, &method.sel) {
        return false;
    }
    if !is_std_sel(world, &method.sel) {
        return true;
    }
    is_same(other, method)
}

fn method_at(methods: &[Method], at: usize) -> Option<&Method>
    ensures { ItemAt methods.now at result }
{
    match methods.get(at) {
        Some(method) => Some(method),
        None => None,
    }
}

// Whether the method at a place stands for another one.
fn serves_at(world: &World, methods: &[Method], at: usize, method: &Method) -> bool
    ensures { Decides result (ServesAt world.now methods.now method.now at) }
{
    match method_at(methods, at) {
        None => false,
        Some(other) => serves(world, other, method),
    }
}

// Whether one of the methods at places stands for another one.
fn has_serving(
    world: &World,
    methods: &[Method],
    places: &BTreeMap<Sel, List<usize>>,
    method: &Method,
) -> bool
    requires { ArePlaces (map method_sel methods.now) places.now }
    ensures { Decides result (HasServing world.now methods.now method.now) }
{
    let same = places_at(places, &method.sel);
    for at in same {
        if serves_at(world, methods, *at, method) {
            return true;
        }
    }
    false
}

// Whether a method of this selector stands among methods.
fn has_sel(methods: &[Method], places: &BTreeMap<Sel, List<usize>>, sel: &Sel) -> bool
    requires { ArePlaces (map method_sel methods.now) places.now }
    ensures { Decides result (HasSel methods.now sel.now) }
{
    !is_empty(places_at(places, sel))
}

fn push_method(alloc: Global, method: &Method, losses: &mut Vec<Lost>) -> Result<(), NoMemory>
    ensures { OnOk result (losses.new.items ≡ losses.old.items ++ lost_method method.now ∷ []) }
{
    let sel = method.sel.copy(alloc)?;
    losses.push(Lost::InterfaceMethod(sel))?;
    Ok(())
}

// Adds that a method that counts is gone.
fn push_gone(
    alloc: Global,
    old: &World,
    method: &Method,
    after: &[Method],
    places: &BTreeMap<Sel, List<usize>>,
    losses: &mut Vec<Lost>,
) -> Result<(), NoMemory>
    requires { ArePlaces (map method_sel after.now) places.now }
    ensures { OnOk result (Tells (KeepsMethod old.now after.now method.now) (IsMethodGone old.now after.now method.now) losses.old.items losses.new.items) }
{
    if !counts(old, &method.sel) {
        return Ok(());
    }
    if has_serving(old, after, places, method) {
        return Ok(());
    }
    push_method(alloc, method, losses)?;
    Ok(())
}

fn push_all_gone(
    alloc: Global,
    old: &World,
    before: &[Method],
    after: &[Method],
    losses: &mut Vec<Lost>,
) -> Result<(), NoMemory>
    ensures { OnOk result (Tells (KeptBy (KeepsMethod old.now after.now) before.now) (AreMethodsGone old.now before.now after.now) losses.old.items losses.new.items) }
{
    let places = method_places(alloc, after)?;
    for method in before {
        push_gone(alloc, old, method, after, &places, losses)?;
    }
    Ok(())
}

// Adds that a method is new.
fn push_new(
    alloc: Global,
    before: &[Method],
    places: &BTreeMap<Sel, List<usize>>,
    method: &Method,
    losses: &mut Vec<Lost>,
) -> Result<(), NoMemory>
    requires { ArePlaces (map method_sel before.now) places.now }
    ensures { OnOk result (Tells (WasMethod before.now method.now) (IsMethodNew before.now method.now) losses.old.items losses.new.items) }
{
    if has_sel(before, places, &method.sel) {
        return Ok(());
    }
    push_method(alloc, method, losses)?;
    Ok(())
}

fn push_all_new(
    alloc: Global,
    before: &[Method],
    after: &[Method],
    losses: &mut Vec<Lost>,
) -> Result<(), NoMemory>
    ensures { OnOk result (Tells (KeptBy (WasMethod before.now) after.now) (AreMethodsNew before.now after.now) losses.old.items losses.new.items) }
{
    let places = method_places(alloc, before)?;
    for method in after {
        push_new(alloc, before, &places, method, losses)?;
    }
    Ok(())
}

// Adds the methods that are new, where both interfaces are open.
fn push_open(
    alloc: Global,
    first: bool,
    second: bool,
    before: &[Method],
    after: &[Method],
    losses: &mut Vec<Lost>,
) -> Result<(), NoMemory>
    ensures { OnOk result (Tells (KeepsWhere first second before.now after.now) (IsNewWhere first second before.now after.now) losses.old.items losses.new.items) }
{
    if first {
        return Ok(());
    }
    if second {
        return Ok(());
    }
    push_all_new(alloc, before, after, losses)?;
    Ok(())
}

// Adds that one of two interfaces alone is sealed.
fn push_sealing(first: bool, second: bool, losses: &mut Vec<Lost>) -> Result<(), NoMemory>
    ensures { OnOk result (Tells (first ≡ second) (IsSealedApart first second) losses.old.items losses.new.items) }
{
    if first == second {
        return Ok(());
    }
    losses.push(Lost::Sealing)?;
    Ok(())
}

fn push_methods(
    alloc: Global,
    old: &World,
    new: &World,
    before: &[Method],
    after: &[Method],
    losses: &mut Vec<Lost>,
) -> Result<(), NoMemory>
    ensures { OnOk result (Tells (KeepsMethods old.now new.now before.now after.now) (IsOfMethods old.now new.now before.now after.now) losses.old.items losses.new.items) }
{
    let first = has_sealing(old, before);
    let second = has_sealing(new, after);
    push_sealing(first, second, losses)?;
    push_all_gone(alloc, old, before, after, losses)?;
    push_open(alloc, first, second, before, after, losses)?;
    Ok(())
}

/// Adds what interfaces of the module lose.
pub(crate) fn push_interfaces<'a>(
    alloc: Global,
    error: &'a Defined,
    old: &'a World,
    new: &'a World,
    pair: &'a TypePair,
    losses: &mut Vec<Lost>,
) -> Result<(), NoMemory>
    requires { error.now ≡ error_type }
    ensures { OnOk result (Tells (KeepsInterface old.now new.now pair.now) (IsInterfaceLoss old.now new.now pair.now) losses.old.items losses.new.items) }
{
    if !are_of_module(old, new, pair) {
        return Ok(());
    }
    let first = under(error, old, &pair.old);
    let second = under(error, new, &pair.new);
    if !are_interfaces(first, second) {
        return Ok(());
    }
    let before = methods_of(first);
    let after = methods_of(second);
    push_methods(alloc, old, new, before, after, losses)?;
    Ok(())
}
