//! What packages and their objects lose.
ghost use Rattle.std.specs.Prelude.{◌≡◌, ◌++◌, ◌∷◌, [], ℕ, List as Sequence, IfOk, OnOk, map, ◌↔◌};
ghost use Rattle.go_base.specs.Growing.{Grows};
ghost use Rattle.go_base.specs.Lists.{Ascending, Has};
ghost use Rattle.go_model.specs.worlds.Worlds.{object_name};
ghost use Rattle.api_correspond.specs.Publics.{qualified};
ghost use Rattle.api_correspond.specs.Rules.{KeepsPath};
ghost use Rattle.api_breaks.specs.declared.broken.Break.{Break};
ghost use Rattle.api_breaks.specs.Breaks.{IsPackageBreak, broken};
ghost use Rattle.api_breaks.specs.inner.Objects.{IsOtherKind, IsOtherConstant, IsOfObject, IsOfObjects, IsRenamed, IsOfBoth, IsOfPath};

use crate::broken::{Break, Lost, push};
use crate::kinds::{is_same, keeps_constant, keeps_kind, sort_of};
use api_correspond::publics::{is_public, qualified};
use go_base::characters::is_exported;
use go_base::memory::NoMemory;
use go_base::text::Text;
use go_model::types::package::{Object, Package};
use go_model::types::world::World;
use std::alloc::Global;

fn push_of(
    alloc: Global,
    path: &Text,
    object: &Object,
    lost: Lost,
    breaks: &mut Vec<Break>,
) -> Result<(), NoMemory>
    ensures { OnOk result (breaks.new.items ≡ breaks.old.items ++ broken (qualified path.now object.now.name) lost ∷ []) }
{
    let owner = qualified(alloc, path, &object.name)?;
    breaks.push(Break { owner, lost })?;
    Ok(())
}

// Adds that an object is of another sort.
fn push_kind(
    alloc: Global,
    path: &Text,
    before: &Object,
    after: &Object,
    breaks: &mut Vec<Break>,
) -> Result<(), NoMemory>
    ensures { OnOk result (Grows (IsOtherKind path.now before.now after.now) breaks.old.items breaks.new.items) }
{
    if keeps_kind(&before.entity, &after.entity) {
        return Ok(());
    }
    let lost = Lost::Kind(sort_of(&before.entity), sort_of(&after.entity));
    push_of(alloc, path, before, lost, breaks)?;
    Ok(())
}

// Adds that a constant is of another type or has another value.
fn push_constant(
    alloc: Global,
    path: &Text,
    before: &Object,
    after: &Object,
    breaks: &mut Vec<Break>,
) -> Result<(), NoMemory>
    ensures { OnOk result (Grows (IsOtherConstant path.now before.now after.now) breaks.old.items breaks.new.items) }
{
    if keeps_constant(&before.entity, &after.entity) {
        return Ok(());
    }
    let of = path.copy()?;
    let old = before.entity.copy(alloc)?;
    let new = after.entity.copy(alloc)?;
    push_of(alloc, path, before, Lost::Constant(of, old, new), breaks)?;
    Ok(())
}

// Adds what an object loses.
fn push_object(
    alloc: Global,
    path: &Text,
    before: &Object,
    after: &Package,
    breaks: &mut Vec<Break>,
) -> Result<(), NoMemory>
    requires { Ascending (map object_name after.now.objects) }
    ensures { OnOk result (Grows (IsOfObject path.now after.now before.now) breaks.old.items breaks.new.items) }
{
    if !is_exported(before.name.bytes()) {
        return Ok(());
    }
    match after.object(before.name.bytes()) {
        None => {
            push_of(alloc, path, before, Lost::Removed, breaks)?;
            Ok(())
        }
        Some(object) => {
            push_kind(alloc, path, before, object, breaks)?;
            push_constant(alloc, path, before, object, breaks)?;
            Ok(())
        }
    }
}

fn push_objects(
    alloc: Global,
    path: &Text,
    before: &Package,
    after: &Package,
    breaks: &mut Vec<Break>,
) -> Result<(), NoMemory>
    requires { Ascending (map object_name after.now.objects) }
    ensures { OnOk result (Grows (IsOfObjects path.now after.now before.now.objects) breaks.old.items breaks.new.items) }
{
    let objects = before.objects.items();
    for object in objects {
        push_object(alloc, path, object, after, breaks)?;
    }
    Ok(())
}

// Adds that a package has another name.
fn push_renamed(
    alloc: Global,
    path: &Text,
    before: &Package,
    after: &Package,
    breaks: &mut Vec<Break>,
) -> Result<(), NoMemory>
    ensures { OnOk result (Grows (IsRenamed path.now before.now after.now) breaks.old.items breaks.new.items) }
{
    if is_same(&after.name, &before.name) {
        return Ok(());
    }
    let name = after.name.copy()?;
    push(alloc, path, Lost::Name(name), breaks)?;
    Ok(())
}

fn push_both(
    alloc: Global,
    path: &Text,
    before: &Package,
    after: &Package,
    breaks: &mut Vec<Break>,
) -> Result<(), NoMemory>
    requires { Ascending (map object_name after.now.objects) }
    ensures { OnOk result (Grows (IsOfBoth path.now before.now after.now) breaks.old.items breaks.new.items) }
{
    push_renamed(alloc, path, before, after, breaks)?;
    push_objects(alloc, path, before, after, breaks)?;
    Ok(())
}

// Adds what the public package of a path loses.
fn push_path(
    alloc: Global,
    old: &World,
    new: &World,
    path: &Text,
    breaks: &mut Vec<Break>,
) -> Result<(), NoMemory>
    ensures { OnOk result (Grows (IsOfPath old.now new.now path.now) breaks.old.items breaks.new.items) }
{
    if !is_public(new, path.bytes()) {
        push(alloc, path, Lost::Package, breaks)?;
        return Ok(());
    }
    match old.package(path.bytes()) {
        None => Ok(()),
        Some(before) => match new.package(path.bytes()) {
            None => Ok(()),
            Some(after) => {
                push_both(alloc, path, before, after, breaks)?;
                Ok(())
            }
        },
    }
}

/// What the public packages of the old world and their exported objects lose.
pub fn package_breaks(alloc: Global, old: &World, new: &World) -> Result<Vec<Break>, NoMemory>
    ensures exact { IfOk result (λ breaks. (b : Break) → Has breaks.items b ↔ IsPackageBreak old.now new.now b) }
    ensures kept { IfOk result (λ breaks. breaks.items ≡ [] → (path : Sequence ℕ) → KeepsPath old.now new.now path) }
{
    let _packages = old.packages();
    let _later = new.packages();
    let mut breaks = Vec::new(alloc);
    let paths = old.public();
    for path in paths {
        push_path(alloc, old, new, path, &mut breaks)?;
    }
    Ok(breaks)
}
