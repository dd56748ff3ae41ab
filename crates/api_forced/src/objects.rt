//! The pairs of types that exported objects give.
ghost use Rattle.std.specs.Prelude.{◌≡◌, ◌++◌, ◌∷◌, [], Some, IfOk, OnOk, map};
ghost use Rattle.go_base.specs.Growing.{Grows};
ghost use Rattle.go_base.specs.Lists.{Ascending, Has};
ghost use Rattle.go_model.specs.worlds.Worlds.{object_name};
ghost use Rattle.api_correspond.specs.Outermost.{pair};
ghost use Rattle.go_type_images.specs.Parts.{function_type};
ghost use Rattle.api_correspond.specs.Publics.{qualified};
ghost use Rattle.api_correspond.specs.OwnedPairs.{types_of_entities, pair_of, FromObject};
ghost use Rattle.api_forced.specs.inner.Objects.{IsOfObject, IsOfPackage, IsOfPath, types_of_constants, types_of_function};
ghost use Rattle.api_correspond.specs.declared.pair.OwnedPair.{OwnedPair};

use api_correspond::pair::OwnedPair;
use api_correspond::publics::{is_public, qualified};
use go_base::boxed::Box;
use go_base::characters::is_exported;
use go_base::memory::NoMemory;
use go_base::text::Text;
use go_model::types::package::{ConstTerm, Entity, Object, Package};
use go_model::types::term::{Signature, Term};
use go_model::types::world::World;
use go_type_images::pair::TypePair;
use std::alloc::Global;

fn function_type(alloc: Global, signature: &Signature) -> Result<Term, NoMemory>
    ensures { IfOk result (λ t. t ≡ function_type signature.now) }
{
    Ok(Term::Func(signature.copy(alloc)?))
}

fn boxed(alloc: Global, old: Term, new: Term) -> Result<Option<Box<TypePair>>, NoMemory>
    ensures { IfOk result (λ found. found ≡ Some (pair old new)) }
{
    let pair = Box::new(alloc, TypePair { old, new })?;
    Ok(Some(pair))
}

fn copied(alloc: Global, before: &Term, after: &Term) -> Result<Option<Box<TypePair>>, NoMemory>
    ensures { IfOk result (λ found. found ≡ Some (pair before.now after.now)) }
{
    let old = before.copy(alloc)?;
    let new = after.copy(alloc)?;
    boxed(alloc, old, new)
}

fn constant_types(
    alloc: Global,
    before: &ConstTerm,
    after: &ConstTerm,
) -> Result<Option<Box<TypePair>>, NoMemory>
    ensures { IfOk result (λ found. found ≡ types_of_constants before.now after.now) }
{
    match before {
        ConstTerm::OfTerm(s) => match after {
            ConstTerm::OfTerm(t) => copied(alloc, s, t),
            ConstTerm::OfKind(_) => Ok(None),
        },
        ConstTerm::OfKind(_) => Ok(None),
    }
}

// The types of a function and of what it became.
fn function_types(
    alloc: Global,
    before: &Signature,
    after: &Entity,
) -> Result<Option<Box<TypePair>>, NoMemory>
    ensures { IfOk result (λ found. found ≡ types_of_function before.now after.now) }
{
    match after {
        Entity::Function(signature) => {
            let old = function_type(alloc, before)?;
            let new = function_type(alloc, signature)?;
            boxed(alloc, old, new)
        }
        Entity::Var(term) => {
            let old = function_type(alloc, before)?;
            let new = term.copy(alloc)?;
            boxed(alloc, old, new)
        }
        _ => Ok(None),
    }
}

// The types of two objects that correspond, where there are any.
fn types_of(
    alloc: Global,
    before: &Entity,
    after: &Entity,
) -> Result<Option<Box<TypePair>>, NoMemory>
    ensures { IfOk result (λ found. found ≡ types_of_entities before.now after.now) }
{
    match before {
        Entity::Const(first, _) => match after {
            Entity::Const(second, _) => constant_types(alloc, first, second),
            _ => Ok(None),
        },
        Entity::Var(s) => match after {
            Entity::Var(t) => copied(alloc, s, t),
            _ => Ok(None),
        },
        Entity::Function(signature) => function_types(alloc, signature, after),
        Entity::TypeOf(s) => match after {
            Entity::TypeOf(t) => copied(alloc, s, t),
            _ => Ok(None),
        },
    }
}

// Adds a pair with the name of an object.
fn push_named(
    alloc: Global,
    path: &Text,
    before: &Object,
    types: TypePair,
    all: &mut Vec<OwnedPair>,
) -> Result<(), NoMemory>
    ensures { OnOk result (all.new.items ≡ all.old.items ++ record { owner = qualified path.now before.now.name; old = types.old; new = types.new } ∷ []) }
{
    let owner = qualified(alloc, path, &before.name)?;
    let (old, new) = types.into_parts();
    all.push(OwnedPair { owner, old, new })?;
    Ok(())
}

// Adds what an object and the new one of its name give.
fn push_object(
    alloc: Global,
    path: &Text,
    before: &Object,
    after: &Package,
    all: &mut Vec<OwnedPair>,
) -> Result<(), NoMemory>
    requires { Ascending (map object_name after.now.objects) }
    ensures { OnOk result (Grows (IsOfObject path.now after.now before.now) all.old.items all.new.items) }
{
    if !is_exported(before.name.bytes()) {
        return Ok(());
    }
    match after.object(before.name.bytes()) {
        None => Ok(()),
        Some(object) => {
            let types = types_of(alloc, &before.entity, &object.entity)?;
            match types {
                None => Ok(()),
                Some(types) => {
                    push_named(alloc, path, before, types.into_value(), all)?;
                    Ok(())
                }
            }
        }
    }
}

// Adds what the objects of a package give.
fn push_package(
    alloc: Global,
    path: &Text,
    before: &Package,
    after: &Package,
    all: &mut Vec<OwnedPair>,
) -> Result<(), NoMemory>
    requires { Ascending (map object_name after.now.objects) }
    ensures { OnOk result (Grows (IsOfPackage path.now after.now before.now.objects) all.old.items all.new.items) }
{
    let objects = before.objects.items();
    for object in objects {
        push_object(alloc, path, object, after, all)?;
    }
    Ok(())
}

// Adds what the package of a path gives, where the path is public in both worlds.
fn push_path(
    alloc: Global,
    old: &World,
    new: &World,
    path: &Text,
    all: &mut Vec<OwnedPair>,
) -> Result<(), NoMemory>
    ensures { OnOk result (Grows (IsOfPath old.now new.now path.now) all.old.items all.new.items) }
{
    if !is_public(new, path.bytes()) {
        return Ok(());
    }
    match old.package(path.bytes()) {
        None => Ok(()),
        Some(before) => match new.package(path.bytes()) {
            None => Ok(()),
            Some(after) => {
                push_package(alloc, path, before, after, all)?;
                Ok(())
            }
        },
    }
}

/// The pairs of types that the exported objects of public packages and the new ones of their names give, each
/// with the object's name.
pub(crate) fn object_pairs(
    alloc: Global,
    old: &World,
    new: &World,
) -> Result<Vec<OwnedPair>, NoMemory>
    ensures sound { IfOk result (λ all. (r : OwnedPair) → Has all.items r → FromObject old.now new.now r.owner (pair_of r)) }
    ensures complete { IfOk result (λ all. (r : OwnedPair) → FromObject old.now new.now r.owner (pair_of r) → Has all.items r) }
{
    let _packages = old.packages();
    let mut all = Vec::new(alloc);
    let paths = old.public();
    for path in paths {
        push_path(alloc, old, new, path, &mut all)?;
    }
    Ok(all)
}
