//! The features of the public packages of a world.
ghost use Rattle.std.specs.Prelude.{◌≡◌, ◌++◌, Decides, IfOk, OnOk, codes};
ghost use Rattle.go_base.specs.Growing.{Grows};
ghost use Rattle.go_model.specs.declared.types.package.Entity.TheVariants as entity;
ghost use Rattle.api_features.specs.Features.{defined_term, IsFeature, IsFeatureExcept, IsRest};
ghost use Rattle.api_lines.specs.Lines.{IsListing};
ghost use Rattle.api_features.specs.TypeTexts.{constant_type, signature_text, type_text};
ghost use Rattle.api_features.specs.inner.FeatureLines.{IsLineIn, IsObjectLine, IsPackageLine, IsSomeObjectLine, IsValueRest};

use crate::constants::push_value;
use crate::subject::{Subject, add, begun};
use crate::type_lines::add_defined;
use crate::types::{push_constant_type, push_signature, push_type};
use api_lines::line::Line;
use api_lines::lines::Lines;
use api_lines::texts::Texts;
use go_base::characters::is_exported;
use go_base::list::List;
use go_base::memory::NoMemory;
use go_model::constants::value::Value;
use go_model::types::names::TypeName;
use go_model::types::package::{ConstTerm, Entity, Object, Package};
use go_model::types::term::{Signature, Term};
use go_model::types::world::World;
use std::alloc::Global;

fn value_rest(alloc: Global, of: &Subject<'_>, value: &Value) -> Result<Vec<u8>, NoMemory>
    ensures { IfOk result (λ rest. IsValueRest of.now.name.now value.now rest.items) }
{
    let mut rest = begun(alloc, b"const ", of.name, b" = ")?;
    push_value(&mut rest, value)?;
    Ok(rest)
}

fn kind_rest(alloc: Global, of: &Subject<'_>, term: &ConstTerm) -> Result<Vec<u8>, NoMemory>
    ensures { IfOk result (λ rest. rest.items ≡ codes "const " ++ of.now.name.now ++ codes " " ++ constant_type of.now.world.now.packages of.now.path.now term.now) }
{
    let mut rest = begun(alloc, b"const ", of.name, b" ")?;
    push_constant_type(&mut rest, term, of.world, of.path)?;
    Ok(rest)
}

fn add_constant(
    alloc: Global,
    lines: &mut Lines,
    of: &Subject<'_>,
    term: &ConstTerm,
    value: &Value,
) -> Result<(), NoMemory>
    ensures { OnOk result (Grows (IsLineIn (IsRest of.now.world.now.packages of.now.path.now of.now.name.now (entity.Const term.now value.now)) of.now.path.now) lines.old lines.new) }
{
    let first = value_rest(alloc, of, value)?;
    add(alloc, lines, of, first)?;
    let second = kind_rest(alloc, of, term)?;
    add(alloc, lines, of, second)?;
    Ok(())
}

fn variable_rest(alloc: Global, of: &Subject<'_>, term: &Term) -> Result<Vec<u8>, NoMemory>
    ensures { IfOk result (λ rest. rest.items ≡ codes "var " ++ of.now.name.now ++ codes " " ++ type_text of.now.world.now.packages of.now.path.now term.now) }
{
    let mut rest = begun(alloc, b"var ", of.name, b" ")?;
    push_type(&mut rest, term, of.world, of.path)?;
    Ok(rest)
}

fn add_variable(
    alloc: Global,
    lines: &mut Lines,
    of: &Subject<'_>,
    term: &Term,
) -> Result<(), NoMemory>
    ensures { OnOk result (Grows (IsLineIn (IsRest of.now.world.now.packages of.now.path.now of.now.name.now (entity.Var term.now)) of.now.path.now) lines.old lines.new) }
{
    let rest = variable_rest(alloc, of, term)?;
    add(alloc, lines, of, rest)?;
    Ok(())
}

fn function_rest(
    alloc: Global,
    of: &Subject<'_>,
    signature: &Signature,
) -> Result<Vec<u8>, NoMemory>
    ensures { IfOk result (λ rest. rest.items ≡ codes "func " ++ of.now.name.now ++ signature_text of.now.world.now.packages of.now.path.now signature.now) }
{
    let mut rest = begun(alloc, b"func ", of.name, b"")?;
    push_signature(&mut rest, signature, of.world, of.path)?;
    Ok(rest)
}

fn add_function(
    alloc: Global,
    lines: &mut Lines,
    of: &Subject<'_>,
    signature: &Signature,
) -> Result<(), NoMemory>
    ensures { OnOk result (Grows (IsLineIn (IsRest of.now.world.now.packages of.now.path.now of.now.name.now (entity.Function signature.now)) of.now.path.now) lines.old lines.new) }
{
    let rest = function_rest(alloc, of, signature)?;
    add(alloc, lines, of, rest)?;
    Ok(())
}

fn alias_rest(alloc: Global, of: &Subject<'_>, term: &Term) -> Result<Vec<u8>, NoMemory>
    ensures { IfOk result (λ rest. rest.items ≡ codes "type " ++ of.now.name.now ++ codes " = " ++ type_text of.now.world.now.packages of.now.path.now term.now) }
{
    let mut rest = begun(alloc, b"type ", of.name, b" = ")?;
    push_type(&mut rest, term, of.world, of.path)?;
    Ok(rest)
}

// Whether a name stands for the type of this name that the package defines.
fn is_name(of: &Subject<'_>, name: &TypeName) -> bool
    ensures { Decides result (record { path = of.now.path.now; name = of.now.name.now } ≡ name.now) }
{
    name.path.bytes() == of.path && name.name.bytes() == of.name
}

fn is_defined(of: &Subject<'_>, term: &Term) -> bool
    ensures { Decides result (term.now ≡ defined_term of.now.path.now of.now.name.now) }
{
    match term {
        Term::Named(name) => is_name(of, name),
        _ => false,
    }
}

fn add_type(alloc: Global, lines: &mut Lines, of: &Subject<'_>, term: &Term) -> Result<(), NoMemory>
    ensures { OnOk result (Grows (IsLineIn (IsRest of.now.world.now.packages of.now.path.now of.now.name.now (entity.TypeOf term.now)) of.now.path.now) lines.old lines.new) }
{
    if is_defined(of, term) {
        add_defined(alloc, lines, of, term)?;
        lines.end_type();
        return Ok(());
    }
    let rest = alias_rest(alloc, of, term)?;
    add(alloc, lines, of, rest)?;
    Ok(())
}

fn add_entity(
    alloc: Global,
    lines: &mut Lines,
    of: &Subject<'_>,
    entity: &Entity,
) -> Result<(), NoMemory>
    ensures { OnOk result (Grows (IsLineIn (IsRest of.now.world.now.packages of.now.path.now of.now.name.now entity.now) of.now.path.now) lines.old lines.new) }
{
    match entity {
        Entity::Const(term, value) => add_constant(alloc, lines, of, term, value),
        Entity::Var(term) => add_variable(alloc, lines, of, term),
        Entity::Function(signature) => add_function(alloc, lines, of, signature),
        Entity::TypeOf(term) => add_type(alloc, lines, of, term),
    }
}

fn add_object(
    alloc: Global,
    lines: &mut Lines,
    world: &World,
    package: &Package,
    object: &Object,
) -> Result<(), NoMemory>
    ensures { OnOk result (Grows (IsObjectLine world.now «package».now object.now) lines.old lines.new) }
{
    if !is_exported(object.name.bytes()) {
        return Ok(());
    }
    let of = Subject::new(world, &package.path, object.name.bytes());
    add_entity(alloc, lines, &of, &object.entity)?;
    Ok(())
}

fn add_objects(
    alloc: Global,
    lines: &mut Lines,
    world: &World,
    package: &Package,
) -> Result<(), NoMemory>
    ensures { OnOk result (Grows (IsSomeObjectLine world.now «package».now) lines.old lines.new) }
{
    let objects = package.objects.items();
    for object in objects {
        add_object(alloc, lines, world, package, object)?;
    }
    Ok(())
}

fn add_package(
    alloc: Global,
    lines: &mut Lines,
    world: &World,
    public: &Texts,
    except: &Texts,
    package: &Package,
) -> Result<(), NoMemory>
    ensures { OnOk result (Grows (IsPackageLine public.now except.now world.now «package».now) lines.old lines.new) }
{
    if !public.has(&package.path) {
        return Ok(());
    }
    if except.has(&package.path) {
        return Ok(());
    }
    add_objects(alloc, lines, world, package)?;
    lines.end_package()?;
    Ok(())
}

/// The features of the public packages of a world, without those of packages with these paths, as lines without context, each text once, in the
/// order of bytes.
pub fn features_except(alloc: Global, world: &World, except: &Texts) -> Result<List<Line>, NoMemory>
    ensures { IfOk result (IsListing (IsFeatureExcept except.now world.now)) }
{
    let public = Texts::of(alloc, world.public())?;
    let mut lines = Lines::new(alloc);
    let packages = world.packages();
    for package in packages {
        add_package(alloc, &mut lines, world, &public, except, package)?;
    }
    let listed = lines.into_list(alloc)?;
    Ok(listed)
}

/// The features of the public packages of a world, as lines without context, each text once, in the order of bytes.
pub fn features(alloc: Global, world: &World) -> Result<List<Line>, NoMemory>
    ensures { IfOk result (IsListing (IsFeature world.now)) }
{
    let none = Texts::new(alloc);
    let listed = features_except(alloc, world, &none)?;
    Ok(listed)
}
