//! The lines of an interface type that a package defines.
ghost use Rattle.std.specs.Prelude.{◌≡◌, ◌++◌, true, false, codes, map, Decides, IfOk, OnOk};
ghost use Rattle.go_base.specs.Growing.{Grows};
ghost use Rattle.go_base.specs.Lists.{Each};
ghost use Rattle.go_model.specs.declared.types.term.Term.{Term-F};
ghost use Rattle.go_model.specs.declared.types.term.Method.{out-Method};
ghost use Rattle.api_features.specs.Features.{IsTypeRest};
ghost use Rattle.api_features.specs.TypeTexts.{commas, name_of_method, signature_text};
ghost use Rattle.api_features.specs.inner.FeatureLines.{IsEndRest, IsLineIn, IsLineOfSome, IsExportedMethod, IsInterfaceMethodRest};

use crate::exported::is_exported;
use crate::subject::{Subject, add, begun};
use crate::types::{push_names, push_signature};
use api_lines::lines::Lines;
use go_base::memory::NoMemory;
use go_model::types::term::Method;
use std::alloc::Global;

fn exported_rest(alloc: Global, of: &Subject<'_>, method: &Method) -> Result<Vec<u8>, NoMemory>
    ensures { IfOk result (λ rest. rest.items ≡ codes "type " ++ of.now.name.now ++ codes " interface, " ++ (out-Method method.now).sel.name ++ signature_text of.now.world.now.packages of.now.path.now (out-Method method.now).signature) }
{
    let mut rest = begun(alloc, b"type ", of.name, b" interface, ")?;
    rest.extend_from_slice(method.sel.name.bytes())?;
    push_signature(&mut rest, &method.signature, of.world, of.path)?;
    Ok(rest)
}

fn add_exported(
    alloc: Global,
    lines: &mut Lines,
    of: &Subject<'_>,
    method: &Method,
) -> Result<(), NoMemory>
    ensures { OnOk result (Grows (IsLineIn (IsInterfaceMethodRest of.now.world.now.packages of.now.path.now of.now.name.now method.now) of.now.path.now) lines.old lines.new) }
{
    if !is_exported(&method.sel) {
        return Ok(());
    }
    let rest = exported_rest(alloc, of, method)?;
    add(alloc, lines, of, rest)?;
    Ok(())
}

fn add_all_exported(
    alloc: Global,
    lines: &mut Lines,
    of: &Subject<'_>,
    methods: &[Method],
) -> Result<(), NoMemory>
    ensures { OnOk result (Grows (IsLineOfSome (IsInterfaceMethodRest of.now.world.now.packages of.now.path.now of.now.name.now) methods.now of.now.path.now) lines.old lines.new) }
{
    for method in methods {
        add_exported(alloc, lines, of, method)?;
    }
    Ok(())
}

fn are_exported(methods: &[Method]) -> bool
    ensures { Decides result (Each IsExportedMethod methods.now) }
{
    for method in methods {
        if !is_exported(&method.sel) {
            return false;
        }
    }
    true
}

fn names_rest(alloc: Global, of: &Subject<'_>, methods: &[Method]) -> Result<Vec<u8>, NoMemory>
    ensures { IfOk result (λ rest. rest.items ≡ codes "type " ++ of.now.name.now ++ codes " interface { " ++ commas (map name_of_method methods.now) ++ codes " }") }
{
    let mut rest = begun(alloc, b"type ", of.name, b" interface { ")?;
    push_names(&mut rest, methods)?;
    rest.extend_from_slice(b" }")?;
    Ok(rest)
}

// What the methods of an interface give together.
fn end_rest(alloc: Global, of: &Subject<'_>, methods: &[Method]) -> Result<Vec<u8>, NoMemory>
    ensures { IfOk result (λ rest. IsEndRest of.now.world.now.packages of.now.path.now of.now.name.now methods.now rest.items) }
{
    if methods.is_empty() {
        let rest = begun(alloc, b"type ", of.name, b" interface {}")?;
        return Ok(rest);
    }
    if are_exported(methods) {
        let rest = names_rest(alloc, of, methods)?;
        return Ok(rest);
    }
    let rest = begun(alloc, b"type ", of.name, b" interface, unexported methods")?;
    Ok(rest)
}

/// Adds the lines of a type with an interface underneath.
pub(crate) fn add_interface(
    alloc: Global,
    lines: &mut Lines,
    of: &Subject<'_>,
    methods: &[Method],
) -> Result<(), NoMemory>
    ensures { OnOk result (Grows (IsLineIn (IsTypeRest of.now.world.now.packages of.now.path.now of.now.name.now (Term-F.Interface methods.now)) of.now.path.now) lines.old lines.new) }
{
    add_all_exported(alloc, lines, of, methods)?;
    let rest = end_rest(alloc, of, methods)?;
    add(alloc, lines, of, rest)?;
    Ok(())
}
