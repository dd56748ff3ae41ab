//! The lines of a struct type that a package defines.
ghost use Rattle.std.specs.Prelude.{◌≡◌, ◌++◌, true, false, codes, IfOk, OnOk};
ghost use Rattle.go_base.specs.Growing.{Grows};
ghost use Rattle.go_model.specs.declared.types.term.Term.{Term-F};
ghost use Rattle.go_model.specs.declared.types.term.Field.{out-Field};
ghost use Rattle.api_features.specs.Features.{IsExported, IsTypeRest};
ghost use Rattle.api_features.specs.TypeTexts.{type_text};
ghost use Rattle.api_features.specs.inner.FeatureLines.{IsFieldRest, IsLineIn, IsLineOfSome};

use crate::exported::is_exported;
use crate::subject::{Subject, add, begun};
use crate::types::push_type;
use api_lines::lines::Lines;
use go_base::memory::NoMemory;
use go_model::types::term::Field;
use std::alloc::Global;

fn named_rest(alloc: Global, of: &Subject<'_>, field: &Field) -> Result<Vec<u8>, NoMemory>
    ensures { IfOk result (λ rest. rest.items ≡ codes "type " ++ of.now.name.now ++ codes " struct, " ++ (out-Field field.now).sel.name ++ codes " " ++ type_text of.now.world.now.packages of.now.path.now (out-Field field.now).term) }
{
    let mut rest = begun(alloc, b"type ", of.name, b" struct, ")?;
    rest.extend_from_slice(field.sel.name.bytes())?;
    rest.push(b' ')?;
    push_type(&mut rest, &field.term, of.world, of.path)?;
    Ok(rest)
}

fn embedded_rest(alloc: Global, of: &Subject<'_>, field: &Field) -> Result<Vec<u8>, NoMemory>
    ensures { IfOk result (λ rest. rest.items ≡ codes "type " ++ of.now.name.now ++ codes " struct, embedded " ++ type_text of.now.world.now.packages of.now.path.now (out-Field field.now).term) }
{
    let mut rest = begun(alloc, b"type ", of.name, b" struct, embedded ")?;
    push_type(&mut rest, &field.term, of.world, of.path)?;
    Ok(rest)
}

fn add_embedded(
    alloc: Global,
    lines: &mut Lines,
    of: &Subject<'_>,
    field: &Field,
) -> Result<(), NoMemory>
    requires exported { IsExported (out-Field field.now).sel }
    requires embedded { (out-Field field.now).embedded ≡ true }
    ensures { OnOk result (Grows (IsLineIn (IsFieldRest of.now.world.now.packages of.now.path.now of.now.name.now field.now) of.now.path.now) lines.old lines.new) }
{
    let rest = embedded_rest(alloc, of, field)?;
    add(alloc, lines, of, rest)?;
    Ok(())
}

fn add_named(
    alloc: Global,
    lines: &mut Lines,
    of: &Subject<'_>,
    field: &Field,
) -> Result<(), NoMemory>
    requires exported { IsExported (out-Field field.now).sel }
    requires named { (out-Field field.now).embedded ≡ false }
    ensures { OnOk result (Grows (IsLineIn (IsFieldRest of.now.world.now.packages of.now.path.now of.now.name.now field.now) of.now.path.now) lines.old lines.new) }
{
    let rest = named_rest(alloc, of, field)?;
    add(alloc, lines, of, rest)?;
    Ok(())
}

fn add_field(
    alloc: Global,
    lines: &mut Lines,
    of: &Subject<'_>,
    field: &Field,
) -> Result<(), NoMemory>
    ensures { OnOk result (Grows (IsLineIn (IsFieldRest of.now.world.now.packages of.now.path.now of.now.name.now field.now) of.now.path.now) lines.old lines.new) }
{
    if !is_exported(&field.sel) {
        return Ok(());
    }
    if field.embedded {
        return add_embedded(alloc, lines, of, field);
    }
    add_named(alloc, lines, of, field)
}

fn add_fields(
    alloc: Global,
    lines: &mut Lines,
    of: &Subject<'_>,
    fields: &[Field],
) -> Result<(), NoMemory>
    ensures { OnOk result (Grows (IsLineOfSome (IsFieldRest of.now.world.now.packages of.now.path.now of.now.name.now) fields.now of.now.path.now) lines.old lines.new) }
{
    for field in fields {
        add_field(alloc, lines, of, field)?;
    }
    Ok(())
}

/// Adds the lines of a type with a struct underneath.
pub(crate) fn add_struct(
    alloc: Global,
    lines: &mut Lines,
    of: &Subject<'_>,
    fields: &[Field],
) -> Result<(), NoMemory>
    ensures { OnOk result (Grows (IsLineIn (IsTypeRest of.now.world.now.packages of.now.path.now of.now.name.now (Term-F.Struct fields.now)) of.now.path.now) lines.old lines.new) }
{
    let rest = begun(alloc, b"type ", of.name, b" struct")?;
    add(alloc, lines, of, rest)?;
    add_fields(alloc, lines, of, fields)?;
    Ok(())
}
