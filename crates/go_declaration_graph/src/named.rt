//! The numbers of the declarations that references name, and of the methods of a defined type.
ghost use Rattle.std.specs.Prelude.{◌≡◌, ◌++◌, map, IfOk, OnOk};
ghost use Rattle.go_base.specs.Gathered.{gather};
ghost use Rattle.go_declarations.specs.Forms.{form_of};
ghost use Rattle.go_declaration_graph.specs.inner.NamedNumbers.{counted, named, names_field, number_of, own_methods};

use crate::field_keys::{FieldKey, is_among};
use crate::numbers::push;
use go_base::list::List;
use go_base::memory::NoMemory;
use go_declarations::form::Form;
use go_declared::methods::{DeclaredMethods, MethodRow};
use go_declared::names::DeclaredNames;
use go_references::references::Reference;
use std::collections::BTreeSet;

fn push_named(
    row: &mut List<u32>,
    names: &DeclaredNames,
    reference: &Reference<'_>,
) -> Result<(), NoMemory>
    ensures { OnOk result (row.new ≡ row.old ++ named names.now reference.now) }
{
    match names.get(&reference.name.text) {
        None => Ok(()),
        Some(place) => push(row, place.number),
    }
}

/// Adds the declarations of the names.
pub(crate) fn push_all_named(
    row: &mut List<u32>,
    names: &DeclaredNames,
    references: &[Reference<'_>],
) -> Result<(), NoMemory>
    ensures { OnOk result (row.new ≡ row.old ++ gather (named names.now) references.now) }
{
    for reference in references {
        push_named(row, names, reference)?;
    }
    Ok(())
}

// Whether a reference is the key of a field.
fn names_field(keys: &BTreeSet<FieldKey>, reference: &Reference<'_>) -> Result<bool, NoMemory>
    ensures { IfOk result (λ b. b ≡ names_field keys.now.keys reference.now) }
{
    if !reference.is_key {
        return Ok(false);
    }
    is_among(reference.name, keys)
}

fn push_counted(
    row: &mut List<u32>,
    names: &DeclaredNames,
    keys: &BTreeSet<FieldKey>,
    reference: &Reference<'_>,
) -> Result<(), NoMemory>
    ensures { OnOk result (row.new ≡ row.old ++ counted names.now keys.now.keys reference.now) }
{
    if names_field(keys, reference)? {
        return Ok(());
    }
    push_named(row, names, reference)
}

/// Adds the declarations of the names that aren't those of fields.
pub(crate) fn push_all_counted(
    row: &mut List<u32>,
    names: &DeclaredNames,
    keys: &BTreeSet<FieldKey>,
    references: &[Reference<'_>],
) -> Result<(), NoMemory>
    ensures { OnOk result (row.new ≡ row.old ++ gather (counted names.now keys.now.keys) references.now) }
{
    for reference in references {
        push_counted(row, names, keys, reference)?;
    }
    Ok(())
}

fn push_rows(row: &mut List<u32>, methods: &[MethodRow]) -> Result<(), NoMemory>
    ensures { OnOk result (row.new ≡ row.old ++ map number_of methods.now) }
{
    for method in methods {
        push(row, method.number)?;
    }
    Ok(())
}

/// Adds the methods of the defined type that is declared.
pub(crate) fn push_own_methods(
    row: &mut List<u32>,
    methods: &DeclaredMethods,
    form: Form<'_>,
) -> Result<(), NoMemory>
    ensures { OnOk result (row.new ≡ row.old ++ own_methods methods.now (form_of form.entry)) }
{
    match form {
        Form::Definition(spec) => push_rows(row, methods.of_type(&spec.name.text)),
        _ => Ok(()),
    }
}
