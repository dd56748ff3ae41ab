//! Fills tables of methods from declarations.
ghost use Rattle.std.specs.Prelude.{◌≡◌, ℕ, List as Items, OnOk};
ghost use Rattle.go_declarations.specs.Forms.{form_of};
ghost use Rattle.go_declarations.specs.Listings.{declarations_of};
ghost use Rattle.go_declarations.specs.go_typings.Receivers.{base, is_pointer_form, receiver_form};
ghost use Rattle.go_declared.specs.AliasEnds.{AreEnds};
ghost use Rattle.go_declared.specs.NameTables.{AreDeclared};
ghost use Rattle.go_declared.specs.declared.methods.MethodRow as row;
ghost use Rattle.go_declared.specs.inner.AddingMethods.{with_based, with_form, with_forms};
ghost use Rattle.go_declared.specs.inner.LastBases.{IsLast};

use crate::aliases::alias_ends;
use crate::last_base::{LastBase, base_in_turn, no_base};
use crate::methods::MethodRow;
use crate::names::DeclaredNames;
use crate::receivers::is_pointer;
use go_base::memory::NoMemory;
use go_base::text::Text;
use go_declarations::form::Form;
use go_declarations::listing::Declaration;
use go_syntax::name::QualifiedName;
use go_syntax::types::ParameterDecl;
use std::alloc::Global;

/// A table of the methods that are declared for defined types.
pub(crate) trait MethodTable {
    /// The table with one more method, by its type and its name.
    ghost with_method: { Self → Items ℕ → Items ℕ → row.MethodRow → Self };

    /// Adds a method.
    fn push(
        &mut self,
        alloc: Global,
        type_name: &Text,
        name: &Text,
        row: MethodRow,
    ) -> Result<(), NoMemory>
        ensures { OnOk result (self.new ≡ with_method self.old type_name.now name.now row) };
}

// Adds a method, where its receiver has a base type.
fn add_method<'a, T: MethodTable>(
    table: &mut T,
    alloc: Global,
    declarations: &[Declaration<'a>],
    names: &DeclaredNames,
    ends: &[Option<&'a QualifiedName>],
    last: &mut LastBase<'a>,
    number: usize,
    receiver: &'a ParameterDecl,
    name: &Text,
) -> Result<(), NoMemory>
    requires names { AreDeclared (declarations_of declarations.now) names.now }
    requires ends { AreEnds (declarations_of declarations.now) ends.now }
    requires last { IsLast (declarations_of declarations.now) last.old }
    ensures last { IsLast (declarations_of declarations.now) last.new }
    ensures table { OnOk result (table.new ≡ with_based T.with_method (base (declarations_of declarations.now) receiver.now) table.old name.now (record { number = number; pointer = is_pointer_form (receiver_form receiver.now) })) }
{
    match base_in_turn(declarations, names, ends, last, receiver) {
        None => Ok(()),
        Some(type_name) => {
            let row = MethodRow {
                number,
                pointer: is_pointer(receiver),
            };
            table.push(alloc, type_name, name, row)
        }
    }
}

fn add<'a, T: MethodTable>(
    table: &mut T,
    alloc: Global,
    declarations: &[Declaration<'a>],
    names: &DeclaredNames,
    ends: &[Option<&'a QualifiedName>],
    last: &mut LastBase<'a>,
    number: usize,
    form: Form<'a>,
) -> Result<(), NoMemory>
    requires names { AreDeclared (declarations_of declarations.now) names.now }
    requires ends { AreEnds (declarations_of declarations.now) ends.now }
    requires last { IsLast (declarations_of declarations.now) last.old }
    ensures last { IsLast (declarations_of declarations.now) last.new }
    ensures table { OnOk result (table.new ≡ with_form T.with_method (declarations_of declarations.now) table.old number (form_of form.entry)) }
{
    match form {
        Form::Method(receiver, func) => add_method(
            table,
            alloc,
            declarations,
            names,
            ends,
            last,
            number,
            receiver,
            &func.name.text,
        ),
        _ => Ok(()),
    }
}

/// Adds the methods that these declarations declare, where `names` tells where they declare names.
pub(crate) fn fill<T: MethodTable>(
    table: &mut T,
    alloc: Global,
    declarations: &[Declaration<'_>],
    names: &DeclaredNames,
) -> Result<(), NoMemory>
    requires { AreDeclared (declarations_of declarations.now) names.now }
    ensures { OnOk result (table.new ≡ with_forms T.with_method (declarations_of declarations.now) table.old 0 (declarations_of declarations.now)) }
{
    let ends = alias_ends(alloc, declarations, names)?;
    let mut last = no_base();
    for number in 0..declarations.len() {
        add(
            table,
            alloc,
            declarations,
            names,
            &ends,
            &mut last,
            number,
            declarations[number].form,
        )?;
    }
    Ok(())
}
