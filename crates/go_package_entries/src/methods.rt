//! Methods, taken into the types that they are declared for.
ghost use Rattle.std.specs.Prelude.{◌≡◌, ◌++◌, IfOk, OnOk, Some};
ghost use Rattle.go_base.specs.Gathered.{gather};
ghost use Rattle.go_declarations.specs.Listings.{declarations_of};
ghost use Rattle.go_declared.specs.AliasEnds.{AreEnds};
ghost use Rattle.go_declared.specs.MethodTables.{method_name};
ghost use Rattle.go_declared.specs.NameTables.{AreDeclared};
ghost use Rattle.go_declared.specs.NamesakeTables.{rows_at};
ghost use Rattle.go_rules.specs.Names.{items_at};
ghost use Rattle.go_typings.specs.Receivers.{base, selector};
ghost use Rattle.go_package_entries.specs.Settings.{setting_of};
ghost use Rattle.go_package_entries.specs.inner.ShownMethods.{had_row, shown_of, shown_row, with_each};
ghost use Rattle.go_package_entries.specs.inner.TakenEntries.{entries_of, with_shown};

use crate::grown::{Grown, are_had, signature_at};
use crate::tables::{Tables, method_name};
use go_base::list::List;
use go_base::memory::NoMemory;
use go_base::text::Text;
use go_declared::bases::base;
use go_declared::methods::MethodRow;
use go_model::types::package::MethodOf;
use go_model::types::term::Signature;
use go_rules::blank::is_blank;
use go_rules::env::Env;
use go_syntax::declaration::Func;
use go_syntax::types::ParameterDecl;
use std::alloc::Global;

// The method of a name with a signature.
fn method_of(
    env: &Env<'_>,
    alloc: Global,
    name: &[u8],
    pointer: bool,
    signature: &Signature,
) -> Result<MethodOf, NoMemory>
    ensures { IfOk result (λ m. m ≡ record { sel = selector env.now.path name.now; pointer = pointer; signature = signature.now }) }
{
    Ok(MethodOf {
        sel: env.selector(name)?,
        pointer,
        signature: signature.copy(alloc)?,
    })
}

// Adds a method of a name, where it is had.
fn push_had(
    shown: &mut List<MethodOf>,
    env: &Env<'_>,
    alloc: Global,
    grown: Grown<'_>,
    name: &[u8],
    row: MethodRow,
) -> Result<(), NoMemory>
    ensures { OnOk result (shown.new ≡ shown.old ++ had_row (entries_of grown.entry) env.now.path name.now row) }
{
    match signature_at(grown, row.number) {
        None => Ok(()),
        Some(signature) => shown.push(method_of(env, alloc, name, row.pointer, signature)?),
    }
}

// Adds a method of a type, where it isn't blank and each method of its name is had.
fn push_shown(
    shown: &mut List<MethodOf>,
    env: &Env<'_>,
    alloc: Global,
    grown: Grown<'_>,
    name: &[u8],
    all: &[MethodRow],
    row: MethodRow,
) -> Result<(), NoMemory>
    ensures { OnOk result (shown.new ≡ shown.old ++ shown_row (entries_of grown.entry) env.now.path name.now all.now row) }
{
    if is_blank(name) || !are_had(grown, all) {
        return Ok(());
    }
    push_had(shown, env, alloc, grown, name, row)
}

// Adds the method of a row.
fn push_row(
    shown: &mut List<MethodOf>,
    env: &Env<'_>,
    alloc: Global,
    tables: &Tables<'_>,
    grown: Grown<'_>,
    type_name: &Text,
    row: MethodRow,
) -> Result<(), NoMemory>
    ensures { OnOk result (shown.new ≡ shown.old ++ shown_row (entries_of grown.entry) env.now.path (method_name (declarations_of tables.now.declarations.now) row.number) (rows_at tables.now.namesakes type_name.now (method_name (declarations_of tables.now.declarations.now) row.number)) row) }
{
    let name = Text::of(alloc, method_name(tables.declarations, row.number))?;
    let all = tables.namesakes.of_name(type_name, &name);
    push_shown(shown, env, alloc, grown, name.bytes(), all, row)
}

/// The methods of a type that are shown: of each name that isn't blank all, once each of them is had.
pub(crate) fn shown_methods(
    env: &Env<'_>,
    alloc: Global,
    tables: &Tables<'_>,
    grown: Grown<'_>,
    type_name: &Text,
) -> Result<List<MethodOf>, NoMemory>
    ensures { IfOk result (λ ms. ms ≡ shown_of (entries_of grown.entry) (declarations_of tables.now.declarations.now) env.now.path tables.now.namesakes type_name.now (items_at tables.now.methods.now type_name.now)) }
{
    let mut shown = List::new(alloc);
    for row in tables.methods.of_type(type_name) {
        push_row(&mut shown, env, alloc, tables, grown, type_name, *row)?;
    }
    Ok(shown)
}

// Adds the method of a row to a type, where the method is had and the type is.
fn add_row(
    env: &mut Env<'_>,
    alloc: Global,
    grown: Grown<'_>,
    type_name: &Text,
    name: &[u8],
    row: MethodRow,
) -> Result<(), NoMemory>
    ensures ok { OnOk result (env.new ≡ with_each env.old type_name.now (had_row (entries_of grown.entry) env.old.path name.now row)) }
    ensures same { setting_of env.new ≡ setting_of env.old }
{
    match signature_at(grown, row.number) {
        None => Ok(()),
        Some(signature) => {
            let method = method_of(env, alloc, name, row.pointer, signature)?;
            env.add_method(type_name, method)
        }
    }
}

// Adds the methods of these rows to a type.
fn add_rows(
    env: &mut Env<'_>,
    alloc: Global,
    grown: Grown<'_>,
    type_name: &Text,
    name: &[u8],
    rows: &[MethodRow],
) -> Result<(), NoMemory>
    ensures ok { OnOk result (env.new ≡ with_each env.old type_name.now (gather (had_row (entries_of grown.entry) env.old.path name.now) rows.now)) }
    ensures same { setting_of env.new ≡ setting_of env.old }
{
    for row in rows {
        add_row(env, alloc, grown, type_name, name, *row)?;
    }
    Ok(())
}

// Adds the methods of a name to a type, where the name isn't blank and each of them is had.
fn add_shown(
    env: &mut Env<'_>,
    alloc: Global,
    tables: &Tables<'_>,
    grown: Grown<'_>,
    type_name: &Text,
    name: &Text,
) -> Result<(), NoMemory>
    ensures ok { OnOk result (env.new ≡ with_shown (entries_of grown.entry) tables.now.namesakes (Some type_name.now) name.now env.old) }
    ensures same { setting_of env.new ≡ setting_of env.old }
{
    if is_blank(name.bytes()) {
        return Ok(());
    }
    let rows = tables.namesakes.of_name(type_name, name);
    if !are_had(grown, rows) {
        return Ok(());
    }
    add_rows(env, alloc, grown, type_name, name.bytes(), rows)
}

/// Adds to the type that a method is declared for the methods of its name, where the name isn't blank and each of them is had.
pub(crate) fn take_method(
    env: &mut Env<'_>,
    alloc: Global,
    tables: &Tables<'_>,
    grown: Grown<'_>,
    receiver: &ParameterDecl,
    func: &Func,
) -> Result<(), NoMemory>
    requires names { AreDeclared (declarations_of tables.now.declarations.now) tables.now.names.now }
    requires ends { AreEnds (declarations_of tables.now.declarations.now) tables.now.ends.items }
    ensures ok { OnOk result (env.new ≡ with_shown (entries_of grown.entry) tables.now.namesakes (base (declarations_of tables.now.declarations.now) receiver.now) func.now.name.text env.old) }
    ensures same { setting_of env.new ≡ setting_of env.old }
{
    match base(tables.declarations, tables.names, &tables.ends, receiver) {
        None => Ok(()),
        Some(type_name) => add_shown(env, alloc, tables, grown, type_name, &func.name.text),
    }
}
