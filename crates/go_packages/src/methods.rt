//! The methods of defined types, in the order of their selectors.
ghost use Rattle.std.specs.Prelude.{◌≡◌, ◌++◌, [], IfOk, OnOk, if◌then◌else◌, map};
ghost use Rattle.go_base.specs.Gathered.{gather};
ghost use Rattle.go_base.specs.Keys.{item_of};
ghost use Rattle.go_declarations.specs.Forms.{form_of};
ghost use Rattle.go_declarations.specs.Listings.{declarations_of};
ghost use Rattle.go_declared.specs.MethodTables.{AreMethods, method_name, name_by};
ghost use Rattle.go_entries.specs.HadEntries.{entries_at, found_entry};
ghost use Rattle.go_packages.specs.inner.HadMethods.{AreSorted, had_by, had_methods, method_at};
ghost use Rattle.go_rules.specs.Environments.{is_exported};
ghost use Rattle.go_sources.specs.UnitSources.{source_of};
ghost use Rattle.go_typings.specs.Declarations.{declarations as all_declarations};
ghost use Rattle.go_typings.specs.PackageEnvironments.{signature_of};
ghost use Rattle.go_typings.specs.Receivers.{selector};

use go_base::list::List;
use go_base::memory::NoMemory;
use go_base::text::Text;
use go_declarations::form::Form;
use go_declarations::listing::Declaration;
use go_declared::methods::{DeclaredMethods, MethodRow};
use go_entries::entry::Entry;
use go_entries::had::HadEntries;
use go_model::types::names::Sel;
use go_model::types::package::MethodOf;
use go_model::types::term::Signature;
use go_rules::blank::is_blank;
use go_rules::exports::is_exported;
use go_units::unit::Unit;
use std::alloc::Global;

fn name_by<'a>(form: Form<'a>) -> &'a [u8]
    ensures { result.now ≡ name_by (form_of form.entry) }
{
    match form {
        Form::Method(_, func) => func.name.text.bytes(),
        _ => &[],
    }
}

// The name of the method that the declaration of a number declares.
fn method_name<'a>(declarations: &[Declaration<'a>], number: usize) -> &'a [u8]
    ensures { result.now ≡ method_name (declarations_of declarations.now) number }
{
    match declarations.get(number) {
        Some(declaration) => name_by(declaration.form),
        None => &[],
    }
}

// The package that a selector has which is a name in the package of this path.
fn owner(alloc: Global, path: &Text, name: &[u8]) -> Result<Text, NoMemory>
    ensures { IfOk result (λ owner. owner ≡ (if is_exported name.now then [] else path.now)) }
{
    if is_exported(name) {
        Text::of(alloc, &[])
    } else {
        path.copy()
    }
}

// The selector of a name in the package of this path.
fn selector(alloc: Global, path: &Text, name: &[u8]) -> Result<Sel, NoMemory>
    ensures { IfOk result (λ sel. sel ≡ selector path.now name.now) }
{
    Ok(Sel {
        name: Text::of(alloc, name)?,
        package: owner(alloc, path, name)?,
    })
}

fn signature_in(entry: Option<&Entry>) -> Option<&Signature>
    ensures { item_of result ≡ signature_of (found_entry entry.entry) }
{
    match entry {
        Some(Entry::Signed(signature)) => Some(signature),
        _ => None,
    }
}

// Adds a method, where a selector can find it and its signature is had.
fn push_method(
    listed: &mut List<MethodOf>,
    alloc: Global,
    path: &Text,
    declarations: &[Declaration<'_>],
    row: MethodRow,
    had: &HadEntries,
) -> Result<(), NoMemory>
    ensures { OnOk result (listed.new ≡ listed.old ++ had_by (entries_at had.now) (method_at path.now (declarations_of declarations.now) row)) }
{
    let name = method_name(declarations, row.number);
    if is_blank(name) {
        return Ok(());
    }
    match signature_in(had.get(row.number)) {
        None => Ok(()),
        Some(signature) => listed.push(MethodOf {
            sel: selector(alloc, path, name)?,
            pointer: row.pointer,
            signature: signature.copy(alloc)?,
        }),
    }
}

// The methods that these rows are, where a selector can find them and their signatures are had.
fn methods_by(
    alloc: Global,
    path: &Text,
    declarations: &[Declaration<'_>],
    rows: &[MethodRow],
    had: &HadEntries,
) -> Result<List<MethodOf>, NoMemory>
    ensures { IfOk result (λ ms. ms ≡ gather (had_by (entries_at had.now)) (map (method_at path.now (declarations_of declarations.now)) rows.now)) }
{
    let mut listed = List::new(alloc);
    for row in rows {
        push_method(&mut listed, alloc, path, declarations, *row, had)?;
    }
    Ok(listed)
}

// The methods of the defined type of a name that are had.
fn methods_of(
    alloc: Global,
    unit: &Unit,
    declarations: &[Declaration<'_>],
    methods: &DeclaredMethods,
    name: &Text,
    had: &HadEntries,
) -> Result<List<MethodOf>, NoMemory>
    requires listed { declarations_of declarations.now ≡ all_declarations (source_of unit.now) }
    requires methods { AreMethods (declarations_of declarations.now) methods.now }
    ensures { IfOk result (λ ms. ms ≡ had_methods (source_of unit.now) (entries_at had.now) name.now) }
{
    let listed = methods_by(alloc, &unit.path, declarations, methods.of_type(name), had)?;
    Ok(listed)
}

// The methods in the order of their selectors.
fn sorted(methods: List<MethodOf>) -> Result<List<MethodOf>, NoMemory>
    ensures { IfOk result (AreSorted methods) }
{
    let mut sorted = methods.into_vec();
    sorted.sort_by(|left, right| left.sel.cmp(&right.sel))?;
    Ok(List::from_vec(sorted))
}

/// The methods of the defined type of a name that are had, in the order of their selectors.
pub(crate) fn sorted_methods(
    alloc: Global,
    unit: &Unit,
    declarations: &[Declaration<'_>],
    methods: &DeclaredMethods,
    name: &Text,
    had: &HadEntries,
) -> Result<List<MethodOf>, NoMemory>
    requires listed { declarations_of declarations.now ≡ all_declarations (source_of unit.now) }
    requires methods { AreMethods (declarations_of declarations.now) methods.now }
    ensures { IfOk result (AreSorted (had_methods (source_of unit.now) (entries_at had.now) name.now)) }
{
    let listed = methods_of(alloc, unit, declarations, methods, name, had)?;
    sorted(listed)
}
