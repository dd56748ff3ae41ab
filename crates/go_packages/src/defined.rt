//! The defined types of a package.
ghost use Rattle.std.specs.Prelude.{◌≡◌, IfOk, OnOk};
ghost use Rattle.go_base.specs.Keys.{item_of};
ghost use Rattle.go_declarations.specs.Listings.{declarations_of};
ghost use Rattle.go_declared.specs.MethodTables.{AreMethods};
ghost use Rattle.go_declared.specs.NameTables.{texts_of};
ghost use Rattle.go_entries.specs.HadEntries.{entries_at, found_entry};
ghost use Rattle.go_packages.specs.inner.DefinedTypes.{Adds, AreDefined, IsSorted, underneath};
ghost use Rattle.go_packages.specs.inner.FoundNames.{ArePlaced, IsPlaced};
ghost use Rattle.go_packages.specs.inner.HadMethods.{had_methods};
ghost use Rattle.go_sources.specs.UnitSources.{source_of};
ghost use Rattle.go_typings.specs.Declarations.{declarations as all_declarations, declared};
ghost use Rattle.go_typings.specs.PackageEnvironments.{own_defined, underlying_of};

use crate::found::found;
use crate::methods::sorted_methods;
use go_base::list::List;
use go_base::memory::NoMemory;
use go_base::text::Text;
use go_declarations::form::Form;
use go_declarations::listing::Declaration;
use go_declared::methods::DeclaredMethods;
use go_declared::names::ListedName;
use go_entries::entry::Entry;
use go_entries::had::HadEntries;
use go_model::types::package::Defined;
use go_model::types::term::Term;
use go_units::unit::Unit;
use std::alloc::Global;

fn term_in(entry: Option<&Entry>) -> Option<&Term>
    ensures { item_of result ≡ underlying_of (found_entry entry.entry) }
{
    match entry {
        Some(Entry::Underlying(term)) => Some(term),
        _ => None,
    }
}

// The type underneath the defined type of a name, where it is had.
fn underneath<'h>(
    declarations: &[Declaration<'_>],
    listed: ListedName<'_>,
    had: &'h HadEntries,
) -> Option<&'h Term>
    requires { IsPlaced (declarations_of declarations.now) listed }
    ensures { item_of result ≡ underneath (entries_at had.now) (declared (declarations_of declarations.now) listed.entry.name.now) }
{
    match found(declarations, listed) {
        None => None,
        Some(found) => match found.form {
            Form::Definition(_) => term_in(had.get(found.number)),
            _ => None,
        },
    }
}

// The defined type of a name, with this type underneath it.
fn defined(
    alloc: Global,
    unit: &Unit,
    declarations: &[Declaration<'_>],
    methods: &DeclaredMethods,
    name: &Text,
    term: &Term,
    had: &HadEntries,
) -> Result<Defined, NoMemory>
    requires listed { declarations_of declarations.now ≡ all_declarations (source_of unit.now) }
    requires methods { AreMethods (declarations_of declarations.now) methods.now }
    ensures { IfOk result (IsSorted (record { name = name.now; underlying = term.now; methods = had_methods (source_of unit.now) (entries_at had.now) name.now })) }
{
    Ok(Defined {
        name: name.copy()?,
        underlying: term.copy(alloc)?,
        methods: sorted_methods(alloc, unit, declarations, methods, name, had)?,
    })
}

// Adds the defined type of a name, where it is one and is had.
fn push_defined(
    types: &mut List<Defined>,
    alloc: Global,
    unit: &Unit,
    declarations: &[Declaration<'_>],
    methods: &DeclaredMethods,
    listed: ListedName<'_>,
    had: &HadEntries,
) -> Result<(), NoMemory>
    requires listed { declarations_of declarations.now ≡ all_declarations (source_of unit.now) }
    requires placed { IsPlaced (declarations_of declarations.now) listed }
    requires methods { AreMethods (declarations_of declarations.now) methods.now }
    ensures { OnOk result (Adds (own_defined (source_of unit.now) (entries_at had.now) listed.entry.name.now) types.old types.new) }
{
    match underneath(declarations, listed, had) {
        None => Ok(()),
        Some(term) => {
            let defined = defined(alloc, unit, declarations, methods, listed.name, term, had)?;
            types.push(defined)
        }
    }
}

/// The defined types of these names that are had, in their order, each with its methods in the order of their selectors.
pub(crate) fn defined_types(
    alloc: Global,
    unit: &Unit,
    declarations: &[Declaration<'_>],
    methods: &DeclaredMethods,
    listed: &[ListedName<'_>],
    had: &HadEntries,
) -> Result<List<Defined>, NoMemory>
    requires listed { declarations_of declarations.now ≡ all_declarations (source_of unit.now) }
    requires placed { ArePlaced (declarations_of declarations.now) listed.now }
    requires methods { AreMethods (declarations_of declarations.now) methods.now }
    ensures { IfOk result (AreDefined (own_defined (source_of unit.now) (entries_at had.now)) (texts_of listed.now)) }
{
    let mut types = List::new(alloc);
    for name in listed {
        push_defined(&mut types, alloc, unit, declarations, methods, *name, had)?;
    }
    Ok(types)
}
