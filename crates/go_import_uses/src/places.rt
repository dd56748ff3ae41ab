//! The places of the imports of a file from which a seen declaration selects.
ghost use Rattle.std.specs.Prelude.{◌≡◌, ◌↔◌, IfOk, IsTrue, OnOk, map, true};
ghost use Rattle.go_base.specs.Growing.{Grows};
ghost use Rattle.go_base.specs.Lists.{Has};
ghost use Rattle.go_declarations.specs.Listings.{declaration_of};
ghost use Rattle.go_import_uses.specs.inner.SelectedPlaces.{CountsAt, HoldsPlaces, SelectsAt, SomeSelectsAt};
ghost use Rattle.go_selectors.specs.Answers.{Decides};
ghost use Rattle.go_sources.specs.UnitSources.{import_of, source_of};
ghost use Rattle.go_typings.specs.Sources.{imports_of, PackageSource};

use crate::imports::imports_of;
use crate::named_imports::{NamedImports, import_named, named_imports};
use crate::references::{is_selected, references};
use go_base::memory::NoMemory;
use go_declarations::listing::Declaration;
use go_graphs::flags::flag;
use go_references::references::Reference;
use go_units::unit::Unit;
use std::alloc::Global;
use std::collections::BTreeSet;

fn put(places: &mut BTreeSet<u32>, place: u32) -> Result<(), NoMemory>
    ensures { OnOk result (Grows (λ p. place ≡ p) places.old.keys places.new.keys) }
{
    places.insert(place)?;
    Ok(())
}

// Adds the place of the import from which a reference selects.
fn add_selected(
    places: &mut BTreeSet<u32>,
    imports: &NamedImports<'_>,
    reference: &Reference<'_>,
) -> Result<(), NoMemory>
    ensures { OnOk result (Grows (SelectsAt (map import_of imports.now) reference.now) places.old.keys places.new.keys) }
{
    if !is_selected(reference) {
        return Ok(());
    }
    match import_named(imports, &reference.name.text) {
        Some(found) => {
            put(places, found.place)?;
            Ok(())
        }
        None => Ok(()),
    }
}

// Adds those of the imports from which one of the references does.
fn add_all_selected(
    places: &mut BTreeSet<u32>,
    imports: &NamedImports<'_>,
    references: &[Reference<'_>],
) -> Result<(), NoMemory>
    ensures { OnOk result (Grows (SomeSelectsAt (map import_of imports.now) references.now) places.old.keys places.new.keys) }
{
    for reference in references {
        add_selected(places, imports, reference)?;
    }
    Ok(())
}

// Whether a declaration that may be flagged as seen stands in the file.
fn is_counted(declaration: &Declaration<'_>, is_seen: bool, file: u32) -> bool
    ensures { Decides result ((is_seen ≡ true) × ((declaration_of declaration.now).file ≡ file)) }
{
    if !is_seen {
        return false;
    }
    declaration.file == file
}

// Adds those of the imports of a file from which a declaration does, where it is flagged as seen and stands in the file.
fn add_counted(
    alloc: Global,
    places: &mut BTreeSet<u32>,
    imports: &NamedImports<'_>,
    declaration: &Declaration<'_>,
    is_seen: bool,
    file: u32,
) -> Result<(), NoMemory>
    ensures { (u : PackageSource) → map import_of imports.now ≡ imports_of u file → OnOk result (Grows (CountsAt u is_seen file (declaration_of declaration.now)) places.old.keys places.new.keys) }
{
    if !is_counted(declaration, is_seen, file) {
        return Ok(());
    }
    let references = references(alloc, declaration.form)?;
    add_all_selected(places, imports, references.items())?;
    Ok(())
}

/// The places of the imports of a file from which a declaration selects that is flagged as seen.
pub(crate) fn places_in(
    alloc: Global,
    unit: &Unit,
    declarations: &[Declaration<'_>],
    seen: &[bool],
    file: u32,
) -> Result<BTreeSet<u32>, NoMemory>
    ensures { IfOk result (λ places. HoldsPlaces (source_of unit.now) declarations.now seen.now file places.keys) }
{
    let imports = named_imports(alloc, imports_of(unit, file))?;
    let mut places = BTreeSet::new(alloc);
    for number in 0..declarations.len() {
        let is_seen = flag(seen, number);
        add_counted(
            alloc,
            &mut places,
            &imports,
            &declarations[number],
            is_seen,
            file,
        )?;
    }
    Ok(places)
}

/// Whether a place is one of these.
pub(crate) fn has_place(places: &BTreeSet<u32>, place: u32) -> bool
    ensures { IsTrue result ↔ Has places.now.keys place }
{
    places.contains(&place)
}
