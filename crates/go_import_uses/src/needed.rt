//! The first import that isn't found and from which a seen declaration selects.
ghost use Rattle.std.specs.Prelude.{◌≡◌, ℕ, None, false, true, length, map, IfNone, IfOk, IfSome};
ghost use Rattle.go_declarations.specs.Listings.{declaration_of, declarations_of};
ghost use Rattle.go_exposed.specs.ExposedDeclarations.{IsExposed};
ghost use Rattle.go_exposed.specs.ImportUses.{SelectsFrom};
ghost use Rattle.go_exposed.specs.Refusals.{IsMissing, IsNeeded, IsSeenIn};
ghost use Rattle.go_graphs.specs.Flags.{AreFlagsOf};
ghost use Rattle.go_import_uses.specs.Selecting.{OneSelects, Selects};
ghost use Rattle.go_import_uses.specs.inner.FirstNeeded.{NeedsIn};
ghost use Rattle.go_import_uses.specs.inner.SelectedPlaces.{HoldsPlaces};
ghost use Rattle.go_selectors.specs.Answers.{Decides};
ghost use Rattle.go_sources.specs.UnitSources.{import_of, source_of};
ghost use Rattle.go_syntax.specs.declared.name.Place.{Place as Spot};
ghost use Rattle.go_typings.specs.Declarations.{declarations as all_declarations};
ghost use Rattle.go_typings.specs.Sources.{imports_of, PackageSource};

use crate::imports::imports_of;
use crate::named_imports::{NamedImports, import_named, named_imports};
use crate::places::{has_place, places_in};
use crate::references::{is_selected, references};
use go_base::memory::NoMemory;
use go_declarations::listing::Declaration;
use go_graphs::flags::flag;
use go_references::references::Reference;
use go_syntax::name::Place;
use go_units::unit::{Unit, UsedImport};
use std::alloc::Global;
use std::collections::BTreeSet;

fn is_same(left: &UsedImport, right: &UsedImport) -> bool
    ensures { Decides result (import_of left.now ≡ import_of right.now) }
{
    if left.place != right.place {
        return false;
    }
    if left.found != right.found {
        return false;
    }
    if left.name != right.name {
        return false;
    }
    left.path == right.path
}

// Whether a reference selects from this import.
fn selects(imports: &NamedImports<'_>, reference: &Reference<'_>, import: &UsedImport) -> bool
    ensures { Decides result (Selects (map import_of imports.now) reference.now (import_of import.now)) }
{
    if !is_selected(reference) {
        return false;
    }
    match import_named(imports, &reference.name.text) {
        Some(found) => is_same(found, import),
        None => false,
    }
}

// Whether one of the references does.
fn one_selects(
    imports: &NamedImports<'_>,
    references: &[Reference<'_>],
    import: &UsedImport,
) -> bool
    ensures { Decides result (OneSelects (map import_of imports.now) references.now (import_of import.now)) }
{
    for reference in references {
        if selects(imports, reference, import) {
            return true;
        }
    }
    false
}

// Whether a declaration of a file with these imports selects from one of them.
fn selects_from(
    alloc: Global,
    imports: &NamedImports<'_>,
    declaration: &Declaration<'_>,
    import: &UsedImport,
) -> Result<bool, NoMemory>
    ensures { (u : PackageSource) → map import_of imports.now ≡ imports_of u (declaration_of declaration.now).file → IfOk result (λ answer. Decides answer (SelectsFrom u (declaration_of declaration.now) (import_of import.now))) }
{
    let references = references(alloc, declaration.form)?;
    Ok(one_selects(imports, references.items(), import))
}

// Whether a declaration that may be flagged as seen stands in the file, which has these imports, and selects from one of them.
fn counts(
    alloc: Global,
    imports: &NamedImports<'_>,
    declaration: &Declaration<'_>,
    is_seen: bool,
    file: u32,
    import: &UsedImport,
) -> Result<bool, NoMemory>
    ensures { (u : PackageSource) → map import_of imports.now ≡ imports_of u file → IfOk result (λ answer. Decides answer ((is_seen ≡ true) × ((declaration_of declaration.now).file ≡ file) × SelectsFrom u (declaration_of declaration.now) (import_of import.now))) }
{
    if !is_seen {
        return Ok(false);
    }
    if declaration.file != file {
        return Ok(false);
    }
    selects_from(alloc, imports, declaration, import)
}

// Whether a declaration of the file that is seen selects from an import.
fn is_seen_in(
    alloc: Global,
    unit: &Unit,
    declarations: &[Declaration<'_>],
    seen: &[bool],
    file: u32,
    import: &UsedImport,
) -> Result<bool, NoMemory>
    requires { declarations_of declarations.now ≡ all_declarations (source_of unit.now) }
    ensures { AreFlagsOf (length (all_declarations (source_of unit.now))) (IsExposed (source_of unit.now)) seen.now → IfOk result (λ answer. Decides answer (IsSeenIn (source_of unit.now) file (import_of import.now))) }
{
    let imports = named_imports(alloc, imports_of(unit, file))?;
    for number in 0..declarations.len() {
        let is_seen = flag(seen, number);
        let found = counts(
            alloc,
            &imports,
            &declarations[number],
            is_seen,
            file,
            import,
        )?;
        if found {
            return Ok(true);
        }
    }
    Ok(false)
}

// Whether an import isn't found and is needed. Most are told by the places of those from which something seen selects.
fn is_needed(
    alloc: Global,
    unit: &Unit,
    declarations: &[Declaration<'_>],
    seen: &[bool],
    file: u32,
    places: &BTreeSet<u32>,
    import: &UsedImport,
) -> Result<bool, NoMemory>
    requires listed { declarations_of declarations.now ≡ all_declarations (source_of unit.now) }
    requires held { HoldsPlaces (source_of unit.now) declarations.now seen.now file places.now.keys }
    ensures { AreFlagsOf (length (all_declarations (source_of unit.now))) (IsExposed (source_of unit.now)) seen.now → IfOk result (λ answer. Decides answer (IsNeeded (source_of unit.now) (file, import_of import.now))) }
{
    if import.found {
        return Ok(false);
    }
    if !has_place(places, import.place) {
        return Ok(false);
    }
    is_seen_in(alloc, unit, declarations, seen, file, import)
}

// Whether one of the imports isn't found; else none of them is needed.
fn has_missing(imports: &[UsedImport]) -> bool
    ensures { (u : PackageSource) (file : ℕ) → result ≡ false → NeedsIn u file imports.now None }
{
    for import in imports {
        if !import.found {
            return true;
        }
    }
    false
}

// The first of the imports of a file that is needed.
fn needed_in(
    alloc: Global,
    unit: &Unit,
    declarations: &[Declaration<'_>],
    seen: &[bool],
    file: u32,
    imports: &[UsedImport],
) -> Result<Option<Place>, NoMemory>
    requires { declarations_of declarations.now ≡ all_declarations (source_of unit.now) }
    ensures { AreFlagsOf (length (all_declarations (source_of unit.now))) (IsExposed (source_of unit.now)) seen.now → IfOk result (NeedsIn (source_of unit.now) file imports.now) }
{
    if !has_missing(imports) {
        return Ok(None);
    }
    let places = places_in(alloc, unit, declarations, seen, file)?;
    for import in imports {
        let found = is_needed(alloc, unit, declarations, seen, file, &places, import)?;
        if found {
            return Ok(Some(Place {
                file,
                offset: import.place,
            }));
        }
    }
    Ok(None)
}

/// The place of the first import of a package, in the order of its files and their places, that isn't found and from which a declaration
/// that is seen selects; None where there is none. Each file that has one that isn't found takes time by the number of its references, and by that of
/// the package's declarations.
pub fn first_needed(
    alloc: Global,
    unit: &Unit,
    declarations: &[Declaration<'_>],
    seen: &[bool],
) -> Result<Option<Place>, NoMemory>
    requires { declarations_of declarations.now ≡ all_declarations (source_of unit.now) }
    ensures some { AreFlagsOf (length (all_declarations (source_of unit.now))) (IsExposed (source_of unit.now)) seen.now → IfOk result (λ found. IfSome found (IsMissing (source_of unit.now))) }
    ensures none { AreFlagsOf (length (all_declarations (source_of unit.now))) (IsExposed (source_of unit.now)) seen.now → IfOk result (λ found. IfNone found ((p : Spot) → IsMissing (source_of unit.now) p → ⊥)) }
{
    let mut number = 0u32;
    for file in unit.files.items() {
        let imports = file.imports.items();
        let found = needed_in(alloc, unit, declarations, seen, number, imports)?;
        match found {
            None => {}
            Some(place) => return Ok(Some(place)),
        }
        number += 1;
    }
    Ok(None)
}
