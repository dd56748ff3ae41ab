//! Declarations that select from imports that aren't found.
ghost use Rattle.std.specs.Prelude.{◌≡◌, length, map, IfOk};
ghost use Rattle.go_declarations.specs.Listings.{declaration_of, declarations_of};
ghost use Rattle.go_exposed.specs.BeyondProfile.{SelectsMissing};
ghost use Rattle.go_graphs.specs.Flags.{AreFlagsOf};
ghost use Rattle.go_import_uses.specs.Selecting.{OneSelectsNone, SelectsMissingAt, SelectsNone};
ghost use Rattle.go_selectors.specs.Answers.{Decides};
ghost use Rattle.go_sources.specs.UnitSources.{import_of, source_of};
ghost use Rattle.go_typings.specs.Declarations.{declarations as all_declarations};
ghost use Rattle.go_typings.specs.Sources.{imports_of, PackageSource};

use crate::imports::imports_of;
use crate::named_imports::{NamedImports, import_named, named_imports};
use crate::references::{is_selected, references};
use go_base::memory::NoMemory;
use go_declarations::listing::Declaration;
use go_references::references::Reference;
use go_units::unit::Unit;
use std::alloc::Global;

// Whether a reference selects from an import that isn't found.
fn selects_none(imports: &NamedImports<'_>, reference: &Reference<'_>) -> bool
    ensures { Decides result (SelectsNone (map import_of imports.now) reference.now) }
{
    if !is_selected(reference) {
        return false;
    }
    match import_named(imports, &reference.name.text) {
        Some(import) => !import.found,
        None => false,
    }
}

// Whether one of the references does.
fn one_selects_none(imports: &NamedImports<'_>, references: &[Reference<'_>]) -> bool
    ensures { Decides result (OneSelectsNone (map import_of imports.now) references.now) }
{
    for reference in references {
        if selects_none(imports, reference) {
            return true;
        }
    }
    false
}

// Whether a declaration of a file with these imports selects from one that isn't found.
fn selects_missing(
    alloc: Global,
    imports: &NamedImports<'_>,
    declaration: &Declaration<'_>,
) -> Result<bool, NoMemory>
    ensures { (u : PackageSource) → map import_of imports.now ≡ imports_of u (declaration_of declaration.now).file → IfOk result (λ answer. Decides answer (SelectsMissing u (declaration_of declaration.now))) }
{
    let references = references(alloc, declaration.form)?;
    Ok(one_selects_none(imports, references.items()))
}

// The imports of the file of one number, where those of another are at hand.
fn turned_to<'u>(
    alloc: Global,
    unit: &'u Unit,
    file: u32,
    imports: NamedImports<'u>,
    wanted: u32,
) -> Result<NamedImports<'u>, NoMemory>
    requires { map import_of imports ≡ imports_of (source_of unit.now) file }
    ensures { IfOk result (λ turned. map import_of turned ≡ imports_of (source_of unit.now) wanted) }
{
    if file == wanted {
        return Ok(imports);
    }
    named_imports(alloc, imports_of(unit, wanted))
}

/// Flags of the declarations of a package that select from imports that aren't found. Where the declarations stand in the order of their files,
/// the imports of each file are put in order once.
pub fn selecting_missing(
    alloc: Global,
    unit: &Unit,
    declarations: &[Declaration<'_>],
) -> Result<Vec<bool>, NoMemory>
    requires { declarations_of declarations.now ≡ all_declarations (source_of unit.now) }
    ensures { IfOk result (λ flags. AreFlagsOf (length (all_declarations (source_of unit.now))) (SelectsMissingAt (source_of unit.now)) flags.items) }
{
    let mut flags = Vec::new(alloc);
    let mut file = 0u32;
    let mut imports = named_imports(alloc, imports_of(unit, file))?;
    for number in 0..declarations.len() {
        let declaration = &declarations[number];
        imports = turned_to(alloc, unit, file, imports, declaration.file)?;
        file = declaration.file;
        let found = selects_missing(alloc, &imports, declaration)?;
        flags.push(found)?;
    }
    Ok(flags)
}
