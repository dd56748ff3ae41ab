//! The first import of a package that isn't found.
ghost use Rattle.std.specs.Prelude.{◌≡◌, IfSome, IfNone};
ghost use Rattle.go_syntax.specs.declared.name.Place.{Place};
ghost use Rattle.go_typings.specs.Refusals.{IsMissing};
ghost use Rattle.go_sources.specs.UnitSources.{source_of};
ghost use Rattle.go_sources.specs.inner.MissingImports.{Misses, MissesIn};

use go_syntax::name::Place;
use go_units::unit::{Unit, UnitFile, UsedImport};

fn first_missing(file: u32, imports: &[UsedImport]) -> Option<Place>
    ensures { MissesIn file imports.now result }
{
    for import in imports {
        if !import.found {
            return Some(Place {
                file,
                offset: import.place,
            });
        }
    }
    None
}

/// The place of the first used import of a package, in the order of its files and their places, that isn't found; None where each
/// is.
pub fn missing_import(unit: &Unit) -> Option<Place>
    ensures some { IfSome result (IsMissing (source_of unit.now)) }
    ensures none { IfNone result ((p : Place) → IsMissing (source_of unit.now) p → ⊥) }
{
    let mut number = 0u32;
    for file in unit.files.items() {
        match first_missing(number, file.imports.items()) {
            None => {}
            Some(place) => return Some(place),
        }
        number += 1;
    }
    None
}
