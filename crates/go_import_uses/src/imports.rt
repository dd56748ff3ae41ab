//! The imports of files.
ghost use Rattle.std.specs.Prelude.{◌≡◌, map};
ghost use Rattle.go_sources.specs.UnitSources.{import_of, source_of};
ghost use Rattle.go_typings.specs.Sources.{imports_of};

use go_units::unit::{Unit, UsedImport};

/// The imports of a file, by its number.
pub(crate) fn imports_of(unit: &Unit, file: u32) -> &[UsedImport]
    ensures { map import_of result.now ≡ imports_of (source_of unit.now) file }
{
    match unit.files.items().get(file as usize) {
        Some(file) => file.imports.items(),
        None => &[],
    }
}
