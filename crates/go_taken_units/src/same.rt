//! Whether two packages are known to be written the same. Where their files lie isn't asked.
ghost use Rattle.std.specs.Prelude.{◌≡◌, map, true};
ghost use Rattle.go_sources.specs.UnitSources.{file_of, source_of};

use go_units::unit::{Unit, UnitFile, UsedImport};

fn is_same_import(import: &UsedImport, other: &UsedImport) -> bool
    ensures { result ≡ true → other.now ≡ import.now }
{
    if import.place != other.place {
        return false;
    }
    if import.found != other.found {
        return false;
    }
    if import.name != other.name {
        return false;
    }
    import.path == other.path
}

fn are_same_imports(imports: &[UsedImport], others: &[UsedImport]) -> bool
    ensures { result ≡ true → others.now ≡ imports.now }
{
    if imports.len() != others.len() {
        return false;
    }
    for (number, import) in imports.iter().enumerate() {
        if !is_same_import(import, &others[number]) {
            return false;
        }
    }
    true
}

fn is_same_file(file: &UnitFile, other: &UnitFile) -> bool
    ensures { result ≡ true → file_of other.now ≡ file_of file.now }
{
    if !are_same_imports(file.imports.items(), other.imports.items()) {
        return false;
    }
    file.outline.is_same(&other.outline)
}

fn are_same_files(files: &[UnitFile], others: &[UnitFile]) -> bool
    ensures { result ≡ true → map file_of others.now ≡ map file_of files.now }
{
    if files.len() != others.len() {
        return false;
    }
    for (number, file) in files.iter().enumerate() {
        if !is_same_file(file, &others[number]) {
            return false;
        }
    }
    true
}

pub(crate) fn is_same_unit(unit: &Unit, other: &Unit) -> bool
    ensures { result ≡ true → source_of other.now ≡ source_of unit.now }
{
    if unit.from_std != other.from_std {
        return false;
    }
    if unit.path != other.path {
        return false;
    }
    if unit.name != other.name {
        return false;
    }
    are_same_files(unit.files.items(), other.files.items())
}
