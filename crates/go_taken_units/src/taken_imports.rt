//! Whether all that a package imports was taken over.
ghost use Rattle.std.specs.Prelude.{◌≡◌, true};
ghost use Rattle.std.specs.List.{list_all};
ghost use Rattle.go_sources.specs.UnitSources.{file_of, import_of, source_of};
ghost use Rattle.go_taken_packages.specs.TakenPaths.{ImportsAreOf};
ghost use Rattle.go_taken_packages.specs.ToldPackages.{imports_are_among, is_among, is_missing_or_among};

use go_base::text::Text;
use go_units::unit::{Unit, UnitFile, UsedImport};
use std::collections::BTreeSet;

fn is_among(paths: &BTreeSet<Text>, path: &Text) -> bool
    ensures { result ≡ is_among paths.now.keys path.now }
{
    paths.contains(path)
}

fn is_taken(paths: &BTreeSet<Text>, import: &UsedImport) -> bool
    ensures { result ≡ is_missing_or_among paths.now.keys (import_of import.now) }
{
    !import.found || is_among(paths, &import.path)
}

fn are_imports_taken(paths: &BTreeSet<Text>, imports: &[UsedImport]) -> bool
    ensures { result ≡ list_all (λ i. is_missing_or_among paths.now.keys (import_of i)) imports.now }
{
    imports.iter().all(|import| is_taken(paths, import))
}

fn is_file_taken(paths: &BTreeSet<Text>, file: &UnitFile) -> bool
    ensures { result ≡ imports_are_among paths.now.keys (file_of file.now) }
{
    are_imports_taken(paths, file.imports.items())
}

fn are_files_taken(paths: &BTreeSet<Text>, files: &[UnitFile]) -> bool
    ensures { result ≡ list_all (λ f. imports_are_among paths.now.keys (file_of f)) files.now }
{
    files.iter().all(|file| is_file_taken(paths, file))
}

// Whether each import of a package that is found is of one of these paths.
pub(crate) fn are_taken(paths: &BTreeSet<Text>, unit: &Unit) -> bool
    ensures { result ≡ true → ImportsAreOf (is_among paths.now.keys) (source_of unit.now) }
{
    are_files_taken(paths, unit.files.items())
}
