//! Folders that may hold packages, and the one that an import path names.
ghost use Rattle.std.specs.Prelude.{◌≡◌, ◌<◌, length, get_or, false};
ghost use Rattle.std.specs.Ordering.{nat_cmp};
ghost use Rattle.std.specs.Cmp.Lexicographic.{slice_cmp};
ghost use Rattle.go_imports.specs.Answers.{Decides};
ghost use Rattle.go_units.specs.Folders.{folder_of, AreOrdered, IsSought, MayBeFound, NamesFolder, AsksFor, IsFound};
ghost use Rattle.go_units.specs.inner.FolderPlaces.{FindsOne, IsAt, IsLibrary, IsAskedFor, IsFoundable};

use go_base::text::Text;
use go_imports::import_paths::is_under;
use std::cmp::Ordering;

/// A folder of a tree that may hold a package.
#[derive(Debug, Drop)]
pub struct Folder {
    /// Its import path.
    pub path: Text,
    /// Whether it stands in the standard library's tree, else in the module's.
    pub from_std: bool,
    /// The name in the package clause of its first file that says one: the platform chooses the file, and its header isn't
    /// refused.
    pub package_name: Option<Text>,
}

/// The folder of a number.
pub fn folder_at(folders: &[Folder], number: usize) -> &Folder
    requires { number < length folders.now }
    ensures { result.now ≡ folder_of folders.now number }
{
    &folders[number]
}

fn compare(folder: &Folder, path: &[u8]) -> Ordering
    ensures { result ≡ slice_cmp nat_cmp folder.now.path path.now }
{
    folder.path.bytes().cmp(path)
}

fn place_of(folders: &[Folder], path: &[u8]) -> Option<usize>
    requires { AreOrdered folders.now }
    ensures { FindsOne (IsAt folders.now path.now) result }
{
    let mut low = 0usize;
    let mut high = folders.len();
    while low < high {
        let middle = low + (high - low) / 2;
        let folder = &folders[middle];
        match compare(folder, path) {
            Ordering::Less => low = middle + 1,
            Ordering::Greater => high = middle,
            Ordering::Equal => return Some(middle),
        }
    }
    None
}

fn is_sought(module_path: &[u8], from_std: bool, path: &[u8], in_std: bool) -> bool
    ensures { Decides result (IsSought module_path.now from_std path.now in_std) }
{
    if from_std {
        return in_std;
    }
    if in_std {
        return !is_under(path, module_path);
    }
    is_under(path, module_path)
}

fn stands_there(
    module_path: &[u8],
    folders: &[Folder],
    from_std: bool,
    path: &[u8],
    number: usize,
) -> bool
    requires { IsAt folders.now path.now number }
    ensures { Decides result (NamesFolder module_path.now folders.now from_std path.now number) }
{
    is_sought(
        module_path,
        from_std,
        path,
        folder_at(folders, number).from_std,
    )
}

/// The folder that an import path names in a package of the standard library or of the module.
pub fn named(module_path: &[u8], folders: &[Folder], from_std: bool, path: &[u8]) -> Option<usize>
    requires { AreOrdered folders.now }
    ensures { FindsOne (NamesFolder module_path.now folders.now from_std path.now) result }
{
    match place_of(folders, path) {
        None => None,
        Some(number) => {
            if !stands_there(module_path, folders, from_std, path, number) {
                return None;
            }
            Some(number)
        }
    }
}

fn is_library(package_name: &Option<Text>) -> bool
    ensures { Decides result (IsLibrary package_name.now) }
{
    match package_name {
        None => true,
        Some(name) => name.bytes() != b"main".as_slice(),
    }
}

fn may_be_found(folder: &Folder) -> bool
    ensures { Decides result (MayBeFound folder.now) }
{
    if folder.path.bytes() == b"unsafe".as_slice() {
        return false;
    }
    is_library(&folder.package_name)
}

fn is_asked(folder: &Folder) -> bool
    ensures { Decides result (IsAskedFor folder.now) }
{
    if !folder.from_std {
        return false;
    }
    may_be_found(folder)
}

/// The folder of the standard library for which a used import asks.
pub fn asked(module_path: &[u8], folders: &[Folder], from_std: bool, path: &[u8]) -> Option<usize>
    requires { AreOrdered folders.now }
    ensures { FindsOne (AsksFor module_path.now folders.now from_std path.now) result }
{
    match named(module_path, folders, from_std, path) {
        None => None,
        Some(number) => {
            if !is_asked(folder_at(folders, number)) {
                return None;
            }
            Some(number)
        }
    }
}

fn is_flagged(packages: &[bool], number: usize) -> bool
    ensures { result ≡ get_or packages.now number false }
{
    match packages.get(number) {
        None => false,
        Some(flag) => *flag,
    }
}

fn holds_package(packages: &[bool], folder: &Folder, number: usize) -> bool
    ensures { Decides result (IsFoundable packages.now folder.now number) }
{
    if folder.package_name.is_none() {
        return false;
    }
    if !may_be_found(folder) {
        return false;
    }
    is_flagged(packages, number)
}

/// The folder in which an import is found, where these folders hold packages.
pub fn found(
    module_path: &[u8],
    folders: &[Folder],
    packages: &[bool],
    from_std: bool,
    path: &[u8],
) -> Option<usize>
    requires { AreOrdered folders.now }
    ensures { FindsOne (IsFound module_path.now folders.now packages.now from_std path.now) result }
{
    match named(module_path, folders, from_std, path) {
        None => None,
        Some(number) => {
            if !holds_package(packages, folder_at(folders, number), number) {
                return None;
            }
            Some(number)
        }
    }
}
