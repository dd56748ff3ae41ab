//! Which folders hold packages, and which of them each package needs.
ghost use Rattle.std.specs.Prelude.{◌≡◌, ◌++◌, ◌∷◌, ◌<◌, [], length, IfOk, OnOk};
ghost use Rattle.go_base.specs.Growing.{Grows};
ghost use Rattle.go_units.specs.Folders.{AreOrdered};
ghost use Rattle.go_units.specs.UnitsOfModules.{holds_files, packages_in, AreNeeds, FilesNeed, Needs};
ghost use Rattle.go_units.specs.inner.UnitMaking.{PathNeeds, UsesNeed, NeedsBy};

use crate::folder::{Folder, folder_at, found};
use crate::package_uses::PackageFile;
use go_base::list::List;
use go_base::memory::NoMemory;
use go_imports::used_imports::NamedImport;
use std::alloc::Global;

fn holds_files(files: &Option<List<PackageFile>>) -> bool
    ensures { result ≡ holds_files files.now }
{
    match files {
        None => false,
        Some(files) => 0 < files.items().len(),
    }
}

/// Which folders hold packages.
pub fn packages_in(
    alloc: Global,
    slots: &[Option<List<PackageFile>>],
) -> Result<Vec<bool>, NoMemory>
    ensures { IfOk result (λ packages. packages.items ≡ packages_in slots.now) }
{
    let mut packages = Vec::new(alloc);
    for files in slots {
        packages.push(holds_files(files))?;
    }
    Ok(packages)
}

fn add_need(needs: &mut List<usize>, number: usize) -> Result<(), NoMemory>
    ensures { OnOk result (Grows (λ m. number ≡ m) needs.old needs.new) }
{
    needs.push(number)
}

fn add_found(
    module_path: &[u8],
    folders: &[Folder],
    packages: &[bool],
    needs: &mut List<usize>,
    from_std: bool,
    path: &[u8],
) -> Result<(), NoMemory>
    requires { AreOrdered folders.now }
    ensures { OnOk result (Grows (PathNeeds module_path.now folders.now packages.now from_std path.now) needs.old needs.new) }
{
    match found(module_path, folders, packages, from_std, path) {
        None => Ok(()),
        Some(number) => add_need(needs, number),
    }
}

fn add_needs_of_uses(
    module_path: &[u8],
    folders: &[Folder],
    packages: &[bool],
    needs: &mut List<usize>,
    from_std: bool,
    uses: &[NamedImport],
) -> Result<(), NoMemory>
    requires { AreOrdered folders.now }
    ensures { OnOk result (Grows (UsesNeed module_path.now folders.now packages.now from_std uses.now) needs.old needs.new) }
{
    for import in uses {
        let path = import.path.bytes();
        add_found(module_path, folders, packages, needs, from_std, path)?;
    }
    Ok(())
}

fn needs_of_files(
    alloc: Global,
    module_path: &[u8],
    folders: &[Folder],
    packages: &[bool],
    from_std: bool,
    files: &[PackageFile],
) -> Result<List<usize>, NoMemory>
    requires { AreOrdered folders.now }
    ensures { IfOk result (Grows (FilesNeed module_path.now folders.now packages.now from_std files.now) []) }
{
    let mut needs = List::new(alloc);
    for file in files {
        let uses = file.uses.items();
        add_needs_of_uses(module_path, folders, packages, &mut needs, from_std, uses)?;
    }
    Ok(needs)
}

fn needs_at(
    alloc: Global,
    module_path: &[u8],
    folders: &[Folder],
    packages: &[bool],
    slots: &[Option<List<PackageFile>>],
    number: usize,
) -> Result<List<usize>, NoMemory>
    requires ordered { AreOrdered folders.now }
    requires within { number < length folders.now }
    ensures { IfOk result (Grows (NeedsBy module_path.now folders.now packages.now slots.now number) []) }
{
    let from_std = folder_at(folders, number).from_std;
    match slots.get(number) {
        Some(Some(files)) => needs_of_files(
            alloc,
            module_path,
            folders,
            packages,
            from_std,
            files.items(),
        ),
        _ => Ok(List::new(alloc)),
    }
}

/// The folders that the package in each folder needs.
pub(crate) fn needs(
    alloc: Global,
    module_path: &[u8],
    folders: &[Folder],
    packages: &[bool],
    slots: &[Option<List<PackageFile>>],
) -> Result<Vec<List<usize>>, NoMemory>
    requires ordered { AreOrdered folders.now }
    requires flags { packages.now ≡ packages_in slots.now }
    requires rows { length slots.now ≡ length folders.now }
    ensures { IfOk result (λ graph. AreNeeds module_path.now folders.now slots.now graph.items) }
{
    let mut graph = Vec::new(alloc);
    for number in 0..folders.len() {
        graph.push(needs_at(alloc, module_path, folders, packages, slots, number)?)?;
    }
    Ok(graph)
}
