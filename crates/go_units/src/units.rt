//! The units of a module: its packages with those of the standard library that they reach, in canonical order.
ghost use Rattle.std.specs.Prelude.{◌≡◌, ◌<◌, ◌≤◌, None, length, slice_set, IfOk, IfSome, OnOk};
ghost use Rattle.go_units.specs.Folders.{AreOrdered};
ghost use Rattle.go_units.specs.Reached.{slot};
ghost use Rattle.go_units.specs.UnitsOfModules.{Answers, packages_in, AreUnits};
ghost use Rattle.go_units.specs.inner.UnitMaking.{AreAlike};
ghost use Rattle.go_units.specs.inner.UnitOrder.{IsCycleOf, AreReadable, AddsUnit, HasOrder, UnitsAre, Orders};

use crate::folder::{Folder, folder_at};
use crate::package_uses::PackageFile;
use crate::reached::reached;
use crate::reader::FolderReader;
use crate::unit::Unit;
use crate::unit_error::UnitError;
use crate::unit_files::unit;
use crate::unit_graph::{needs, packages_in};
use crate::unit_list::Units;
use go_base::list::List;
use go_base::memory::NoMemory;
use go_imports::order::{OrderError, canonical_order};
use std::alloc::Global;

fn cycle(folder: &Folder) -> UnitError
    ensures { IsCycleOf folder.now result }
{
    match folder.path.copy() {
        Err(_) => UnitError::NoMemory,
        Ok(path) => UnitError::Cycle(path),
    }
}

fn take(slots: &mut Vec<Option<List<PackageFile>>>, number: usize) -> Option<List<PackageFile>>
    requires { number < length slots.old.items }
    ensures taken { result ≡ slot slots.old.items number }
    ensures left { slots.new.items ≡ slice_set slots.old.items number None }
{
    std::mem::replace(&mut slots[number], None)
}

// Adds the unit of these files, where there are some.
fn add_unit(
    alloc: Global,
    module_path: &[u8],
    folders: &[Folder],
    packages: &[bool],
    units: &mut List<Unit>,
    number: usize,
    files: Option<List<PackageFile>>,
) -> Result<(), NoMemory>
    requires ordered { AreOrdered folders.now }
    requires within { number < length folders.now }
    requires readable { IfSome files (λ files. (length files < 4294967296) × AreAlike files) }
    ensures { OnOk result (AddsUnit module_path.now folders.now packages.now number files units.old units.new) }
{
    match files {
        None => Ok(()),
        Some(files) => {
            if files.items().is_empty() {
                return Ok(());
            }
            let made = unit(alloc, module_path, folders, packages, number, files)?;
            units.push(made)
        }
    }
}

fn units_in(
    alloc: Global,
    module_path: &[u8],
    folders: &[Folder],
    packages: &[bool],
    slots: Vec<Option<List<PackageFile>>>,
    order: &[usize],
) -> Result<List<Unit>, NoMemory>
    requires ordered { AreOrdered folders.now }
    requires rows { length slots.items ≡ length folders.now }
    requires readable { AreReadable slots.items }
    requires flags { packages.now ≡ packages_in slots.items }
    requires order { HasOrder module_path.now folders.now slots.items order.now }
    ensures { IfOk result (UnitsAre module_path.now folders.now slots.items) }
{
    let mut left = slots;
    let mut units = List::new(alloc);
    for number in order {
        let files = take(&mut left, *number);
        add_unit(
            alloc,
            module_path,
            folders,
            packages,
            &mut units,
            *number,
            files,
        )?;
    }
    Ok(units)
}

fn units_of(
    alloc: Global,
    module_path: &[u8],
    folders: &[Folder],
    packages: &[bool],
    slots: Vec<Option<List<PackageFile>>>,
    order: &[usize],
) -> Result<Units, NoMemory>
    requires ordered { AreOrdered folders.now }
    requires few { length folders.now < 4294967296 }
    requires rows { length slots.items ≡ length folders.now }
    requires readable { AreReadable slots.items }
    requires flags { packages.now ≡ packages_in slots.items }
    requires order { HasOrder module_path.now folders.now slots.items order.now }
    ensures { IfOk result (λ units. AreUnits module_path.now folders.now slots.items units.packages) }
{
    let packages = units_in(alloc, module_path, folders, packages, slots, order)?;
    Ok(Units { packages })
}

/// The units of all packages, or the least package on a cycle. The flags tell which folders hold packages.
pub fn ordered(
    alloc: Global,
    module_path: &[u8],
    folders: &[Folder],
    packages: &[bool],
    slots: Vec<Option<List<PackageFile>>>,
) -> Result<Units, UnitError>
    requires ordered { AreOrdered folders.now }
    requires few { length folders.now < 4294967296 }
    requires rows { length slots.items ≡ length folders.now }
    requires readable { AreReadable slots.items }
    requires flags { packages.now ≡ packages_in slots.items }
    ensures { Orders module_path.now folders.now slots.items result }
{
    let graph = needs(alloc, module_path, folders, packages, &slots)?;
    match canonical_order(alloc, &graph) {
        Err(OrderError::NoMemory) => Err(UnitError::NoMemory),
        Err(OrderError::Cycle(number)) => Err(cycle(folder_at(folders, number))),
        Ok(order) => Ok(units_of(alloc, module_path, folders, packages, slots, order.items())?),
    }
}

/// The units of a module: its packages in canonical order, with those of the standard library that they reach through found
/// imports that they use. The folders are those of the module and of the standard library, by their paths.
///
/// Else the first refusal. The folders of the module are read in the order of their paths, and then always the one with the
/// least path for which a used import asks. In each one the first file that is refused comes first, then `MixedNames` where
/// its files have several package names, and then `InternalUse` at the first place that uses an import which its package may
/// not import. After all of them comes `Cycle`, with the least package that needs itself, directly or through others.
pub fn units<R: FolderReader>(
    alloc: Global,
    reader: &R,
    module_path: &[u8],
    folders: &[Folder],
) -> Result<Units, UnitError>
    requires ordered { AreOrdered folders.now }
    requires few { length folders.now < 4294967296 }
    ensures { Answers module_path.now folders.now (R.gives reader.now) result }
{
    match reached(alloc, reader, module_path, folders) {
        Err(error) => Err(error),
        Ok(slots) => {
            let packages = packages_in(alloc, &slots)?;
            ordered(alloc, module_path, folders, &packages, slots)
        }
    }
}
