//! What is refused of a package once its files are read: several names, and imports of internal packages.
ghost use Rattle.std.specs.Prelude.{◌≡◌, ◌<◌, length, IfOk, IfErr, OnOk};
ghost use Rattle.go_units.specs.Folders.{AreOrdered};
ghost use Rattle.go_units.specs.PackageUses.{AreFree};
ghost use Rattle.go_units.specs.Reached.{AreAccepted, AreRefused};
ghost use Rattle.go_units.specs.inner.Refusals.{IsMixed, IsRefused, IsInternal, InternalCause};

use crate::folder::{Folder, folder_at};
use crate::package_uses::{PackageFile, package_files};
use crate::reader::FileFault;
use crate::unit_error::{FileAt, UnitError};
use go_base::list::List;
use go_base::text::Text;
use go_imports::package_files::{SourceFile, are_of_one_package};
use go_imports::used_imports::first_internal;
use std::alloc::Global;

/// The refusal of a folder whose files have several package names.
pub fn mixed_names(folder: &Folder) -> UnitError
    ensures { IsMixed folder.now result }
{
    match folder.path.copy() {
        Err(_) => UnitError::NoMemory,
        Ok(path) => UnitError::MixedNames(path),
    }
}

/// The refusal of a file.
pub fn refused(folder: &Folder, file: Text, fault: FileFault) -> UnitError
    ensures { IsRefused folder.now file fault result }
{
    match folder.path.copy() {
        Err(_) => UnitError::NoMemory,
        Ok(path) => UnitError::File(FileAt { path, file }, fault),
    }
}

fn internal_in(folder: &Folder, file: Text, place: u32) -> UnitError
    ensures { IsInternal folder.now file place result }
{
    match folder.path.copy() {
        Err(_) => UnitError::NoMemory,
        Ok(path) => UnitError::InternalUse(FileAt { path, file }, place),
    }
}

fn internal(alloc: Global, folder: &Folder, file: &[u8], place: u32) -> UnitError
    ensures { IsInternal folder.now file.now place result }
{
    match Text::of(alloc, file) {
        Err(_) => UnitError::NoMemory,
        Ok(file) => internal_in(folder, file, place),
    }
}

/// Whether no file of the package in a folder uses an import that this may not import; else the refusal at the first one.
pub fn check_free(alloc: Global, folder: &Folder, files: &[PackageFile]) -> Result<(), UnitError>
    ensures ok { OnOk result (AreFree folder.now.path folder.now.from_std files.now) }
    ensures cause { IfErr result (InternalCause folder.now files.now) }
{
    for file in files {
        match first_internal(folder.path.bytes(), folder.from_std, file.uses.items()) {
            None => {}
            Some(place) => return Err(internal(alloc, folder, file.path.bytes(), place)),
        }
    }
    Ok(())
}

/// The files of the package in a folder.
///
/// `MixedNames` comes exactly where the package clauses of these files have several names, and `InternalUse` where they have
/// one and a file uses an import that the package may not import, with the first such place.
pub fn accepted_files(
    alloc: Global,
    module_path: &[u8],
    folders: &[Folder],
    number: usize,
    sources: List<SourceFile>,
) -> Result<List<PackageFile>, UnitError>
    requires ordered { AreOrdered folders.now }
    requires within { number < length folders.now }
    ensures ok { IfOk result (AreAccepted module_path.now folders.now number sources) }
    ensures cause { IfErr result (AreRefused module_path.now folders.now number sources) }
{
    let folder = folder_at(folders, number);
    if !are_of_one_package(sources.items()) {
        return Err(mixed_names(folder));
    }
    let files = package_files(alloc, module_path, folders, folder.from_std, sources)?;
    if let Err(error) = check_free(alloc, folder, files.items()) {
        return Err(error);
    }
    Ok(files)
}
