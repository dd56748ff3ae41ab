//! The folders that are read for the packages of a module: its own in the order of their paths, and then always the one with
//! the least path for which a used import asks.
ghost use Rattle.std.specs.Prelude.{◌≡◌, ◌≢◌, ◌<◌, ◌+◌, ℕ, length, slice_set, IfOk, IfErr, OnOk};
ghost use Rattle.go_base.specs.Lists.{Has};
ghost use Rattle.go_base.specs.Growing.{Grows};
ghost use Rattle.go_imports.specs.Answers.{Decides};
ghost use Rattle.go_units.specs.Folders.{AreOrdered};
ghost use Rattle.go_units.specs.Reached.{IsFresh, IsNextFolder, AllAreRead, IsRefusedFor};
ghost use Rattle.go_units.specs.inner.Reaching.{PathAsks, UsesAsk, FilesAskNew, AsksNew, HasModule, HasModuleTo, GivesAccepted, Reaching, Advances, ReachCause};

use crate::folder::{Folder, asked, folder_at};
use crate::package_checks::{accepted_files, refused};
use crate::package_uses::PackageFile;
use crate::reader::{FolderReader, Reading};
use crate::unit_error::UnitError;
use go_base::list::List;
use go_base::memory::NoMemory;
use go_imports::used_imports::NamedImport;
use std::alloc::Global;
use std::collections::BTreeSet;

fn is_fresh(slots: &[Option<List<PackageFile>>], number: usize) -> bool
    ensures { Decides result (IsFresh slots.now number) }
{
    match slots.get(number) {
        None => true,
        Some(files) => files.is_none(),
    }
}

fn add_number(pending: &mut BTreeSet<usize>, number: usize) -> Result<(), NoMemory>
    ensures { OnOk result (Grows (λ m. number ≡ m) pending.old.keys pending.new.keys) }
{
    pending.insert(number)?;
    Ok(())
}

fn add_asked(
    module_path: &[u8],
    folders: &[Folder],
    slots: &[Option<List<PackageFile>>],
    pending: &mut BTreeSet<usize>,
    from_std: bool,
    path: &[u8],
) -> Result<(), NoMemory>
    requires { AreOrdered folders.now }
    ensures { OnOk result (Grows (PathAsks module_path.now folders.now slots.now from_std path.now) pending.old.keys pending.new.keys) }
{
    match asked(module_path, folders, from_std, path) {
        None => Ok(()),
        Some(number) => {
            if !is_fresh(slots, number) {
                return Ok(());
            }
            add_number(pending, number)
        }
    }
}

fn add_asked_by_uses(
    module_path: &[u8],
    folders: &[Folder],
    slots: &[Option<List<PackageFile>>],
    pending: &mut BTreeSet<usize>,
    from_std: bool,
    uses: &[NamedImport],
) -> Result<(), NoMemory>
    requires { AreOrdered folders.now }
    ensures { OnOk result (Grows (UsesAsk module_path.now folders.now slots.now from_std uses.now) pending.old.keys pending.new.keys) }
{
    for import in uses {
        let path = import.path.bytes();
        add_asked(module_path, folders, slots, pending, from_std, path)?;
    }
    Ok(())
}

/// Adds the folders for which the imports ask that these files use, where they aren't read.
pub fn add_asked_by_files(
    module_path: &[u8],
    folders: &[Folder],
    slots: &[Option<List<PackageFile>>],
    pending: &mut BTreeSet<usize>,
    from_std: bool,
    files: &[PackageFile],
) -> Result<(), NoMemory>
    requires { AreOrdered folders.now }
    ensures { OnOk result (Grows (FilesAskNew module_path.now folders.now slots.now from_std files.now) pending.old.keys pending.new.keys) }
{
    for file in files {
        let uses = file.uses.items();
        add_asked_by_uses(module_path, folders, slots, pending, from_std, uses)?;
    }
    Ok(())
}

/// Adds the folders for which the imports ask that a package uses.
pub fn add_asked_by(
    module_path: &[u8],
    folders: &[Folder],
    slots: &[Option<List<PackageFile>>],
    pending: &mut BTreeSet<usize>,
    number: usize,
) -> Result<(), NoMemory>
    requires ordered { AreOrdered folders.now }
    requires within { number < length folders.now }
    ensures { OnOk result (Grows (AsksNew module_path.now folders.now slots.now number) pending.old.keys pending.new.keys) }
{
    let from_std = folder_at(folders, number).from_std;
    match slots.get(number) {
        Some(Some(files)) => add_asked_by_files(
            module_path,
            folders,
            slots,
            pending,
            from_std,
            files.items(),
        ),
        _ => Ok(()),
    }
}

/// What the files of a folder give, or the refusal of it.
pub fn read_folder<R: FolderReader>(
    alloc: Global,
    reader: &R,
    module_path: &[u8],
    folders: &[Folder],
    number: usize,
) -> Result<List<PackageFile>, UnitError>
    requires ordered { AreOrdered folders.now }
    requires within { number < length folders.now }
    ensures ok { IfOk result (GivesAccepted module_path.now folders.now (R.gives reader.now) number) }
    ensures cause { IfErr result (IsRefusedFor module_path.now folders.now (R.gives reader.now) number) }
{
    match reader.read(alloc, number)? {
        Reading::Files(sources) => accepted_files(alloc, module_path, folders, number, sources),
        Reading::Refused(file, fault) => { Err(refused(folder_at(folders, number), file, fault)) }
    }
}

/// Notes the files of a folder that was read.
pub fn put(slots: &mut Vec<Option<List<PackageFile>>>, number: usize, files: List<PackageFile>)
    requires { number < length slots.old.items }
    ensures { slots.new.items ≡ slice_set slots.old.items number (Some files) }
{
    slots[number] = Some(files);
}

// Reads the folder that is next.
fn advance<R: FolderReader>(
    alloc: Global,
    reader: &R,
    module_path: &[u8],
    folders: &[Folder],
    slots: &mut Vec<Option<List<PackageFile>>>,
    pending: &mut BTreeSet<usize>,
    number: usize,
) -> Result<(), UnitError>
    requires ordered { AreOrdered folders.now }
    requires next { IsNextFolder module_path.now folders.now slots.old.items number }
    requires apart { (m : ℕ) → Has pending.old.keys m → m ≢ number }
    requires reaching { Reaching module_path.now folders.now (R.gives reader.now) slots.old.items pending.old.keys (λ m. m ≡ number) }
    ensures advances { OnOk result (Advances slots.old.items number slots.new.items) }
    ensures reaches { OnOk result (Reaching module_path.now folders.now (R.gives reader.now) slots.new.items pending.new.keys (λ m. ⊥)) }
    ensures cause { IfErr result (IsRefusedFor module_path.now folders.now (R.gives reader.now) number) }
{
    let files = match read_folder(alloc, reader, module_path, folders, number) {
        Err(error) => return Err(error),
        Ok(files) => files,
    };
    put(slots, number, files);
    add_asked_by(module_path, folders, slots, pending, number)?;
    Ok(())
}

/// A slot for the files of each of so many folders, of which none is read.
pub fn empty_slots(alloc: Global, count: usize) -> Result<Vec<Option<List<PackageFile>>>, NoMemory>
    ensures length { IfOk result (λ slots. length slots.items ≡ count) }
    ensures empty { IfOk result (λ slots. (n : ℕ) → IsFresh slots.items n) }
{
    let mut slots = Vec::new(alloc);
    for _ in 0..count {
        slots.push(None)?;
    }
    Ok(slots)
}

// Reads a folder where it is one of the module.
fn read_own<R: FolderReader>(
    alloc: Global,
    reader: &R,
    module_path: &[u8],
    folders: &[Folder],
    slots: &mut Vec<Option<List<PackageFile>>>,
    pending: &mut BTreeSet<usize>,
    number: usize,
) -> Result<(), UnitError>
    requires ordered { AreOrdered folders.now }
    requires within { number < length folders.now }
    requires before { HasModuleTo folders.now slots.old.items number }
    requires reaching { Reaching module_path.now folders.now (R.gives reader.now) slots.old.items pending.old.keys (λ m. ⊥) }
    ensures after { OnOk result (HasModuleTo folders.now slots.new.items (number + 1)) }
    ensures reaches { OnOk result (Reaching module_path.now folders.now (R.gives reader.now) slots.new.items pending.new.keys (λ m. ⊥)) }
    ensures cause { IfErr result (ReachCause module_path.now folders.now (R.gives reader.now)) }
{
    if folder_at(folders, number).from_std {
        return Ok(());
    }
    advance(alloc, reader, module_path, folders, slots, pending, number)
}

fn read_module<R: FolderReader>(
    alloc: Global,
    reader: &R,
    module_path: &[u8],
    folders: &[Folder],
    slots: &mut Vec<Option<List<PackageFile>>>,
    pending: &mut BTreeSet<usize>,
) -> Result<(), UnitError>
    requires ordered { AreOrdered folders.now }
    requires before { HasModuleTo folders.now slots.old.items 0 }
    requires reaching { Reaching module_path.now folders.now (R.gives reader.now) slots.old.items pending.old.keys (λ m. ⊥) }
    ensures module { OnOk result (HasModule folders.now slots.new.items) }
    ensures reaches { OnOk result (Reaching module_path.now folders.now (R.gives reader.now) slots.new.items pending.new.keys (λ m. ⊥)) }
    ensures cause { IfErr result (ReachCause module_path.now folders.now (R.gives reader.now)) }
{
    for number in 0..folders.len() {
        if let Err(error) = read_own(alloc, reader, module_path, folders, slots, pending, number) {
            return Err(error);
        }
    }
    Ok(())
}

fn read_asked<R: FolderReader>(
    alloc: Global,
    reader: &R,
    module_path: &[u8],
    folders: &[Folder],
    slots: &mut Vec<Option<List<PackageFile>>>,
    pending: &mut BTreeSet<usize>,
) -> Result<(), UnitError>
    requires ordered { AreOrdered folders.now }
    requires module { HasModule folders.now slots.old.items }
    requires reaching { Reaching module_path.now folders.now (R.gives reader.now) slots.old.items pending.old.keys (λ m. ⊥) }
    ensures ok { OnOk result (AllAreRead module_path.now folders.now (R.gives reader.now) slots.new.items) }
    ensures cause { IfErr result (ReachCause module_path.now folders.now (R.gives reader.now)) }
{
    for _ in 0..usize::MAX {
        match pending.pop_first() {
            None => return Ok(()),
            Some(number) => {
                if let Err(error) = advance(
                    alloc,
                    reader,
                    module_path,
                    folders,
                    slots,
                    pending,
                    number,
                ) {
                    return Err(error);
                }
            }
        }
    }
    Err(UnitError::NoMemory)
}

/// The files of the packages of a module, by the numbers of their folders, and those of the packages in the standard library
/// that they reach.
///
/// Else the refusal of the first folder that is refused, in the order in which they are read.
pub(crate) fn reached<R: FolderReader>(
    alloc: Global,
    reader: &R,
    module_path: &[u8],
    folders: &[Folder],
) -> Result<Vec<Option<List<PackageFile>>>, UnitError>
    requires { AreOrdered folders.now }
    ensures ok { IfOk result (λ slots. AllAreRead module_path.now folders.now (R.gives reader.now) slots.items) }
    ensures cause { IfErr result (ReachCause module_path.now folders.now (R.gives reader.now)) }
{
    let mut slots = empty_slots(alloc, folders.len())?;
    let mut pending = BTreeSet::new(alloc);
    if let Err(error) = read_module(
        alloc,
        reader,
        module_path,
        folders,
        &mut slots,
        &mut pending,
    ) {
        return Err(error);
    }
    if let Err(error) = read_asked(
        alloc,
        reader,
        module_path,
        folders,
        &mut slots,
        &mut pending,
    ) {
        return Err(error);
    }
    Ok(slots)
}
