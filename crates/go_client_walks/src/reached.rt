//! The folders that are read for the packages of a module with a client: its own in the order of their paths, and then always
//! the one with the least path for which a used import asks, or one of the client.
ghost use Rattle.std.specs.Prelude.{◌≡◌, ◌≢◌, ◌<◌, ◌+◌, [], ℕ, false, length, IfOk, IfErr, OnOk};
ghost use Rattle.go_base.specs.Lists.{Has};
ghost use Rattle.go_base.specs.Growing.{Grows};
ghost use Rattle.go_units.specs.Folders.{AreOrdered};
ghost use Rattle.go_units.specs.Reached.{IsRefusedFor};
ghost use Rattle.go_units.specs.inner.Reaching.{FilesAskNew, HasModule, HasModuleTo, Advances};
ghost use Rattle.go_client_walks.specs.ClientWalks.{IsNextFolder, AllAreRead, ModuleAnswers};
ghost use Rattle.go_client_walks.specs.inner.Reaching.{Reaching, ReachCause, OwnCause};

use go_base::list::List;
use go_base::memory::NoMemory;
use go_units::folder::{Folder, folder_at};
use go_units::package_uses::PackageFile;
use go_units::reached::{add_asked_by, add_asked_by_files, empty_slots, put, read_folder};
use go_units::reader::FolderReader;
use go_units::unit_error::UnitError;
use std::alloc::Global;
use std::collections::BTreeSet;

// Reads the folder that is next.
fn advance<R: FolderReader>(
    alloc: Global,
    reader: &R,
    module_path: &[u8],
    folders: &[Folder],
    client: &[PackageFile],
    slots: &mut Vec<Option<List<PackageFile>>>,
    pending: &mut BTreeSet<usize>,
    number: usize,
) -> Result<(), UnitError>
    requires ordered { AreOrdered folders.now }
    requires next { IsNextFolder client.now module_path.now folders.now slots.old.items number }
    requires apart { (m : ℕ) → Has pending.old.keys m → m ≢ number }
    requires reaching { Reaching client.now module_path.now folders.now (R.gives reader.now) slots.old.items pending.old.keys (λ m. m ≡ number) }
    ensures advances { OnOk result (Advances slots.old.items number slots.new.items) }
    ensures reaches { OnOk result (Reaching client.now module_path.now folders.now (R.gives reader.now) slots.new.items pending.new.keys (λ m. ⊥)) }
    ensures cause { IfErr result (IsRefusedFor module_path.now folders.now (R.gives reader.now) number) }
{
    let files = match read_folder(alloc, reader, module_path, folders, number) {
        Err(error) => return Err(error),
        Ok(files) => files,
    };
    put(slots, number, files);
    add_asked_by(module_path, folders, slots, pending, number)?;
    Ok(())
}

// Reads a folder where it is one of the module.
fn read_own<R: FolderReader>(
    alloc: Global,
    reader: &R,
    module_path: &[u8],
    folders: &[Folder],
    client: &[PackageFile],
    slots: &mut Vec<Option<List<PackageFile>>>,
    pending: &mut BTreeSet<usize>,
    number: usize,
) -> Result<(), UnitError>
    requires ordered { AreOrdered folders.now }
    requires within { number < length folders.now }
    requires before { HasModuleTo folders.now slots.old.items number }
    requires reaching { Reaching client.now module_path.now folders.now (R.gives reader.now) slots.old.items pending.old.keys (λ m. ⊥) }
    ensures after { OnOk result (HasModuleTo folders.now slots.new.items (number + 1)) }
    ensures reaches { OnOk result (Reaching client.now module_path.now folders.now (R.gives reader.now) slots.new.items pending.new.keys (λ m. ⊥)) }
    ensures cause { IfErr result (OwnCause client.now module_path.now folders.now (R.gives reader.now)) }
{
    if folder_at(folders, number).from_std {
        return Ok(());
    }
    advance(
        alloc,
        reader,
        module_path,
        folders,
        client,
        slots,
        pending,
        number,
    )
}

fn read_module<R: FolderReader>(
    alloc: Global,
    reader: &R,
    module_path: &[u8],
    folders: &[Folder],
    client: &[PackageFile],
    slots: &mut Vec<Option<List<PackageFile>>>,
    pending: &mut BTreeSet<usize>,
) -> Result<(), UnitError>
    requires ordered { AreOrdered folders.now }
    requires before { HasModuleTo folders.now slots.old.items 0 }
    requires reaching { Reaching client.now module_path.now folders.now (R.gives reader.now) slots.old.items pending.old.keys (λ m. ⊥) }
    ensures module { OnOk result (HasModule folders.now slots.new.items) }
    ensures reaches { OnOk result (Reaching client.now module_path.now folders.now (R.gives reader.now) slots.new.items pending.new.keys (λ m. ⊥)) }
    ensures cause { IfErr result (OwnCause client.now module_path.now folders.now (R.gives reader.now)) }
{
    for number in 0..folders.len() {
        if let Err(error) = read_own(
            alloc,
            reader,
            module_path,
            folders,
            client,
            slots,
            pending,
            number,
        ) {
            return Err(error);
        }
    }
    Ok(())
}

fn read_asked<R: FolderReader>(
    alloc: Global,
    reader: &R,
    module_path: &[u8],
    folders: &[Folder],
    client: &[PackageFile],
    slots: &mut Vec<Option<List<PackageFile>>>,
    pending: &mut BTreeSet<usize>,
) -> Result<(), UnitError>
    requires ordered { AreOrdered folders.now }
    requires module { HasModule folders.now slots.old.items }
    requires reaching { Reaching client.now module_path.now folders.now (R.gives reader.now) slots.old.items pending.old.keys (λ m. ⊥) }
    ensures ok { OnOk result (AllAreRead client.now module_path.now folders.now (R.gives reader.now) slots.new.items) }
    ensures cause { IfErr result (ReachCause client.now module_path.now folders.now (R.gives reader.now)) }
{
    for _ in 0..usize::MAX {
        match pending.pop_first() {
            None => return Ok(()),
            Some(number) => {
                if let Err(error) = advance(
                    alloc,
                    reader,
                    module_path,
                    folders,
                    client,
                    slots,
                    pending,
                    number,
                ) {
                    return Err(error);
                }
            }
        }
    }
    Err(UnitError::NoMemory)
}

// The folders for which the client asks, where none is read.
fn first_asked(
    alloc: Global,
    module_path: &[u8],
    folders: &[Folder],
    client: &[PackageFile],
    slots: &[Option<List<PackageFile>>],
) -> Result<BTreeSet<usize>, NoMemory>
    requires { AreOrdered folders.now }
    ensures { IfOk result (λ pending. Grows (FilesAskNew module_path.now folders.now slots.now false client.now) [] pending.keys) }
{
    let mut pending = BTreeSet::new(alloc);
    add_asked_by_files(module_path, folders, slots, &mut pending, false, client)?;
    Ok(pending)
}

/// Reads the folders of a module alone, or answers the refusal of the first of them that is refused.
pub(crate) fn reached_module<R: FolderReader>(
    alloc: Global,
    reader: &R,
    module_path: &[u8],
    folders: &[Folder],
) -> Result<(), UnitError>
    requires { AreOrdered folders.now }
    ensures { ModuleAnswers module_path.now folders.now (R.gives reader.now) result }
{
    let mut slots = empty_slots(alloc, folders.len())?;
    let mut pending = first_asked(alloc, module_path, folders, &[], &slots)?;
    match read_module(
        alloc,
        reader,
        module_path,
        folders,
        &[],
        &mut slots,
        &mut pending,
    ) {
        Err(error) => Err(error),
        Ok(()) => Ok(()),
    }
}

/// The files of the packages of a module, by the numbers of their folders, and those of the packages in the standard library
/// that they reach, or a client with these files.
///
/// Else the refusal of the first folder that is refused, in the order in which they are read.
pub(crate) fn reached<R: FolderReader>(
    alloc: Global,
    reader: &R,
    module_path: &[u8],
    folders: &[Folder],
    client: &[PackageFile],
) -> Result<Vec<Option<List<PackageFile>>>, UnitError>
    requires { AreOrdered folders.now }
    ensures ok { IfOk result (λ slots. AllAreRead client.now module_path.now folders.now (R.gives reader.now) slots.items) }
    ensures cause { IfErr result (ReachCause client.now module_path.now folders.now (R.gives reader.now)) }
{
    let mut slots = empty_slots(alloc, folders.len())?;
    let mut pending = first_asked(alloc, module_path, folders, client, &slots)?;
    if let Err(error) = read_module(
        alloc,
        reader,
        module_path,
        folders,
        client,
        &mut slots,
        &mut pending,
    ) {
        return Err(error);
    }
    if let Err(error) = read_asked(
        alloc,
        reader,
        module_path,
        folders,
        client,
        &mut slots,
        &mut pending,
    ) {
        return Err(error);
    }
    Ok(slots)
}
