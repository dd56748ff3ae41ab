//! The walk over the folders of a tree.
ghost use Rattle.std.specs.Prelude.{◌≡◌, ◌≤◌, ◌≢◌, ◌++◌, ◌↔◌, [], ◌∷◌, length, true, false, IsTrue, IfOk, IfErr, OnOk};
ghost use Rattle.go_base.specs.Lists.{Has, Each, Ascending};
ghost use Rattle.go_model.specs.files.Trees.{IsTreeFile, IsFolderPath, most};
ghost use Rattle.go_outside.specs.Faults.{Told};
ghost use Rattle.go_load.specs.Names.{under, go_mod};
ghost use Rattle.go_load.specs.Walk.{event, file_events, count_with, counts_with};
ghost use Rattle.go_load.specs.Loads.{LoadCause, Walks};
ghost use Rattle.go_load.specs.inner.Steps.{Counted, is_wanted, IsNameOf, IsName, IsWalked, IsSubOf, IsSub, Enters, ListsModule, package_of, Takes, TakesAll, IsKept, Visits, ArePlaced, file_entry};
ghost use Rattle.go_load.specs.Loads.{IsOfWalk};
ghost use Rattle.go_base.specs.Growing.{Grows};
ghost use Rattle.go_model.specs.declared.files.tree.TheConstants.{MOST_FILES};

use crate::counts::Counts;
use crate::error::LoadError;
use crate::kind::TreeKind;
use crate::names::{folder_path, is_candidate, is_walked, under};
use crate::reads::{list, read};
use go_base::list::List;
use go_base::memory::NoMemory;
use go_base::text::Text;
use go_model::files::tree::{LimitName, TreeFile};
use go_outside::files::{Entry, EntryKind, Files};
use std::alloc::Global;
use std::collections::BTreeSet;

/// The files that were read so far, and what was counted.
#[derive(Drop)]
struct Taken {
    files: List<TreeFile>,
    counts: Counts,
}

/// Which files of a folder are gathered.
#[derive(Clone, Copy)]
enum Wanted {
    All,
    Candidates,
}

fn is_wanted(wanted: Wanted, name: &[u8]) -> bool
    ensures { result ≡ is_wanted wanted name.now }
{
    match wanted {
        Wanted::All => true,
        Wanted::Candidates => is_candidate(name),
    }
}

fn insert(set: &mut BTreeSet<Text>, text: Text) -> Result<(), NoMemory>
    ensures { OnOk result (Grows (λ x. text ≡ x) set.old.keys set.new.keys) }
{
    set.insert(text)?;
    Ok(())
}

fn add_name(names: &mut BTreeSet<Text>, entry: &Entry, wanted: Wanted) -> Result<(), NoMemory>
    ensures { OnOk result (Grows (IsNameOf wanted entry.now) names.old.keys names.new.keys) }
{
    if entry.kind == EntryKind::File && is_wanted(wanted, entry.name.bytes()) {
        return insert(names, entry.name.copy()?);
    }
    Ok(())
}

/// The names of files among the entries of a folder, each once and in order.
fn file_names(alloc: Global, entries: &[Entry], wanted: Wanted) -> Result<BTreeSet<Text>, NoMemory>
    ensures names { IfOk result (λ names. Grows (IsName wanted entries.now) [] names.keys) }
    ensures ascending { IfOk result (λ names. Ascending names.keys) }
{
    let mut names = BTreeSet::new(alloc);
    for entry in entries {
        add_name(&mut names, entry, wanted)?;
    }
    let _count = names.len();
    Ok(names)
}

fn has_name(names: &BTreeSet<Text>, name: &Text) -> bool
    ensures { IsTrue result ↔ Has names.now.keys name.now }
{
    names.contains(name)
}

/// Whether an entry is a folder that the walk goes into; the names are those of the files beside it.
fn is_child(entry: &Entry, files: &BTreeSet<Text>) -> bool
    ensures { IsTrue result ↔ IsWalked files.now.keys entry.now }
{
    if entry.kind != EntryKind::Folder {
        return false;
    }
    if !is_walked(entry.name.bytes()) {
        return false;
    }
    !has_name(files, &entry.name)
}

fn add_child(
    alloc: Global,
    pending: &mut BTreeSet<Text>,
    folder: &[u8],
    files: &BTreeSet<Text>,
    entry: &Entry,
) -> Result<(), NoMemory>
    ensures { OnOk result (Grows (IsSubOf folder.now files.now.keys entry.now) pending.old.keys pending.new.keys) }
{
    if is_child(entry, files) {
        insert(pending, under(alloc, folder, entry.name.bytes())?)?;
        return Ok(());
    }
    Ok(())
}

fn add_children(
    alloc: Global,
    pending: &mut BTreeSet<Text>,
    folder: &[u8],
    files: &BTreeSet<Text>,
    entries: &[Entry],
) -> Result<(), NoMemory>
    ensures { OnOk result (Grows (IsSub folder.now files.now.keys entries.now) pending.old.keys pending.new.keys) }
{
    for entry in entries {
        add_child(alloc, pending, folder, files, entry)?;
    }
    Ok(())
}

/// Finds the folders in a folder.
fn enter(
    alloc: Global,
    kind: TreeKind,
    folder: &[u8],
    entries: &[Entry],
    pending: &mut BTreeSet<Text>,
) -> Result<(), NoMemory>
    ensures { OnOk result (Grows (Enters kind folder.now entries.now) pending.old.keys pending.new.keys) }
{
    if !kind.is_deep() {
        return Ok(());
    }
    let files = file_names(alloc, entries, Wanted::All)?;
    add_children(alloc, pending, folder, &files, entries)?;
    Ok(())
}

fn is_go_mod(entry: &Entry) -> bool
    ensures yes { result ≡ true → entry.now ≡ file_entry go_mod }
    ensures no { result ≡ false → entry.now ≢ file_entry go_mod }
{
    if entry.kind != EntryKind::File {
        return false;
    }
    entry.name.bytes() == b"go.mod".as_slice()
}

/// Whether these entries of a folder have a file `go.mod`.
pub(crate) fn has_go_mod(entries: &[Entry]) -> bool
    ensures yes { result ≡ true → Has entries.now (file_entry go_mod) }
    ensures no { result ≡ false → Has entries.now (file_entry go_mod) → ⊥ }
{
    for entry in entries {
        if is_go_mod(entry) {
            return true;
        }
    }
    false
}

/// Whether a folder is another module, which a module's walk ignores.
fn is_other_module(kind: TreeKind, folder: &[u8], entries: &[Entry]) -> bool
    ensures yes { result ≡ true → ListsModule kind folder.now entries.now }
    ensures no { result ≡ false → ListsModule kind folder.now entries.now → ⊥ }
{
    if kind != TreeKind::Module {
        return false;
    }
    if folder.is_empty() {
        return false;
    }
    has_go_mod(entries)
}

fn count_folder(
    alloc: Global,
    counts: &mut Counts,
    limit: LimitName,
    folder: &[u8],
) -> Result<(), LoadError>
    ensures counted { Counted (event limit folder.now 1 ∷ []) counts.old counts.new result }
    ensures after { OnOk result (counts.new ≡ counts_with counts.old limit 1) }
    ensures of_walk { IfErr result IsOfWalk }
{
    if counts.add(limit, 1) {
        return Ok(());
    }
    match Text::of(alloc, folder) {
        Ok(path) => Err(LoadError::Limit(limit, path)),
        Err(_) => Err(LoadError::NoMemory),
    }
}

fn count_file(
    alloc: Global,
    counts: &mut Counts,
    limit: LimitName,
    folder: &[u8],
    name: &[u8],
    amount: u64,
) -> Result<(), LoadError>
    ensures counted { Counted (event limit (under folder.now name.now) amount ∷ []) counts.old counts.new result }
    ensures after { OnOk result (counts.new ≡ counts_with counts.old limit amount) }
    ensures within { OnOk result (count_with counts.old limit amount ≤ most limit) }
    ensures of_walk { IfErr result IsOfWalk }
{
    if counts.add(limit, amount) {
        return Ok(());
    }
    match under(alloc, folder, name) {
        Ok(path) => Err(LoadError::Limit(limit, path)),
        Err(_) => Err(LoadError::NoMemory),
    }
}

/// Counts the package of a folder, where it has a candidate.
fn count_package(
    alloc: Global,
    counts: &mut Counts,
    folder: &[u8],
    names: &BTreeSet<Text>,
) -> Result<(), LoadError>
    ensures counted { Counted (package_of folder.now names.now.keys) counts.old counts.new result }
    ensures files { OnOk result (counts.new.files ≡ counts.old.files) }
    ensures of_walk { IfErr result IsOfWalk }
{
    if names.is_empty() {
        return Ok(());
    }
    count_folder(alloc, counts, LimitName::Packages, folder)
}

fn add_file(
    alloc: Global,
    files: &mut List<TreeFile>,
    folder: &[u8],
    name: Text,
    bytes: Text,
) -> Result<(), NoMemory>
    ensures { OnOk result (files.new ≡ files.old ++ (record { folder = folder.now; name = name; bytes = bytes }) ∷ []) }
{
    let folder = Text::of(alloc, folder)?;
    files.push(TreeFile {
        folder,
        name,
        bytes,
    })?;
    Ok(())
}

/// Reads a candidate of a folder, which stands at this path of the store.
fn take_file<F: Files>(
    alloc: Global,
    files: &mut F,
    at: &[u8],
    folder: &[u8],
    name: Text,
    taken: &mut Taken,
) -> Result<(), LoadError>
    ensures same { F.told files.new ≡ F.told files.old }
    ensures told { Told (F.told files.old) (λ m. Takes m at.now folder.now file_events (name ∷ []) taken.old taken.new result) }
    ensures cause { LoadCause (F.faults files.old) (F.faults files.new) result }
    ensures of_walk { IfErr result IsOfWalk }
    ensures kept { OnOk result (IsFolderPath folder.now → IsKept taken.old → IsKept taken.new) }
{
    if let Err(error) = count_file(
        alloc,
        &mut taken.counts,
        LimitName::Files,
        folder,
        name.bytes(),
        1,
    ) {
        return Err(error);
    }
    let bytes = match read(alloc, files, at, folder, name.bytes()) {
        Ok(bytes) => bytes,
        Err(error) => return Err(error),
    };
    let length = bytes.bytes().len() as u64;
    if let Err(error) = count_file(
        alloc,
        &mut taken.counts,
        LimitName::Bytes,
        folder,
        name.bytes(),
        length,
    ) {
        return Err(error);
    }
    match add_file(alloc, &mut taken.files, folder, name, bytes) {
        Ok(()) => Ok(()),
        Err(_) => Err(LoadError::NoMemory),
    }
}

/// Reads the candidates of these names.
fn take_files<F: Files>(
    alloc: Global,
    files: &mut F,
    at: &[u8],
    folder: &[u8],
    names: &mut BTreeSet<Text>,
    taken: &mut Taken,
) -> Result<(), LoadError>
    ensures same { F.told files.new ≡ F.told files.old }
    ensures told { Told (F.told files.old) (λ m. Takes m at.now folder.now file_events names.old.keys taken.old taken.new result) }
    ensures cause { LoadCause (F.faults files.old) (F.faults files.new) result }
    ensures of_walk { IfErr result IsOfWalk }
    ensures kept { OnOk result (IsFolderPath folder.now → IsKept taken.old → IsKept taken.new) }
{
    for _ in 0..u64::MAX {
        match names.pop_first() {
            None => return Ok(()),
            Some(name) => {
                if let Err(error) = take_file(alloc, files, at, folder, name, taken) {
                    return Err(error);
                }
            }
        }
    }
    Err(LoadError::NoMemory)
}

/// Reads the candidates of a folder.
fn take_candidates<F: Files>(
    alloc: Global,
    files: &mut F,
    kind: TreeKind,
    at: &[u8],
    folder: &[u8],
    entries: &[Entry],
    taken: &mut Taken,
) -> Result<(), LoadError>
    ensures same { F.told files.new ≡ F.told files.old }
    ensures told { Told (F.told files.old) (λ m. TakesAll m kind at.now folder.now entries.now taken.old taken.new result) }
    ensures cause { LoadCause (F.faults files.old) (F.faults files.new) result }
    ensures of_walk { IfErr result IsOfWalk }
    ensures kept { OnOk result (IsFolderPath folder.now → IsKept taken.old → IsKept taken.new) }
{
    if !kind.takes_files(folder) {
        return Ok(());
    }
    let mut names = match file_names(alloc, entries, Wanted::Candidates) {
        Ok(names) => names,
        Err(_) => return Err(LoadError::NoMemory),
    };
    if let Err(error) = count_package(alloc, &mut taken.counts, folder, &names) {
        return Err(error);
    }
    take_files(alloc, files, at, folder, &mut names, taken)
}

/// Lists a folder, finds the folders in it and reads its candidates.
fn visit<F: Files>(
    alloc: Global,
    files: &mut F,
    kind: TreeKind,
    root: &[u8],
    folder: &[u8],
    pending: &mut BTreeSet<Text>,
    taken: &mut Taken,
) -> Result<(), LoadError>
    ensures same { F.told files.new ≡ F.told files.old }
    ensures told { Told (F.told files.old) (λ m. Visits m kind root.now folder.now pending.old.keys pending.new.keys taken.old taken.new result) }
    ensures cause { LoadCause (F.faults files.old) (F.faults files.new) result }
    ensures of_walk { IfErr result IsOfWalk }
    ensures kept { OnOk result (IsFolderPath folder.now → IsKept taken.old → IsKept taken.new) }
    ensures placed { OnOk result (IsFolderPath folder.now → ArePlaced pending.old.keys → ArePlaced pending.new.keys) }
{
    if let Err(error) = count_folder(alloc, &mut taken.counts, LimitName::Folders, folder) {
        return Err(error);
    }
    let stored = match folder_path(alloc, root, folder) {
        Ok(stored) => stored,
        Err(_) => return Err(LoadError::NoMemory),
    };
    let at = stored.bytes();
    let listing = match list(alloc, files, at, folder) {
        Ok(listing) => listing,
        Err(error) => return Err(error),
    };
    let entries = listing.items();
    if is_other_module(kind, folder, entries) {
        return Ok(());
    }
    if let Err(_) = enter(alloc, kind, folder, entries, pending) {
        return Err(LoadError::NoMemory);
    }
    take_candidates(alloc, files, kind, at, folder, entries, taken)
}

/// The candidate files of a tree, in the order of the walk.
pub(crate) fn walk<F: Files>(
    alloc: Global,
    files: &mut F,
    kind: TreeKind,
    root: &[u8],
) -> Result<List<TreeFile>, LoadError>
    ensures same { F.told files.new ≡ F.told files.old }
    ensures told { Told (F.told files.old) (λ m. Walks m kind root.now result) }
    ensures cause { LoadCause (F.faults files.old) (F.faults files.new) result }
    ensures of_walk { IfErr result IsOfWalk }
    ensures few { IfOk result (λ files. length files ≤ MOST_FILES) }
    ensures held { IfOk result (Each IsTreeFile) }
{
    let mut pending = BTreeSet::new(alloc);
    let mut taken = Taken {
        files: List::new(alloc),
        counts: Counts::new(),
    };
    if let Err(_) = insert(&mut pending, Text::empty()) {
        return Err(LoadError::NoMemory);
    }
    for _ in 0..u64::MAX {
        match pending.pop_first() {
            None => {
                let Taken {
                    files: found,
                    counts: _,
                } = taken;
                return Ok(found);
            }
            Some(folder) => {
                let path = folder.bytes();
                if let Err(error) = visit(
                    alloc,
                    files,
                    kind,
                    root,
                    path,
                    &mut pending,
                    &mut taken,
                ) {
                    return Err(error);
                }
            }
        }
    }
    Err(LoadError::NoMemory)
}
