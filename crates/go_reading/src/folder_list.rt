//! The folders of trees that may hold packages, by their paths, and the files of each.
ghost use Rattle.std.specs.Prelude.{◌≡◌, ◌<◌, ◌++◌, ◌∷◌, [], length, IfOk, OnOk};
ghost use Rattle.go_base.specs.Lists.{Has};
ghost use Rattle.go_model.specs.files.Trees.{IsTree};
ghost use Rattle.go_reading.specs.TreeFolders.{AreTreeFolders};
ghost use Rattle.go_reading.specs.inner.Gathering.{AreGathered};
ghost use Rattle.go_reading.specs.inner.Listing.{IsSide, counts, GivesFolder, AddsFolder, AreListed, AreContents};

use crate::files_by_name::files_by_name;
use crate::gathering::gather;
use crate::groups::Groups;
use crate::heads::{HeadedFile, has_chosen, headed_files, package_name};
use go_base::list::List;
use go_base::memory::NoMemory;
use go_base::text::Text;
use go_imports::import_paths::is_under;
use go_model::files::platform::Platform;
use go_model::files::tree::{Tree, TreeFile};
use go_tags::laws::one_header;
use go_units::folder::Folder;
use std::alloc::Global;
use std::collections::BTreeMap;

/// A folder of a tree, with its files.
#[derive(Drop)]
pub(crate) struct FolderFiles<'a> {
    pub(crate) folder: Folder,
    pub(crate) files: List<HeadedFile<'a>>,
}

/// The folders of trees, and the files of each.
#[derive(Drop)]
pub struct TreeFolders<'a> {
    pub folders: List<Folder>,
    pub contents: List<List<HeadedFile<'a>>>,
}

impl<'a> TreeFolders<'a> {
    fn new(alloc: Global) -> TreeFolders<'a>
        ensures folders { result.folders ≡ [] }
        ensures contents { result.contents ≡ [] }
    {
        TreeFolders {
            folders: List::new(alloc),
            contents: List::new(alloc),
        }
    }

    fn push(&mut self, folder: FolderFiles<'a>) -> Result<(), NoMemory>
        ensures folders { OnOk result (self.new.folders ≡ self.old.folders ++ folder.entry.folder ∷ []) }
        ensures contents { OnOk result (self.new.contents ≡ self.old.contents ++ folder.entry.files ∷ []) }
    {
        let FolderFiles { folder, files } = folder;
        self.folders.push(folder)?;
        self.contents.push(files)
    }
}

// Whether a folder counts: it is one of the module, or its files say a package, or none of them is chosen.
fn counts(from_std: bool, package_name: &Option<Text>, files: &[HeadedFile<'_>]) -> bool
    ensures { result ≡ counts from_std package_name.now files.now }
{
    match from_std {
        false => true,
        true => match package_name {
            Some(_) => true,
            None => !has_chosen(files),
        },
    }
}

fn is_std(module_path: &[u8], path: &[u8]) -> bool
    ensures { IsSide module_path.now path.now result }
{
    match is_under(path, module_path) {
        true => false,
        false => true,
    }
}

// The folder of files that were gathered under a path.
fn folder_files<'a>(
    alloc: Global,
    platform: Platform,
    module_path: &[u8],
    path: Text,
    files: &[&'a TreeFile],
) -> Result<Option<FolderFiles<'a>>, NoMemory>
    ensures { IfOk result (GivesFolder platform module_path.now (path, files.now)) }
{
    one_header();
    let from_std = is_std(module_path, path.bytes());
    let files = files_by_name(alloc, files)?;
    let files = headed_files(alloc, platform, &files)?;
    let package_name = package_name(files.items())?;
    if !counts(from_std, &package_name, files.items()) {
        return Ok(None);
    }
    let folder = Folder {
        path,
        from_std,
        package_name,
    };
    Ok(Some(FolderFiles { folder, files }))
}

fn add<'a>(list: &mut TreeFolders<'a>, folder: Option<FolderFiles<'a>>) -> Result<(), NoMemory>
    ensures { OnOk result (AddsFolder folder.entry list.old.folders list.old.contents list.new.folders list.new.contents) }
{
    match folder {
        None => Ok(()),
        Some(folder) => list.push(folder),
    }
}

fn listed<'a>(
    alloc: Global,
    platform: Platform,
    module_path: &[u8],
    mut groups: Groups<'a>,
) -> Result<TreeFolders<'a>, NoMemory>
    ensures { IfOk result (λ list. AreListed platform module_path.now groups.entry.entries list.folders list.contents) }
{
    let mut list = TreeFolders::new(alloc);
    while let Some((path, files)) = groups.pop_first() {
        let folder = folder_files(alloc, platform, module_path, path, files.items())?;
        add(&mut list, folder)?;
    }
    Ok(list)
}

fn gathered<'a>(
    alloc: Global,
    barred: &[Text],
    tree: &'a Tree,
    std_tree: &'a Tree,
) -> Result<Groups<'a>, NoMemory>
    ensures { IfOk result (AreGathered barred.now tree.now std_tree.now) }
{
    let path = tree.module.bytes();
    let mut groups = BTreeMap::new(alloc);
    gather(alloc, &mut groups, path, barred, false, tree.files.items())?;
    gather(
        alloc,
        &mut groups,
        path,
        barred,
        true,
        std_tree.files.items(),
    )?;
    let _count = groups.len();
    Ok(groups)
}

/// The folders of a module's tree and of the standard library's that may hold packages on a platform, and their files.
pub fn tree_folders<'a>(
    alloc: Global,
    platform: Platform,
    barred: &[Text],
    tree: &'a Tree,
    std_tree: &'a Tree,
) -> Result<TreeFolders<'a>, NoMemory>
    requires tree { IsTree tree.now }
    requires std { IsTree std_tree.now }
    requires barred { Has barred.now tree.now.module }
    ensures folders { IfOk result (λ list. AreTreeFolders platform barred.now tree.now std_tree.now list.folders) }
    ensures contents { IfOk result (λ list. AreContents platform barred.now tree.now std_tree.now list.folders list.contents) }
    ensures few { IfOk result (λ list. length list.folders < 4294967296) }
{
    one_header();
    let groups = gathered(alloc, barred, tree, std_tree)?;
    listed(alloc, platform, tree.module.bytes(), groups)
}
