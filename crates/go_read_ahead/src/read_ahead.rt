//! Parses files before the packages of trees are read.
ghost use Rattle.std.specs.Prelude.{◌≡◌};
ghost use Rattle.go_base.specs.Lists.{Has};
ghost use Rattle.go_model.specs.files.Trees.{IsTree};

use crate::asked::FolderIndex;
use crate::files::{Files, ParsedFile};
use go_base::list::List;
use go_base::memory::NoMemory;
use go_base::steps::Steps;
use go_base::text::Text;
use go_model::files::platform::Platform;
use go_model::files::tree::{Tree, TreeFile};
use go_reading::folder_list::tree_folders;
use go_reading::heads::{Head, HeadedFile};
use go_reading::known::KnownOutlines;
use go_units::folder::Folder;
use std::alloc::Global;
use std::collections::BTreeSet;
use std::thread::Threads;
use work_sharing::map::dynamic_map;

fn own_numbers(alloc: Global, folders: &[Folder]) -> Result<List<usize>, NoMemory> {
    let mut numbers = List::new(alloc);
    for (number, folder) in folders.iter().enumerate() {
        if !folder.from_std {
            numbers.push(number)?;
        }
    }
    Ok(numbers)
}

fn add_chosen<'a>(
    files: &mut Vec<&'a TreeFile>,
    content: &[HeadedFile<'a>],
) -> Result<(), NoMemory> {
    for file in content {
        if let Head::Chosen(_) = &file.head {
            files.push(file.file)?;
        }
    }
    Ok(())
}

// The chosen files of the folders of these numbers.
fn chosen_files<'a>(
    alloc: Global,
    contents: &[List<HeadedFile<'a>>],
    numbers: &[usize],
) -> Result<Vec<&'a TreeFile>, NoMemory> {
    let mut files = Vec::new(alloc);
    for number in numbers {
        if let Some(content) = contents.get(*number) {
            add_chosen(&mut files, content.items())?;
        }
    }
    Ok(files)
}

fn add_new(
    seen: &mut BTreeSet<usize>,
    next: &mut List<usize>,
    numbers: &[usize],
) -> Result<(), NoMemory> {
    for number in numbers {
        if seen.insert(*number)? {
            next.push(*number)?;
        }
    }
    Ok(())
}

// Knows a file's outline, and adds the folders for which it is the first one to ask.
fn add_parsed(
    known: &mut KnownOutlines,
    seen: &mut BTreeSet<usize>,
    next: &mut List<usize>,
    file: ParsedFile,
) -> Result<(), NoMemory> {
    add_new(seen, next, file.asked.items())?;
    let (path, outline) = file.into_parts();
    match outline {
        None => Ok(()),
        Some(outline) => known.know(path, outline),
    }
}

fn workers_for(workers: u32, files: usize) -> u32 {
    if files < workers as usize {
        files as u32
    } else {
        workers
    }
}

fn parsed_files<R: Threads + Sync, L: Copy + Send>(
    rt: &R,
    alloc: Global,
    workers: u32,
    owner: L,
    index: &FolderIndex<'_>,
    files: &[&TreeFile],
) -> Result<List<ParsedFile>, NoMemory> {
    let files = Files {
        alloc,
        index,
        files,
    };
    let workers = workers_for(workers, files.files.len());
    let mut steps = Steps::new(owner);
    let parsed = dynamic_map(rt, alloc, &files, workers, &mut steps);
    let _count = steps.end();
    parsed
}

// Parses files, and gives the numbers of the folders for which they are the first ones to ask.
fn read_files<R: Threads + Sync, L: Copy + Send>(
    rt: &R,
    alloc: Global,
    workers: u32,
    owner: L,
    index: &FolderIndex<'_>,
    files: &[&TreeFile],
    seen: &mut BTreeSet<usize>,
    known: &mut KnownOutlines,
) -> Result<List<usize>, NoMemory> {
    let parsed = parsed_files(rt, alloc, workers, owner, index, files)?;
    let mut next = List::new(alloc);
    for file in parsed.into_vec() {
        add_parsed(known, seen, &mut next, file)?;
    }
    Ok(next)
}

fn read_folders<R: Threads + Sync, L: Copy + Send>(
    rt: &R,
    alloc: Global,
    workers: u32,
    owner: L,
    folders: &[Folder],
    contents: &[List<HeadedFile<'_>>],
    known: &mut KnownOutlines,
) -> Result<(), NoMemory> {
    let index = FolderIndex::of(alloc, folders)?;
    let mut seen = BTreeSet::new(alloc);
    let mut numbers = own_numbers(alloc, folders)?;
    // Each turn but the last asks for a folder that wasn't asked for before.
    for _ in 0..=folders.len() {
        let files = chosen_files(alloc, contents, numbers.items())?;
        if files.is_empty() {
            return Ok(());
        }
        numbers = read_files(rt, alloc, workers, owner, &index, &files, &mut seen, known)?;
    }
    Ok(())
}

/// Parses the files that the packages of a module's tree on a platform are made of, and those of the standard library's tree that they seem to reach,
/// by so many workers, so that their outlines are known when the packages are read. The folders of the module come first, and then, until none
/// is asked for, those for which the files before ask. A file that isn't in the grammar is left to be refused where it is read. What a counter
/// of this owner counts doesn't rise.
pub fn read_ahead<R: Threads + Sync, L: Copy + Send>(
    rt: &R,
    alloc: Global,
    workers: u32,
    owner: L,
    tree: &Tree,
    std_tree: &Tree,
    barred: &[Text],
    platform: Platform,
    known: &mut KnownOutlines,
) -> Result<(), NoMemory>
    requires tree { IsTree tree.now }
    requires std { IsTree std_tree.now }
    requires barred { Has barred.now tree.now.module }
{
    let found = tree_folders(alloc, platform, barred, tree, std_tree)?;
    read_folders(
        rt,
        alloc,
        workers,
        owner,
        found.folders.items(),
        found.contents.items(),
        known,
    )
}
