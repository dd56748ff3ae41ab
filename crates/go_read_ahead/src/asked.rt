//! The folders of the standard library for which a file may ask.
use go_base::list::List;
use go_base::memory::NoMemory;
use go_base::text::Text;
use go_imports::import_paths::assumed_name;
use go_imports::used_imports::qualifiers;
use go_syntax::declaration::{File, ImportSpec};
use go_units::folder::Folder;
use std::alloc::Global;
use std::collections::{BTreeMap, BTreeSet};

/// Folders, and their numbers by their paths.
#[derive(Drop)]
pub(crate) struct FolderIndex<'a> {
    pub folders: &'a [Folder],
    numbers: BTreeMap<Text, usize>,
}

impl<'a> FolderIndex<'a> {
    pub(crate) fn of(alloc: Global, folders: &'a [Folder]) -> Result<FolderIndex<'a>, NoMemory> {
        let mut numbers = BTreeMap::new(alloc);
        for (number, folder) in folders.iter().enumerate() {
            numbers.insert(folder.path.copy()?, number)?;
        }
        Ok(FolderIndex { folders, numbers })
    }
}

// The name that an import of a folder has in its file.
fn name_of(alloc: Global, folder: &Folder, import: &ImportSpec) -> Result<Text, NoMemory> {
    if let Some(name) = &import.name {
        return name.text.copy();
    }
    if let Some(name) = &folder.package_name {
        return name.copy();
    }
    Text::of(alloc, assumed_name(import.path.bytes()))
}

// Whether a file asks for a folder, where its declarations have these qualifiers.
fn asks_for(
    alloc: Global,
    folder: &Folder,
    qualifiers: &BTreeSet<Text>,
    import: &ImportSpec,
) -> Result<bool, NoMemory> {
    if !folder.from_std {
        return Ok(false);
    }
    let name = name_of(alloc, folder, import)?;
    Ok(qualifiers.contains(&name))
}

fn add_asked(
    alloc: Global,
    index: &FolderIndex<'_>,
    qualifiers: &BTreeSet<Text>,
    import: &ImportSpec,
    asked: &mut List<usize>,
) -> Result<(), NoMemory> {
    let Some(number) = index.numbers.get(&import.path).copied() else {
        return Ok(());
    };
    let Some(folder) = index.folders.get(number) else {
        return Ok(());
    };
    if asks_for(alloc, folder, qualifiers, import)? {
        asked.push(number)?;
    }
    Ok(())
}

/// The numbers of the folders of the standard library that a file of this outline may use. A name that its package declares counts as a qualifier
/// too, so it may be one more than are read in the end.
pub(crate) fn asked(
    alloc: Global,
    index: &FolderIndex<'_>,
    outline: &File,
) -> Result<List<usize>, NoMemory> {
    let none = BTreeSet::new(alloc);
    let qualifiers = qualifiers(alloc, &none, outline.decls.items())?;
    let mut asked = List::new(alloc);
    for import in outline.imports.items() {
        add_asked(alloc, index, &qualifiers, import, &mut asked)?;
    }
    Ok(asked)
}
