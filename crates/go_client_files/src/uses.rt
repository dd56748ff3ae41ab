//! The files of a client that make its package, each with all of its imports.
ghost use Rattle.std.specs.Prelude.{◌≡◌, ◌++◌, ◌∷◌, [], reverse, IfOk, OnOk};
ghost use Rattle.go_imports.specs.Gives.{Gives};
ghost use Rattle.go_client_files.specs.ClientFiles.{name_in_file, named_import, GivesNamed, UsesAllIn, GivesClientFile, AreClientFiles};
ghost use Rattle.go_client_files.specs.inner.Making.{AddsFile};
ghost use Rattle.go_units.specs.Folders.{AreOrdered};

use crate::parsed::ParsedFile;
use go_base::list::List;
use go_base::memory::NoMemory;
use go_base::text::Text;
use go_imports::import_paths::assumed_name;
use go_imports::package_files::{SourceFile, imports_c};
use go_imports::used_imports::{Import, NamedImport};
use go_syntax::declaration::File;
use go_syntax::statement::LiteralBlock;
use go_units::folder::Folder;
use go_units::package_uses::{PackageFile, imports_of};
use std::alloc::Global;

/// A file of a client's package, with its blocks.
#[derive(Drop)]
pub struct ClientFile {
    pub file: PackageFile,
    pub blocks: List<LiteralBlock>,
}

/// The files of a client's package, and the blocks of each.
#[derive(Drop)]
pub struct ClientFiles {
    pub files: List<PackageFile>,
    pub blocks: List<List<LiteralBlock>>,
}

fn name_in_file(alloc: Global, import: &Import) -> Result<Text, NoMemory>
    ensures { IfOk result (λ name. name ≡ name_in_file import.now) }
{
    match &import.written {
        Some(name) => name.copy(),
        None => match &import.package_name {
            Some(name) => name.copy(),
            None => Text::of(alloc, assumed_name(import.path.bytes())),
        },
    }
}

fn named_import(alloc: Global, import: &Import) -> Result<NamedImport, NoMemory>
    ensures { IfOk result (λ named. named ≡ named_import import.now) }
{
    Ok(NamedImport {
        name: name_in_file(alloc, import)?,
        path: import.path.copy()?,
        place: import.place,
    })
}

fn named_imports(alloc: Global, imports: &[Import]) -> Result<List<NamedImport>, NoMemory>
    ensures { IfOk result (Gives GivesNamed imports.now) }
{
    let mut uses = List::new(alloc);
    for import in imports {
        uses.push(named_import(alloc, import)?)?;
    }
    Ok(uses)
}

fn uses_in(
    alloc: Global,
    module_path: &[u8],
    folders: &[Folder],
    outline: &File,
) -> Result<List<NamedImport>, NoMemory>
    requires { AreOrdered folders.now }
    ensures { IfOk result (UsesAllIn module_path.now folders.now outline.now) }
{
    let imports = imports_of(alloc, module_path, folders, false, outline.imports.items())?;
    named_imports(alloc, imports.items())
}

fn client_file(
    alloc: Global,
    module_path: &[u8],
    folders: &[Folder],
    parsed: ParsedFile,
) -> Result<Option<ClientFile>, NoMemory>
    requires { AreOrdered folders.now }
    ensures { IfOk result (GivesClientFile module_path.now folders.now parsed) }
{
    if imports_c(parsed.source.outline.value()) {
        return Ok(None);
    }
    let uses = uses_in(alloc, module_path, folders, parsed.source.outline.value())?;
    let ParsedFile { source, blocks } = parsed;
    let SourceFile { path, outline } = source;
    let file = PackageFile {
        path,
        outline,
        uses,
    };
    Ok(Some(ClientFile { file, blocks }))
}

impl ClientFiles {
    fn new(alloc: Global) -> ClientFiles
        ensures files { result.files ≡ [] }
        ensures blocks { result.blocks ≡ [] }
    {
        ClientFiles {
            files: List::new(alloc),
            blocks: List::new(alloc),
        }
    }

    fn push(&mut self, file: ClientFile) -> Result<(), NoMemory>
        ensures files { OnOk result (self.new.files ≡ self.old.files ++ file.file ∷ []) }
        ensures blocks { OnOk result (self.new.blocks ≡ self.old.blocks ++ file.blocks ∷ []) }
    {
        let ClientFile { file, blocks } = file;
        self.files.push(file)?;
        self.blocks.push(blocks)
    }
}

fn add(list: &mut ClientFiles, file: Option<ClientFile>) -> Result<(), NoMemory>
    ensures { OnOk result (AddsFile file list.old list.new) }
{
    match file {
        None => Ok(()),
        Some(file) => list.push(file),
    }
}

fn reversed(parsed: List<ParsedFile>) -> Vec<ParsedFile>
    ensures { result.items ≡ reverse parsed }
{
    let mut items = parsed.into_vec();
    items.reverse();
    items
}

/// The files of a client's package: those that don't import `"C"`, in their order, each with all of its imports.
pub(crate) fn package_files(
    alloc: Global,
    module_path: &[u8],
    folders: &[Folder],
    parsed: List<ParsedFile>,
) -> Result<ClientFiles, NoMemory>
    requires { AreOrdered folders.now }
    ensures { IfOk result (AreClientFiles module_path.now folders.now parsed) }
{
    let mut left = reversed(parsed);
    let mut list = ClientFiles::new(alloc);
    while let Some(file) = left.pop() {
        let made = client_file(alloc, module_path, folders, file)?;
        add(&mut list, made)?;
    }
    Ok(list)
}
