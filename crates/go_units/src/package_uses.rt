//! The files of a folder that make its package, with the imports that they use.
ghost use Rattle.std.specs.Prelude.{◌≡◌, ◌++◌, reverse, IfOk, OnOk};
ghost use Rattle.go_imports.specs.Gives.{Gives, optional};
ghost use Rattle.go_units.specs.Folders.{AreOrdered, IsImportedName};
ghost use Rattle.go_units.specs.PackageUses.{text_of, IsImportOf, GivesImport, UsesIn, GivesFile, ArePackageFiles};

use crate::folder::{Folder, folder_at, named};
use crate::undeclared_uses::undeclared_uses;
use go_base::list::List;
use go_base::memory::NoMemory;
use go_base::text::Text;
use go_imports::go_syntax::declaration::{File, ImportSpec};
use go_imports::go_syntax::name::Name;
use go_imports::outline::Outline;
use go_imports::package_files::{SourceFile, imports_c};
use go_imports::used_imports::{Import, NamedImport, qualifiers, used_imports};
use std::alloc::Global;
use std::collections::BTreeSet;

/// A file of a package, with the imports that it uses.
#[derive(Drop)]
pub struct PackageFile {
    /// Its path below the root of its tree.
    pub path: Text,
    pub outline: Outline,
    pub uses: List<NamedImport>,
}

fn copied(text: &Option<Text>) -> Result<Option<Text>, NoMemory>
    ensures { IfOk result (λ copy. copy ≡ text.now) }
{
    match text {
        None => Ok(None),
        Some(text) => Ok(Some(text.copy()?)),
    }
}

fn written_name(name: &Option<Name>) -> Result<Option<Text>, NoMemory>
    ensures { IfOk result (λ text. text ≡ text_of name.now) }
{
    match name {
        None => Ok(None),
        Some(name) => Ok(Some(name.text.copy()?)),
    }
}

fn imported_name(
    module_path: &[u8],
    folders: &[Folder],
    from_std: bool,
    path: &[u8],
) -> Result<Option<Text>, NoMemory>
    requires { AreOrdered folders.now }
    ensures { IfOk result (IsImportedName module_path.now folders.now from_std path.now) }
{
    match named(module_path, folders, from_std, path) {
        None => Ok(None),
        Some(number) => copied(&folder_at(folders, number).package_name),
    }
}

fn import_of(
    module_path: &[u8],
    folders: &[Folder],
    from_std: bool,
    spec: &ImportSpec,
) -> Result<Import, NoMemory>
    requires { AreOrdered folders.now }
    ensures { IfOk result (IsImportOf module_path.now folders.now from_std spec.now) }
{
    Ok(Import {
        written: written_name(&spec.name)?,
        package_name: imported_name(module_path, folders, from_std, spec.path.bytes())?,
        path: spec.path.copy()?,
        place: spec.place,
    })
}

/// The imports of a file, each with the name in the package clause of what it names, where that is there and says one.
pub fn imports_of(
    alloc: Global,
    module_path: &[u8],
    folders: &[Folder],
    from_std: bool,
    specs: &[ImportSpec],
) -> Result<List<Import>, NoMemory>
    requires { AreOrdered folders.now }
    ensures { IfOk result (Gives (GivesImport module_path.now folders.now from_std) specs.now) }
{
    let mut imports = List::new(alloc);
    for spec in specs {
        imports.push(import_of(module_path, folders, from_std, spec)?)?;
    }
    Ok(imports)
}

fn uses_in(
    alloc: Global,
    module_path: &[u8],
    folders: &[Folder],
    from_std: bool,
    declared: &BTreeSet<Text>,
    outline: &File,
) -> Result<List<NamedImport>, NoMemory>
    requires { AreOrdered folders.now }
    ensures { IfOk result (UsesIn module_path.now folders.now from_std declared.now.keys outline.now) }
{
    let imports = imports_of(
        alloc,
        module_path,
        folders,
        from_std,
        outline.imports.items(),
    )?;
    let names = qualifiers(alloc, declared, outline.decls.items())?;
    used_imports(alloc, imports.items(), &names)
}

fn package_file(
    alloc: Global,
    module_path: &[u8],
    folders: &[Folder],
    from_std: bool,
    declared: &BTreeSet<Text>,
    source: SourceFile,
) -> Result<Option<PackageFile>, NoMemory>
    requires { AreOrdered folders.now }
    ensures { IfOk result (GivesFile module_path.now folders.now from_std declared.now.keys source) }
{
    if imports_c(source.outline.value()) {
        return Ok(None);
    }
    let uses = uses_in(
        alloc,
        module_path,
        folders,
        from_std,
        declared,
        source.outline.value(),
    )?;
    let SourceFile { path, outline } = source;
    Ok(Some(PackageFile {
        path,
        outline,
        uses,
    }))
}

fn add_file(files: &mut List<PackageFile>, file: Option<PackageFile>) -> Result<(), NoMemory>
    ensures { OnOk result (files.new ≡ files.old ++ optional file) }
{
    match file {
        None => Ok(()),
        Some(file) => files.push(file),
    }
}

fn reversed(sources: List<SourceFile>) -> Vec<SourceFile>
    ensures { result.items ≡ reverse sources }
{
    let mut items = sources.into_vec();
    items.reverse();
    items
}

fn files_with(
    alloc: Global,
    module_path: &[u8],
    folders: &[Folder],
    from_std: bool,
    declared: &BTreeSet<Text>,
    sources: List<SourceFile>,
) -> Result<List<PackageFile>, NoMemory>
    requires { AreOrdered folders.now }
    ensures { IfOk result (Gives (GivesFile module_path.now folders.now from_std declared.now.keys) sources) }
{
    let mut left = reversed(sources);
    let mut files = List::new(alloc);
    while let Some(source) = left.pop() {
        let file = package_file(alloc, module_path, folders, from_std, declared, source)?;
        add_file(&mut files, file)?;
    }
    Ok(files)
}

/// The files of the package to which these belong: those that don't import `"C"`, in their order, each with the imports that
/// it uses.
pub(crate) fn package_files(
    alloc: Global,
    module_path: &[u8],
    folders: &[Folder],
    from_std: bool,
    sources: List<SourceFile>,
) -> Result<List<PackageFile>, NoMemory>
    requires { AreOrdered folders.now }
    ensures { IfOk result (ArePackageFiles module_path.now folders.now from_std sources) }
{
    let none = BTreeSet::new(alloc);
    let files = files_with(alloc, module_path, folders, from_std, &none, sources)?;
    undeclared_uses(alloc, files)
}
