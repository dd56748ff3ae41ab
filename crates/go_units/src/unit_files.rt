//! Units that are made from the files of packages.
ghost use Rattle.std.specs.Prelude.{◌≡◌, ◌<◌, ◌++◌, [], length, reverse, IfOk, OnOk};
ghost use Rattle.go_imports.specs.Gives.{Gives};
ghost use Rattle.go_units.specs.Folders.{AreOrdered};
ghost use Rattle.go_units.specs.UnitFacts.{with_import, with_imports, needed_by};
ghost use Rattle.go_units.specs.UnitsOfModules.{IsUsedImport, GivesUse, IsUnitFile, GivesUnitFile};
ghost use Rattle.go_units.specs.inner.UnitMaking.{PackageFilesAreNamed, AreAlike, IsUnitWith};

use crate::folder::{Folder, folder_at, found};
use crate::package_uses::PackageFile;
use crate::unit::{Unit, UnitFile, UsedImport};
use go_base::list::List;
use go_base::memory::NoMemory;
use go_base::text::Text;
use go_imports::used_imports::NamedImport;
use std::alloc::Global;
use std::collections::BTreeSet;

fn used_import(
    module_path: &[u8],
    folders: &[Folder],
    packages: &[bool],
    from_std: bool,
    import: &NamedImport,
) -> Result<UsedImport, NoMemory>
    requires { AreOrdered folders.now }
    ensures { IfOk result (IsUsedImport module_path.now folders.now packages.now from_std import.now) }
{
    let place = found(
        module_path,
        folders,
        packages,
        from_std,
        import.path.bytes(),
    );
    Ok(UsedImport {
        name: import.name.copy()?,
        path: import.path.copy()?,
        found: place.is_some(),
        place: import.place,
    })
}

fn used_imports(
    alloc: Global,
    module_path: &[u8],
    folders: &[Folder],
    packages: &[bool],
    from_std: bool,
    uses: &[NamedImport],
) -> Result<List<UsedImport>, NoMemory>
    requires { AreOrdered folders.now }
    ensures { IfOk result (Gives (GivesUse module_path.now folders.now packages.now from_std) uses.now) }
{
    let mut imports = List::new(alloc);
    for import in uses {
        imports.push(used_import(module_path, folders, packages, from_std, import)?)?;
    }
    Ok(imports)
}

fn unit_file(
    alloc: Global,
    module_path: &[u8],
    folders: &[Folder],
    packages: &[bool],
    from_std: bool,
    file: PackageFile,
) -> Result<UnitFile, NoMemory>
    requires { AreOrdered folders.now }
    ensures { IfOk result (IsUnitFile module_path.now folders.now packages.now from_std file) }
{
    let imports = used_imports(
        alloc,
        module_path,
        folders,
        packages,
        from_std,
        file.uses.items(),
    )?;
    let PackageFile {
        path,
        outline,
        uses: _,
    } = file;
    Ok(UnitFile {
        path,
        outline,
        imports,
    })
}

fn reversed(files: List<PackageFile>) -> Vec<PackageFile>
    ensures { result.items ≡ reverse files }
{
    let mut items = files.into_vec();
    items.reverse();
    items
}

/// The files of a package, each of its imports found or not.
pub fn unit_files(
    alloc: Global,
    module_path: &[u8],
    folders: &[Folder],
    packages: &[bool],
    from_std: bool,
    files: List<PackageFile>,
) -> Result<List<UnitFile>, NoMemory>
    requires { AreOrdered folders.now }
    ensures { IfOk result (Gives (GivesUnitFile module_path.now folders.now packages.now from_std) files) }
{
    let mut left = reversed(files);
    let mut made = List::new(alloc);
    while let Some(file) = left.pop() {
        let file = unit_file(alloc, module_path, folders, packages, from_std, file)?;
        made.push(file)?;
    }
    Ok(made)
}

fn add_needed(needed: &mut BTreeSet<Text>, import: &UsedImport) -> Result<(), NoMemory>
    ensures { OnOk result (needed.new.keys ≡ with_import needed.old.keys import.now) }
{
    if !import.found {
        return Ok(());
    }
    needed.insert(import.path.copy()?)?;
    Ok(())
}

fn add_all_needed(needed: &mut BTreeSet<Text>, imports: &[UsedImport]) -> Result<(), NoMemory>
    ensures { OnOk result (needed.new.keys ≡ with_imports needed.old.keys imports.now) }
{
    for import in imports {
        add_needed(needed, import)?;
    }
    Ok(())
}

fn needed_set(alloc: Global, files: &[UnitFile]) -> Result<BTreeSet<Text>, NoMemory>
    ensures { IfOk result (λ needed. needed.keys ≡ needed_by files.now) }
{
    let mut needed = BTreeSet::new(alloc);
    for file in files {
        add_all_needed(&mut needed, file.imports.items())?;
    }
    Ok(needed)
}

fn listed(alloc: Global, mut set: BTreeSet<Text>) -> Result<List<Text>, NoMemory>
    ensures { IfOk result (λ texts. texts ≡ set.keys) }
{
    let mut texts = List::new(alloc);
    for _ in 0..usize::MAX {
        match set.pop_first() {
            None => return Ok(texts),
            Some(text) => texts.push(text)?,
        }
    }
    Err(NoMemory)
}

/// The paths of the found imports of these files, each once, in the order of bytes.
pub fn needed(alloc: Global, files: &[UnitFile]) -> Result<List<Text>, NoMemory>
    ensures { IfOk result (λ needs. needs ≡ needed_by files.now) }
{
    let set = needed_set(alloc, files)?;
    listed(alloc, set)
}

/// The name of the package that has these files.
pub fn name_of(files: &[PackageFile]) -> Result<Text, NoMemory>
    requires some { 0 < length files.now }
    requires alike { AreAlike files.now }
    ensures { IfOk result (PackageFilesAreNamed files.now) }
{
    files[0].outline.value().package.text.copy()
}

/// The unit of these files, which stand in a folder.
pub(crate) fn unit(
    alloc: Global,
    module_path: &[u8],
    folders: &[Folder],
    packages: &[bool],
    number: usize,
    files: List<PackageFile>,
) -> Result<Unit, NoMemory>
    requires ordered { AreOrdered folders.now }
    requires within { number < length folders.now }
    requires some { 0 < length files }
    requires few { length files < 4294967296 }
    requires alike { AreAlike files }
    ensures { IfOk result (IsUnitWith module_path.now folders.now packages.now number files) }
{
    let folder = folder_at(folders, number);
    let name = name_of(files.items())?;
    let files = unit_files(
        alloc,
        module_path,
        folders,
        packages,
        folder.from_std,
        files,
    )?;
    let needs = needed(alloc, files.items())?;
    Ok(Unit {
        path: folder.path.copy()?,
        name,
        from_std: folder.from_std,
        files,
        needs,
    })
}
