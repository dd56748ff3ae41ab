//! The used imports of a package's files whose names the files don't declare.
ghost use Rattle.std.specs.Prelude.{◌≡◌, [], map, IfOk, OnOk};
ghost use Rattle.go_base.specs.Lists.{Has};
ghost use Rattle.go_base.specs.Growing.{Grows};
ghost use Rattle.go_units.specs.UndeclaredUses.{AreUndeclared, IsDeclaredOf, IsUseName, IsUseNameOf, undeclared_of};

use crate::package_uses::PackageFile;
use go_base::list::List;
use go_base::memory::NoMemory;
use go_base::text::Text;
use go_imports::used_imports::{NamedImport, add_declared, undeclared};
use std::alloc::Global;
use std::collections::BTreeSet;

fn add_use_names(names: &mut BTreeSet<Text>, uses: &[NamedImport]) -> Result<(), NoMemory>
    ensures { OnOk result (Grows (IsUseName uses.now) names.old.keys names.new.keys) }
{
    for import in uses {
        names.insert(import.name.copy()?)?;
    }
    Ok(())
}

fn use_names(alloc: Global, files: &[PackageFile]) -> Result<BTreeSet<Text>, NoMemory>
    ensures { IfOk result (λ names. Grows (IsUseNameOf files.now) [] names.keys) }
{
    let mut names = BTreeSet::new(alloc);
    for file in files {
        add_use_names(&mut names, file.uses.items())?;
    }
    Ok(names)
}

fn declared_among(
    alloc: Global,
    asked: &BTreeSet<Text>,
    files: &[PackageFile],
) -> Result<BTreeSet<Text>, NoMemory>
    ensures { IfOk result (λ declared. Grows (λ x. IsDeclaredOf files.now x × Has asked.now.keys x) [] declared.keys) }
{
    let mut declared = BTreeSet::new(alloc);
    for file in files {
        add_declared(&mut declared, asked, file.outline.value().decls.items())?;
    }
    Ok(declared)
}

fn undeclared_of(
    alloc: Global,
    declared: &BTreeSet<Text>,
    file: &PackageFile,
) -> Result<PackageFile, NoMemory>
    ensures { IfOk result (λ kept. kept ≡ undeclared_of declared.now.keys file.now) }
{
    Ok(PackageFile {
        path: file.path.copy()?,
        outline: file.outline.share()?,
        uses: undeclared(alloc, declared, file.uses.items())?,
    })
}

fn all_undeclared(
    alloc: Global,
    declared: &BTreeSet<Text>,
    files: &[PackageFile],
) -> Result<List<PackageFile>, NoMemory>
    ensures { IfOk result (λ kept. kept ≡ map (undeclared_of declared.now.keys) files.now) }
{
    let mut kept = List::new(alloc);
    for file in files {
        kept.push(undeclared_of(alloc, declared, file)?)?;
    }
    Ok(kept)
}

/// The files, each without the used imports whose names the files declare. Of the declared names only those are gathered
/// that name used imports.
pub fn undeclared_uses(
    alloc: Global,
    files: List<PackageFile>,
) -> Result<List<PackageFile>, NoMemory>
    ensures { IfOk result (AreUndeclared files) }
{
    let asked = use_names(alloc, files.items())?;
    if asked.is_empty() {
        return Ok(files);
    }
    let declared = declared_among(alloc, &asked, files.items())?;
    if declared.is_empty() {
        return Ok(files);
    }
    all_undeclared(alloc, &declared, files.items())
}
