//! The files of a client on a platform.
ghost use Rattle.std.specs.Prelude.{◌≡◌, ◌∷◌, ◌++◌, [], true, false, bytes_eq, IfOk, IfErr, OnOk};
ghost use Rattle.go_base.specs.Lists.{Has};
ghost use Rattle.go_client_files.specs.ClientFiles.{AreOfOne, ReadsClient, root_files};
ghost use Rattle.go_client_files.specs.inner.Making.{CheckCause, IsAccepted, IsClientFolder, IsNamedAs};
ghost use Rattle.go_client_files.specs.declared.parsed.ParsedFile.{ParsedFile};
ghost use Rattle.go_imports.specs.Answers.{Decides};
ghost use Rattle.go_model.specs.declared.files.tree.TreeFile.{TreeFile};
ghost use Rattle.go_model.specs.files.Trees.{IsTree};
ghost use Rattle.go_reading.specs.inner.Groups.{lent};
ghost use Rattle.go_units.specs.Folders.{AreOrdered};

use crate::parsed::ParsedFile;
use crate::reading::{ClientReading, read_files};
use crate::uses::{ClientFiles, package_files};
use go_base::list::List;
use go_base::memory::NoMemory;
use go_base::text::Text;
use go_model::files::platform::Platform;
use go_model::files::tree::{Tree, TreeFile};
use go_reading::files_by_name::files_by_name;
use go_reading::heads::headed_files;
use go_units::folder::Folder;
use go_units::package_checks::{check_free, mixed_names, refused};
use go_units::unit_error::UnitError;
use std::alloc::Global;

fn is_in_root(file: &TreeFile) -> bool
    ensures { result ≡ bytes_eq file.now.folder [] }
{
    file.folder.bytes() == b"".as_slice()
}

fn add_root<'a>(found: &mut Vec<&'a TreeFile>, file: &'a TreeFile) -> Result<(), NoMemory>
    ensures { OnOk result (lent found.new.items ≡ lent found.old.items ++ root_files (file.now ∷ [])) }
{
    if !is_in_root(file) {
        return Ok(());
    }
    found.push(file)?;
    Ok(())
}

// The files in the root of a tree.
fn root_files<'a>(alloc: Global, files: &'a [TreeFile]) -> Result<Vec<&'a TreeFile>, NoMemory>
    ensures { IfOk result (λ found. lent found.items ≡ root_files files.now) }
{
    let mut found = Vec::new(alloc);
    for file in files {
        add_root(&mut found, file)?;
    }
    Ok(found)
}

fn is_named_as(file: &ParsedFile, name: &[u8]) -> bool
    ensures { Decides result (IsNamedAs name.now file.now) }
{
    file.source.outline.value().package.text.bytes() == name
}

fn are_named_as(files: &[ParsedFile], name: &[u8]) -> bool
    ensures yes { result ≡ true → (s : ParsedFile) → Has files.now s → IsNamedAs name.now s }
    ensures no { result ≡ false → (s : ParsedFile) × Has files.now s × (IsNamedAs name.now s → ⊥) }
{
    for file in files {
        if !is_named_as(file, name) {
            return false;
        }
    }
    true
}

fn are_of_one(files: &[ParsedFile]) -> bool
    ensures { Decides result (AreOfOne files.now) }
{
    if files.is_empty() {
        return true;
    }
    are_named_as(files, files[0].source.outline.value().package.text.bytes())
}

fn client_folder(alloc: Global) -> Result<Folder, NoMemory>
    ensures { IfOk result IsClientFolder }
{
    Ok(Folder {
        path: Text::of(alloc, b"-client".as_slice())?,
        from_std: false,
        package_name: None,
    })
}

// The files of the package to which these belong, or why they are refused once they are read.
fn accepted(
    alloc: Global,
    module_path: &[u8],
    folders: &[Folder],
    client: &Folder,
    parsed: List<ParsedFile>,
) -> Result<ClientFiles, UnitError>
    requires ordered { AreOrdered folders.now }
    requires folder { IsClientFolder client.now }
    ensures ok { IfOk result (IsAccepted module_path.now folders.now parsed) }
    ensures cause { IfErr result (CheckCause module_path.now folders.now parsed) }
{
    if !are_of_one(parsed.items()) {
        return Err(mixed_names(client));
    }
    let list = package_files(alloc, module_path, folders, parsed)?;
    match check_free(alloc, client, list.files.items()) {
        Err(error) => Err(error),
        Ok(()) => Ok(list),
    }
}

/// The files of a client of a module on a platform: those in the root of its tree that the platform chooses and that don't import
/// `"C"`, by their names, each with the blocks of its functions and with all of its imports. The folders are those of the module
/// and of the standard library.
///
/// Else the first refusal: of the first file that is refused, for its header, a place without a token, or its grammar, bodies and
/// all; then `MixedNames`, where its files have several package names; then `InternalUse` at the first import of an internal
/// package.
pub fn read_client(
    alloc: Global,
    platform: Platform,
    module_path: &[u8],
    folders: &[Folder],
    client: &Tree,
) -> Result<ClientFiles, UnitError>
    requires ordered { AreOrdered folders.now }
    requires tree { IsTree client.now }
    ensures { ReadsClient module_path.now folders.now platform client.now result }
{
    let found = root_files(alloc, client.files.items())?;
    let files = files_by_name(alloc, &found)?;
    let headed = headed_files(alloc, platform, &files)?;
    let own = client_folder(alloc)?;
    match read_files(alloc, headed.items())? {
        ClientReading::Refused(file, fault) => Err(refused(&own, file, fault)),
        ClientReading::Files(parsed) => accepted(alloc, module_path, folders, &own, parsed),
    }
}
