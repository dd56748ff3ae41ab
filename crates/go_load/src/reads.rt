//! Reading files and listing folders of a tree.
ghost use Rattle.std.specs.Prelude.{◌≡◌, ◌≤◌, ◌++◌, ◌∷◌, length, IfOk, IfErr};
ghost use Rattle.std.specs.FinMap as map;
ghost use Rattle.go_outside.specs.Faults.{Told};
ghost use Rattle.go_load.specs.Names.{under};
ghost use Rattle.go_load.specs.Loads.{LoadCause};
ghost use Rattle.go_load.specs.inner.Steps.{Reads, Lists, IsRefusal};
ghost use Rattle.go_load.specs.Loads.{IsOfWalk};
ghost use Rattle.go_model.specs.declared.files.tree.TheConstants.{MOST_FILE_BYTES};

use crate::error::LoadError;
use crate::names::{joined, under};
use go_base::list::List;
use go_base::text::Text;
use go_model::files::tree::{LimitName, MOST_FILE_BYTES};
use go_outside::files::{Entry, Files, FilesError};
use std::alloc::Global;

/// A limit that is passed at an entry of a folder.
pub(crate) fn refusal_under(
    alloc: Global,
    limit: LimitName,
    folder: &[u8],
    name: &[u8],
) -> LoadError
    ensures { IsRefusal (LoadError.Limit limit (under folder.now name.now)) result }
{
    match under(alloc, folder, name) {
        Ok(path) => LoadError::Limit(limit, path),
        Err(_) => LoadError::NoMemory,
    }
}

fn missing_under(alloc: Global, folder: &[u8], name: &[u8]) -> LoadError
    ensures { IsRefusal (LoadError.Missing (under folder.now name.now)) result }
{
    match under(alloc, folder, name) {
        Ok(path) => LoadError::Missing(path),
        Err(_) => LoadError::NoMemory,
    }
}

fn missing_folder(alloc: Global, folder: &[u8]) -> LoadError
    ensures { IsRefusal (LoadError.Missing folder.now) result }
{
    match Text::of(alloc, folder) {
        Ok(path) => LoadError::Missing(path),
        Err(_) => LoadError::NoMemory,
    }
}

/// The bytes of a file of a folder, which stands at this path of the store.
pub(crate) fn read<F: Files>(
    alloc: Global,
    files: &mut F,
    at: &[u8],
    folder: &[u8],
    name: &[u8],
) -> Result<Text, LoadError>
    ensures same { F.told files.new ≡ F.told files.old }
    ensures told { Told (F.told files.old) (λ m. Reads (map.get m (at.now ++ 47 ∷ name.now)) (under folder.now name.now) result) }
    ensures cause { LoadCause (F.faults files.old) (F.faults files.new) result }
    ensures limit { IfOk result (λ text. length text ≤ MOST_FILE_BYTES) }
    ensures of_walk { IfErr result IsOfWalk }
{
    let path = match joined(alloc, at, name) {
        Ok(path) => path,
        Err(_) => return Err(LoadError::NoMemory),
    };
    match files.read(alloc, path.bytes(), MOST_FILE_BYTES) {
        Ok(bytes) => Ok(bytes),
        Err(FilesError::Missing) => Err(missing_under(alloc, folder, name)),
        Err(FilesError::TooLarge) => Err(refusal_under(alloc, LimitName::FileBytes, folder, name)),
        Err(FilesError::Failed) => Err(LoadError::ReadFault),
        Err(FilesError::NoMemory) => Err(LoadError::NoMemory),
    }
}

/// The entries of a folder, which stands at this path of the store.
pub(crate) fn list<F: Files>(
    alloc: Global,
    files: &mut F,
    at: &[u8],
    folder: &[u8],
) -> Result<List<Entry>, LoadError>
    ensures same { F.told files.new ≡ F.told files.old }
    ensures told { Told (F.told files.old) (λ m. Lists m at.now folder.now result) }
    ensures cause { LoadCause (F.faults files.old) (F.faults files.new) result }
    ensures of_walk { IfErr result IsOfWalk }
{
    match files.list(alloc, at) {
        Ok(entries) => Ok(entries),
        Err(FilesError::Missing) => Err(missing_folder(alloc, folder)),
        Err(FilesError::NoMemory) => Err(LoadError::NoMemory),
        Err(_) => Err(LoadError::ReadFault),
    }
}
