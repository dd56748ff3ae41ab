//! The units of a module with a client: its packages with those of the standard library that they reach, or the client, in canonical order.
ghost use Rattle.std.specs.Prelude.{◌≡◌, ◌<◌, length};
ghost use Rattle.go_units.specs.Folders.{AreOrdered};
ghost use Rattle.go_client_walks.specs.ClientWalks.{Answers, ModuleAnswers};
ghost use Rattle.go_client_walks.specs.inner.Reaching.{Finishes};
ghost use Rattle.go_units.specs.inner.UnitOrder.{AreReadable};

use crate::reached::{reached, reached_module};
use go_base::list::List;
use go_units::folder::Folder;
use go_units::package_uses::PackageFile;
use go_units::reader::FolderReader;
use go_units::unit::UnitFile;
use go_units::unit_error::UnitError;
use go_units::unit_files::unit_files;
use go_units::unit_graph::packages_in;
use go_units::unit_list::Units;
use go_units::units::ordered;
use std::alloc::Global;

/// The packages that a module and a client of it reach, and the files of the client.
#[derive(Drop)]
pub struct WalkedClient {
    pub units: Units,
    /// The files of the client, each of its imports found or not.
    pub files: List<UnitFile>,
}

// The units with the files of the client.
fn finished(
    alloc: Global,
    module_path: &[u8],
    folders: &[Folder],
    slots: Vec<Option<List<PackageFile>>>,
    client: List<PackageFile>,
) -> Result<WalkedClient, UnitError>
    requires ordered { AreOrdered folders.now }
    requires few { length folders.now < 4294967296 }
    requires rows { length slots.items ≡ length folders.now }
    requires readable { AreReadable slots.items }
    ensures { Finishes client module_path.now folders.now slots.items result }
{
    let packages = packages_in(alloc, &slots)?;
    match ordered(alloc, module_path, folders, &packages, slots) {
        Err(error) => Err(error),
        Ok(units) => {
            let files = unit_files(alloc, module_path, folders, &packages, false, client)?;
            Ok(WalkedClient { units, files })
        }
    }
}

/// Reads the folders of a module alone, in the order of their paths, for a client that is refused: the refusal of the first of
/// them that is refused comes before that of the client.
pub fn module_walk<R: FolderReader>(
    alloc: Global,
    reader: &R,
    module_path: &[u8],
    folders: &[Folder],
) -> Result<(), UnitError>
    requires { AreOrdered folders.now }
    ensures { ModuleAnswers module_path.now folders.now (R.gives reader.now) result }
{
    reached_module(alloc, reader, module_path, folders)
}

/// The units of a module with a client that has these files: the packages of the module in canonical order, with those of the
/// standard library that they reach through found imports that they use, or the client.
///
/// Else the first refusal. The folders of the module are read in the order of their paths, and then always the one with the
/// least path for which a used import asks, or one of the client.
pub fn client_walk<R: FolderReader>(
    alloc: Global,
    reader: &R,
    module_path: &[u8],
    folders: &[Folder],
    client: List<PackageFile>,
) -> Result<WalkedClient, UnitError>
    requires ordered { AreOrdered folders.now }
    requires few { length folders.now < 4294967296 }
    ensures { Answers client module_path.now folders.now (R.gives reader.now) result }
{
    match reached(alloc, reader, module_path, folders, client.items()) {
        Err(error) => Err(error),
        Ok(slots) => finished(alloc, module_path, folders, slots, client),
    }
}
