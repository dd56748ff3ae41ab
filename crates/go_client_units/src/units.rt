//! The units of a module with a client.
ghost use Rattle.std.specs.Prelude.{◌≡◌, ◌<◌, false, length, IfOk};
ghost use Rattle.go_base.specs.Lists.{Has};
ghost use Rattle.go_client_files.specs.declared.uses.ClientFiles.{ClientFiles};
ghost use Rattle.go_client_units.specs.ClientUnits.{AreClientUnits, IsClientOf};
ghost use Rattle.go_client_units.specs.inner.Walks.{AreWalked, IsNamedAlike, Refuses};
ghost use Rattle.go_model.specs.files.Trees.{IsTree};
ghost use Rattle.go_model.specs.types.Terms.{client_path};
ghost use Rattle.go_syntax.specs.declared.statement.LiteralBlock.{LiteralBlock};
ghost use Rattle.go_units.specs.Folders.{AreOrdered};
ghost use Rattle.go_units.specs.UnitFacts.{UnitFilesAreNamed};
ghost use Rattle.go_units.specs.inner.UnitMaking.{AreAlike};

use go_base::list::List;
use go_base::memory::NoMemory;
use go_base::text::Text;
use go_client_files::client::read_client;
use go_client_files::go_reading::folder_list::{TreeFolders, tree_folders};
use go_client_files::go_reading::known::KnownOutlines;
use go_client_files::go_reading::reader::TreeReader;
use go_client_files::uses::ClientFiles;
use go_client_walks::units::{WalkedClient, client_walk, module_walk};
use go_model::files::platform::Platform;
use go_model::files::tree::Tree;
use go_syntax::statement::LiteralBlock;
use go_units::folder::Folder;
use go_units::reader::FolderReader;
use go_units::unit::{Unit, UnitFile};
use go_units::unit_error::UnitError;
use go_units::unit_files::needed;
use go_units::unit_list::Units;
use std::alloc::Global;

/// A client's package, with the blocks of the functions and function literals of each of its files.
pub struct ClientUnit {
    pub unit: Unit,
    pub blocks: List<List<LiteralBlock>>,
}

impl Drop for ClientUnit {
    fn drop(self) {
        let ClientUnit { unit: _, blocks: _ } = self;
    }
}

/// The packages that a module and a client reach, in canonical order, and the client, where a file of it remains.
#[derive(Drop)]
pub struct ClientUnits {
    pub packages: Units,
    pub client: Option<ClientUnit>,
}

// The name in the package clause of the first of these files.
fn name_of(files: &[UnitFile]) -> Result<Text, NoMemory>
    requires some { 0 < length files.now }
    requires alike { IsNamedAlike files.now }
    ensures { IfOk result (UnitFilesAreNamed files.now) }
{
    files[0].outline.value().package.text.copy()
}

// The unit of a client with these files.
fn unit_of(alloc: Global, files: List<UnitFile>) -> Result<Unit, NoMemory>
    requires some { 0 < length files }
    requires few { length files < 4294967296 }
    requires alike { IsNamedAlike files }
    ensures path { IfOk result (λ u. u.path ≡ client_path) }
    ensures side { IfOk result (λ u. u.from_std ≡ false) }
    ensures held { IfOk result (λ u. u.files ≡ files) }
{
    let name = name_of(files.items())?;
    let needs = needed(alloc, files.items())?;
    Ok(Unit {
        path: Text::of(alloc, b"-client".as_slice())?,
        name,
        from_std: false,
        files,
        needs,
    })
}

// The client with these files, where there are some.
fn client_of(
    alloc: Global,
    files: List<UnitFile>,
    blocks: List<List<LiteralBlock>>,
) -> Result<Option<ClientUnit>, NoMemory>
    requires few { length files < 4294967296 }
    requires alike { IsNamedAlike files }
    ensures { IfOk result (IsClientOf files blocks) }
{
    if files.items().is_empty() {
        return Ok(None);
    }
    let unit = unit_of(alloc, files)?;
    Ok(Some(ClientUnit { unit, blocks }))
}

// What a module and a client with these files reach.
fn walked<R: FolderReader>(
    alloc: Global,
    reader: &R,
    module_path: &[u8],
    folders: &[Folder],
    list: ClientFiles,
) -> Result<ClientUnits, UnitError>
    requires ordered { AreOrdered folders.now }
    requires few { length folders.now < 4294967296 }
    requires few_files { length list.files < 4294967296 }
    requires alike { AreAlike list.files }
    ensures { AreWalked module_path.now folders.now (R.gives reader.now) list result }
{
    let ClientFiles { files, blocks } = list;
    match client_walk(alloc, reader, module_path, folders, files) {
        Err(error) => Err(error),
        Ok(WalkedClient { units, files }) => {
            let client = client_of(alloc, files, blocks)?;
            Ok(ClientUnits {
                packages: units,
                client,
            })
        }
    }
}

// The refusal of the module before that of a client.
fn refused<R: FolderReader>(
    alloc: Global,
    reader: &R,
    module_path: &[u8],
    folders: &[Folder],
    error: UnitError,
) -> UnitError
    requires { AreOrdered folders.now }
    ensures { Refuses module_path.now folders.now (R.gives reader.now) error result }
{
    match module_walk(alloc, reader, module_path, folders) {
        Err(own) => own,
        Ok(()) => error,
    }
}

/// The units of a module's tree with a client on a platform: the packages of the module in canonical order, with those of the
/// standard library's tree that they reach through found imports that they use, or the client; and the client's own unit, where a
/// file of it remains. The client's path is `-client`, and it uses all of its imports. The barred paths are the paths of modules,
/// that of this tree among them. A file of these packages whose outline is known isn't parsed again; those of the client always are.
///
/// Else the first refusal. The folders of the module are read in the order of their paths, then the client, and then always the
/// folder of the standard library with the least path for which a used import asks.
pub fn client_units(
    alloc: Global,
    tree: &Tree,
    std_tree: &Tree,
    client: &Tree,
    barred: &[Text],
    platform: Platform,
    known: &KnownOutlines,
) -> Result<ClientUnits, UnitError>
    requires tree { IsTree tree.now }
    requires std { IsTree std_tree.now }
    requires client { IsTree client.now }
    requires barred { Has barred.now tree.now.module }
    ensures { AreClientUnits platform barred.now tree.now std_tree.now client.now result }
{
    match tree_folders(alloc, platform, barred, tree, std_tree) {
        Err(_) => Err(UnitError::NoMemory),
        Ok(TreeFolders { folders, contents }) => {
            let reader = TreeReader { contents, known };
            let path = tree.module.bytes();
            let listed = folders.items();
            match read_client(alloc, platform, path, listed, client) {
                Err(UnitError::NoMemory) => Err(UnitError::NoMemory),
                Err(error) => Err(refused(alloc, &reader, path, listed, error)),
                Ok(list) => walked(alloc, &reader, path, listed, list),
            }
        }
    }
}
