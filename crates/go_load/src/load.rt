//! The loads of trees.
ghost use Rattle.std.specs.Prelude.{◌≡◌, [], IfOk, IfErr};
ghost use Rattle.go_model.specs.files.Trees.{IsTree, IsModulePath};
ghost use Rattle.go_outside.specs.Faults.{Told};
ghost use Rattle.go_load.specs.Loads.{LoadsModule, LoadsFiles, LoadCause};
ghost use Rattle.go_load.specs.inner.Steps.{Parses, FindsModule, ReadsModule};
ghost use Rattle.go_load.specs.Loads.{IsOfWalk};
ghost use Rattle.go_load.specs.declared.kind.TreeKind.TheVariants as kind;

use crate::error::LoadError;
use crate::go_mod::module_of;
use crate::kind::TreeKind;
use crate::reads::{list, read};
use crate::walk::{has_go_mod, walk};
use go_base::text::Text;
use go_model::files::tree::Tree;
use go_outside::files::Files;
use std::alloc::Global;

/// The path of the module that the bytes of a `go.mod` name.
fn parse(alloc: Global, bytes: &[u8]) -> Result<Text, LoadError>
    ensures { Parses bytes.now result }
{
    match module_of(bytes) {
        None => Err(LoadError::BadModule),
        Some(path) => match Text::of(alloc, path) {
            Ok(path) => Ok(path),
            Err(_) => Err(LoadError::NoMemory),
        },
    }
}

/// Whether the root lists a file `go.mod`. A link isn't one, wherever it leads, so that no tree has a
/// read wait for what another program writes.
fn find_module<F: Files>(alloc: Global, files: &mut F, root: &[u8]) -> Result<(), LoadError>
    ensures same { F.told files.new ≡ F.told files.old }
    ensures told { Told (F.told files.old) (λ m. FindsModule m root.now result) }
    ensures cause { LoadCause (F.faults files.old) (F.faults files.new) result }
{
    let listing = match list(alloc, files, root, b"") {
        Ok(listing) => listing,
        Err(error) => return Err(error),
    };
    let entries = listing.items();
    if has_go_mod(entries) {
        return Ok(());
    }
    Err(LoadError::NoModule)
}

fn read_module<F: Files>(alloc: Global, files: &mut F, root: &[u8]) -> Result<Text, LoadError>
    ensures same { F.told files.new ≡ F.told files.old }
    ensures told { Told (F.told files.old) (λ m. ReadsModule m root.now result) }
    ensures cause { LoadCause (F.faults files.old) (F.faults files.new) result }
    ensures module_path { IfOk result IsModulePath }
{
    if let Err(error) = find_module(alloc, files, root) {
        return Err(error);
    }
    match read(alloc, files, root, b"", b"go.mod") {
        Ok(bytes) => parse(alloc, bytes.bytes()),
        Err(error) => Err(error),
    }
}

/// The tree of the module at a root: the path that its `go.mod` names, and its candidate files.
///
/// Where the store tells its files, the answer is the first of these that applies:
/// [`LoadError::Missing`] where no told path lies in the root, with the empty path;
/// [`LoadError::NoModule`] where there is no `go.mod`; [`LoadError::Limit`] where that is too large;
/// [`LoadError::BadModule`] where it doesn't name one module; [`LoadError::Limit`] at the first count
/// of the walk that passes its number; else the tree. In place of it may come
/// [`LoadError::ReadFault`], only where the store failed, and [`LoadError::NoMemory`], at any time.
/// Over a store that tells nothing, a path that it lists and then hasn't is [`LoadError::Missing`].
pub fn load_module<F: Files>(alloc: Global, files: &mut F, root: &[u8]) -> Result<Tree, LoadError>
    ensures same { F.told files.new ≡ F.told files.old }
    ensures told { Told (F.told files.old) (λ m. LoadsModule m root.now result) }
    ensures cause { LoadCause (F.faults files.old) (F.faults files.new) result }
    // These hold over every store, also over one that tells nothing.
    ensures tree { IfOk result IsTree }
    ensures module_path { IfOk result (λ tree. IsModulePath tree.module) }
{
    let path = match read_module(alloc, files, root) {
        Ok(path) => path,
        Err(error) => return Err(error),
    };
    let found = match walk(alloc, files, TreeKind::Module, root) {
        Ok(found) => found,
        Err(error) => return Err(error),
    };
    Ok(Tree {
        module: path,
        files: found,
    })
}

fn load_files<F: Files>(
    alloc: Global,
    files: &mut F,
    kind: TreeKind,
    root: &[u8],
) -> Result<Tree, LoadError>
    ensures same { F.told files.new ≡ F.told files.old }
    ensures told { Told (F.told files.old) (λ m. LoadsFiles m kind root.now result) }
    ensures cause { LoadCause (F.faults files.old) (F.faults files.new) result }
    ensures tree { IfOk result IsTree }
    ensures own { IfErr result IsOfWalk }
    ensures module { IfOk result (λ tree. tree.module ≡ []) }
{
    let found = match walk(alloc, files, kind, root) {
        Ok(found) => found,
        Err(error) => return Err(error),
    };
    Ok(Tree {
        module: Text::empty(),
        files: found,
    })
}

/// The tree at a root that holds packages at their import paths, without a module. The answers are
/// those of [`load_module`], but for what it says of `go.mod`.
pub fn load_std<F: Files>(alloc: Global, files: &mut F, root: &[u8]) -> Result<Tree, LoadError>
    ensures same { F.told files.new ≡ F.told files.old }
    ensures told { Told (F.told files.old) (λ m. LoadsFiles m kind.Std root.now result) }
    ensures cause { LoadCause (F.faults files.old) (F.faults files.new) result }
    // These hold over every store, also over one that tells nothing.
    ensures tree { IfOk result IsTree }
    ensures own { IfErr result IsOfWalk }
    ensures module { IfOk result (λ tree. tree.module ≡ []) }
{
    load_files(alloc, files, TreeKind::Std, root)
}

/// The one folder of a client, without its subfolders. The answers are those of [`load_module`], but
/// for what it says of `go.mod`.
pub fn load_client<F: Files>(alloc: Global, files: &mut F, root: &[u8]) -> Result<Tree, LoadError>
    ensures same { F.told files.new ≡ F.told files.old }
    ensures told { Told (F.told files.old) (λ m. LoadsFiles m kind.Client root.now result) }
    ensures cause { LoadCause (F.faults files.old) (F.faults files.new) result }
    // These hold over every store, also over one that tells nothing.
    ensures tree { IfOk result IsTree }
    ensures own { IfErr result IsOfWalk }
    ensures module { IfOk result (λ tree. tree.module ≡ []) }
{
    load_files(alloc, files, TreeKind::Client, root)
}
