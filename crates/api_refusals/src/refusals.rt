//! The fault lines of what is refused on a platform.
ghost use Rattle.std.specs.Prelude.{◌≡◌, ◌++◌, IfOk, slice_get};
ghost use Rattle.api_refusals.specs.PackageFaults.{refusal_of};
ghost use Rattle.api_refusals.specs.Refusals.{cause_text, file_place, file_text, files_in, place_in, place_of, refusal_line, refused_text, unit_place, unit_text};
ghost use Rattle.api_refusals.specs.Roots.{file_name};
ghost use Rattle.api_refusals.specs.inner.Files.{copied_file};

use crate::places::{bytes_at, push_place};
use crate::root::Root;
use api_texts::lines::{Side, fault_line};
use go_base::memory::NoMemory;
use go_base::text::Text;
use go_model::files::platform::Platform;
use go_model::files::tree::{Tree, TreeFile};
use go_syntax::name::Place;
use go_units::reader::FileFault;
use go_units::unit::{Unit, UnitFile};
use go_units::unit_error::UnitError;
use std::alloc::Global;

/// Why a package is refused, and where in its files.
#[derive(Clone, Copy, Debug, PartialEq, Eq)]
pub enum PackageFault {
    /// A name that was declared before.
    Redeclared(Place),
    /// A used import that isn't found.
    MissingImport(Place),
    /// A declaration that has no typing.
    Unsound(Place),
}

pub(crate) fn files_in<'a>(
    tree: &'a Tree,
    std_tree: &'a Tree,
    client: &'a [TreeFile],
    root: Root,
) -> &'a [TreeFile]
    ensures { result.now ≡ files_in tree.now std_tree.now client.now root }
{
    match root {
        Root::Module => tree.files.items(),
        Root::Std => std_tree.files.items(),
        Root::Client => client,
    }
}

// The name of a file, and then why it is refused.
fn named(alloc: Global, root: Root, path: &[u8], what: &[u8]) -> Result<Text, NoMemory>
    ensures { IfOk result (λ text. text ≡ file_name root path.now ++ what.now) }
{
    let mut text = root.file_name(alloc, path)?;
    text.extend_from_slice(what)?;
    Text::from_vec(alloc, text)
}

// A place in a file.
fn place_in(
    alloc: Global,
    tree: &Tree,
    std_tree: &Tree,
    client: &[TreeFile],
    root: Root,
    path: &[u8],
    offset: u32,
) -> Result<Vec<u8>, NoMemory>
    ensures { IfOk result (λ text. text.items ≡ place_in tree.now std_tree.now client.now root path.now offset) }
{
    let files = files_in(tree, std_tree, client, root);
    let bytes = bytes_at(files, path);
    let mut text = root.file_name(alloc, path)?;
    push_place(&mut text, bytes, offset)?;
    Ok(text)
}

// A place in a file, and then what is wrong there.
fn placed(
    alloc: Global,
    tree: &Tree,
    std_tree: &Tree,
    client: &[TreeFile],
    root: Root,
    path: &[u8],
    offset: u32,
    what: &[u8],
) -> Result<Text, NoMemory>
    ensures { IfOk result (λ text. text ≡ place_in tree.now std_tree.now client.now root path.now offset ++ what.now) }
{
    let mut text = place_in(alloc, tree, std_tree, client, root, path, offset)?;
    text.extend_from_slice(what)?;
    Text::from_vec(alloc, text)
}

fn file_text(
    alloc: Global,
    tree: &Tree,
    std_tree: &Tree,
    client: &[TreeFile],
    root: Root,
    path: &[u8],
    fault: FileFault,
) -> Result<Text, NoMemory>
    ensures { IfOk result (λ text. text ≡ file_text tree.now std_tree.now client.now root path.now fault) }
{
    match fault {
        FileFault::BadExpression => { named(alloc, root, path, b": go:build line not understood") }
        FileFault::Twice => named(alloc, root, path, b": two go:build lines"),
        FileFault::PlusBuild => named(alloc, root, path, b": +build without go:build"),
        FileFault::BadToken(offset) => placed(
            alloc,
            tree,
            std_tree,
            client,
            root,
            path,
            offset,
            b": not a token",
        ),
        FileFault::Syntax => named(alloc, root, path, b": not in the grammar of this profile"),
    }
}

fn joined(alloc: Global, path: &[u8], what: &[u8]) -> Result<Text, NoMemory>
    ensures { IfOk result (λ text. text ≡ path.now ++ what.now) }
{
    let mut text = Vec::from_slice(alloc, path)?;
    text.extend_from_slice(what)?;
    Text::from_vec(alloc, text)
}

fn unit_text(
    alloc: Global,
    tree: &Tree,
    std_tree: &Tree,
    client: &[TreeFile],
    error: &UnitError,
) -> Result<Text, NoMemory>
    ensures { IfOk result (λ text. text ≡ unit_text tree.now std_tree.now client.now error.now) }
{
    match error {
        UnitError::File(at, fault) => {
            let root = Root::of(tree.module.bytes(), at.path.bytes());
            file_text(alloc, tree, std_tree, client, root, at.file.bytes(), *fault)
        }
        UnitError::MixedNames(path) => joined(alloc, path.bytes(), b": two package names"),
        UnitError::InternalUse(at, offset) => {
            let root = Root::of(tree.module.bytes(), at.path.bytes());
            placed(
                alloc,
                tree,
                std_tree,
                client,
                root,
                at.file.bytes(),
                *offset,
                b": internal package",
            )
        }
        UnitError::Cycle(path) => joined(alloc, path.bytes(), b": import cycle"),
        UnitError::NoMemory => Text::of(alloc, b"out of memory"),
    }
}

fn refusal_line(
    alloc: Global,
    side: Side,
    platform: Platform,
    text: &[u8],
) -> Result<Text, NoMemory>
    ensures { IfOk result (λ line. line ≡ refusal_line side platform text.now) }
{
    let mut subject = Vec::from_slice(alloc, side.name())?;
    subject.extend_from_slice(b" ")?;
    subject.extend_from_slice(platform.name())?;
    fault_line(alloc, &subject, text)
}

/// The fault line of the packages of two trees that are refused on a platform: those of a module's tree over the standard
/// library's. Want of memory has a line of its own.
pub fn unit_line(
    alloc: Global,
    side: Side,
    platform: Platform,
    tree: &Tree,
    std_tree: &Tree,
    client: &[TreeFile],
    error: &UnitError,
) -> Result<Text, NoMemory>
    ensures { IfOk result (λ line. line ≡ refusal_line side platform (unit_text tree.now std_tree.now client.now error.now)) }
{
    let text = unit_text(alloc, tree, std_tree, client, error)?;
    refusal_line(alloc, side, platform, text.bytes())
}

fn file_place(
    alloc: Global,
    tree: &Tree,
    std_tree: &Tree,
    client: &[TreeFile],
    root: Root,
    file: Option<&UnitFile>,
    offset: u32,
) -> Result<Vec<u8>, NoMemory>
    ensures { IfOk result (λ text. text.items ≡ file_place tree.now std_tree.now client.now root (copied_file file.entry) offset) }
{
    match file {
        None => Ok(Vec::new(alloc)),
        Some(file) => place_in(
            alloc,
            tree,
            std_tree,
            client,
            root,
            file.path.bytes(),
            offset,
        ),
    }
}

pub(crate) fn file_at(files: &[UnitFile], number: usize) -> Option<&UnitFile>
    ensures { copied_file result ≡ slice_get files.now number }
{
    files.get(number)
}

fn unit_place(
    alloc: Global,
    tree: &Tree,
    std_tree: &Tree,
    client: &[TreeFile],
    unit: &Unit,
    place: Place,
) -> Result<Vec<u8>, NoMemory>
    ensures { IfOk result (λ text. text.items ≡ unit_place tree.now std_tree.now client.now unit.now place) }
{
    file_place(
        alloc,
        tree,
        std_tree,
        client,
        Root::by(unit.from_std, unit.path.bytes()),
        file_at(unit.files.items(), place.file as usize),
        place.offset,
    )
}

fn cause_text(fault: PackageFault) -> &'static [u8]
    ensures { result.now ≡ cause_text (refusal_of fault) }
{
    match fault {
        PackageFault::Redeclared(_) => b": declared twice",
        PackageFault::MissingImport(_) => b": import not found",
        PackageFault::Unsound(_) => b": declaration has no typing",
    }
}

fn place_of(fault: PackageFault) -> Place
    ensures { result ≡ place_of (refusal_of fault) }
{
    match fault {
        PackageFault::Redeclared(place) => place,
        PackageFault::MissingImport(place) => place,
        PackageFault::Unsound(place) => place,
    }
}

/// The fault line of a package of two trees that is refused on a platform.
pub fn package_line(
    alloc: Global,
    side: Side,
    platform: Platform,
    tree: &Tree,
    std_tree: &Tree,
    client: &[TreeFile],
    unit: &Unit,
    fault: PackageFault,
) -> Result<Text, NoMemory>
    ensures { IfOk result (λ line. line ≡ refusal_line side platform (refused_text tree.now std_tree.now client.now unit.now (refusal_of fault))) }
{
    let mut text = unit_place(alloc, tree, std_tree, client, unit, place_of(fault))?;
    text.extend_from_slice(cause_text(fault))?;
    refusal_line(alloc, side, platform, &text)
}
