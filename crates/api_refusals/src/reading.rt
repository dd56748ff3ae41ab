//! Files of a package that are counted as places in them come, so that each byte is counted once.
ghost use Rattle.std.specs.Prelude.{◌≡◌, [], IfOk, slice_get, take};
ghost use Rattle.api_refusals.specs.Refusals.{files_in};
ghost use Rattle.api_refusals.specs.Roots.{root_by};
ghost use Rattle.api_refusals.specs.inner.Counts.{Counts};
ghost use Rattle.api_refusals.specs.inner.Files.{copied_file};
ghost use Rattle.api_refusals.specs.inner.Readings.{bytes_of, IsReading, place_with};

use crate::places::{Count, bytes_at, count_to, nothing, push_counted};
use crate::refusals::{file_at, files_in};
use crate::root::Root;
use go_base::memory::NoMemory;
use go_model::files::tree::Tree;
use go_syntax::name::Place;
use go_units::unit::{Unit, UnitFile};
use std::alloc::Global;

/// A file of a package, by its number, and what is counted of it.
#[derive(Clone, Copy)]
pub(crate) struct Reading<'a> {
    pub(crate) number: u32,
    pub(crate) bytes: &'a [u8],
    pub(crate) count: Count,
}

fn bytes_of<'a>(tree: &'a Tree, std_tree: &'a Tree, root: Root, file: Option<&UnitFile>) -> &'a [u8]
    ensures { result.now ≡ bytes_of tree.now std_tree.now root (copied_file file.entry) }
{
    match file {
        None => b"",
        Some(file) => bytes_at(files_in(tree, std_tree, &[], root), file.path.bytes()),
    }
}

/// The beginning of a file.
pub(crate) fn open<'a>(tree: &'a Tree, std_tree: &'a Tree, unit: &Unit, number: u32) -> Reading<'a>
    ensures reading { IsReading tree.now std_tree.now unit.now result }
    ensures number { result.number ≡ number }
{
    let bytes = bytes_of(
        tree,
        std_tree,
        Root::by(unit.from_std, unit.path.bytes()),
        file_at(unit.files.items(), number as usize),
    );
    Reading {
        number,
        bytes,
        count: nothing(bytes),
    }
}

// The file of a number: this one, or from its beginning on.
fn turned<'a>(
    tree: &'a Tree,
    std_tree: &'a Tree,
    unit: &Unit,
    reading: Reading<'a>,
    number: u32,
) -> Reading<'a>
    requires reading { IsReading tree.now std_tree.now unit.now reading }
    ensures reading { IsReading tree.now std_tree.now unit.now result }
    ensures number { result.number ≡ number }
{
    if reading.number == number {
        return reading;
    }
    open(tree, std_tree, unit, number)
}

// Counted to an offset.
fn counted<'a>(
    tree: &'a Tree,
    std_tree: &'a Tree,
    unit: &Unit,
    reading: Reading<'a>,
    offset: u32,
) -> Reading<'a>
    requires reading { IsReading tree.now std_tree.now unit.now reading }
    ensures reading { IsReading tree.now std_tree.now unit.now result }
    ensures number { result.number ≡ reading.entry.number }
    ensures at { take result.count.offset result.bytes.now ≡ take offset result.bytes.now }
{
    Reading {
        number: reading.number,
        bytes: reading.bytes,
        count: count_to(reading.bytes, reading.count, offset as usize),
    }
}

/// Counted to a place, in the place's file.
pub(crate) fn at<'a>(
    tree: &'a Tree,
    std_tree: &'a Tree,
    unit: &Unit,
    reading: Reading<'a>,
    place: Place,
) -> Reading<'a>
    requires reading { IsReading tree.now std_tree.now unit.now reading }
    ensures reading { IsReading tree.now std_tree.now unit.now result }
    ensures number { result.number ≡ place.file }
    ensures at { take result.count.offset result.bytes.now ≡ take place.offset result.bytes.now }
{
    let there = turned(tree, std_tree, unit, reading, place.file);
    counted(tree, std_tree, unit, there, place.offset)
}

// `FILE:LINE:COLUMN` of an offset in a file, to which its bytes are counted.
fn place_with(
    alloc: Global,
    bytes: &[u8],
    count: Count,
    root: Root,
    file: Option<&UnitFile>,
    offset: u32,
) -> Result<Vec<u8>, NoMemory>
    requires counts { Counts bytes.now count }
    requires at { take count.offset bytes.now ≡ take offset bytes.now }
    ensures { IfOk result (λ text. text.items ≡ place_with bytes.now root (copied_file file.entry) offset) }
{
    match file {
        None => Ok(Vec::new(alloc)),
        Some(file) => {
            let mut text = root.file_name(alloc, file.path.bytes())?;
            push_counted(&mut text, bytes, offset, count)?;
            Ok(text)
        }
    }
}

/// `FILE:LINE:COLUMN` of a place of a package, to which the bytes of its file are counted.
pub(crate) fn unit_place_with(
    alloc: Global,
    unit: &Unit,
    bytes: &[u8],
    count: Count,
    place: Place,
) -> Result<Vec<u8>, NoMemory>
    requires counts { Counts bytes.now count }
    requires at { take count.offset bytes.now ≡ take place.offset bytes.now }
    ensures { IfOk result (λ text. text.items ≡ place_with bytes.now (root_by unit.now.from_std unit.now.path) (slice_get unit.now.files place.file) place.offset) }
{
    place_with(
        alloc,
        bytes,
        count,
        Root::by(unit.from_std, unit.path.bytes()),
        file_at(unit.files.items(), place.file as usize),
        place.offset,
    )
}
