//! Files, each of which is parsed by itself.
ghost use Rattle.std.specs.Prelude.{length};

use crate::asked::{FolderIndex, asked};
use go_base::list::List;
use go_base::memory::NoMemory;
use go_base::steps::Steps;
use go_base::text::Text;
use go_imports::outline::Outline;
use go_load::names::under;
use go_model::files::tree::{MOST_FILE_BYTES, TreeFile};
use go_reading::outlines::outline_in;
use std::alloc::Global;
use work_sharing::jobs::Jobs;

/// What a file gives.
pub(crate) struct ParsedFile {
    /// Its path below the root of its tree.
    pub path: Text,
    /// None where it isn't in the grammar.
    pub outline: Option<Outline>,
    /// The numbers of the folders for which it may ask.
    pub asked: List<usize>,
}

impl Drop for ParsedFile {
    fn drop(self) {
        let ParsedFile {
            path: _,
            outline: _,
            asked: _,
        } = self;
    }
}

impl ParsedFile {
    /// The path and the outline, moved out.
    pub(crate) fn into_parts(self) -> (Text, Option<Outline>) {
        let ParsedFile {
            path,
            outline,
            asked: _,
        } = self;
        (path, outline)
    }
}

/// Files of trees with these folders.
pub(crate) struct Files<'a> {
    pub alloc: Global,
    pub index: &'a FolderIndex<'a>,
    pub files: &'a [&'a TreeFile],
}

impl<'a> Drop for Files<'a> {
    fn drop(self) {
        let Files {
            alloc: _,
            index: _,
            files: _,
        } = self;
    }
}

fn with_asked(
    alloc: Global,
    index: &FolderIndex<'_>,
    path: Text,
    outline: Option<Outline>,
) -> Result<ParsedFile, NoMemory> {
    let asked = match &outline {
        None => List::new(alloc),
        Some(outline) => asked(alloc, index, outline.value())?,
    };
    Ok(ParsedFile {
        path,
        outline,
        asked,
    })
}

fn outline_of(alloc: Global, bytes: &Text) -> Result<Option<Outline>, NoMemory> {
    if bytes.bytes().len() as u64 > MOST_FILE_BYTES {
        return Ok(None);
    }
    outline_in(alloc, bytes)
}

fn parsed(alloc: Global, index: &FolderIndex<'_>, file: &TreeFile) -> Result<ParsedFile, NoMemory> {
    let path = under(alloc, file.folder.bytes(), file.name.bytes())?;
    let outline = outline_of(alloc, &file.bytes)?;
    with_asked(alloc, index, path, outline)
}

impl<'a> Jobs<ParsedFile> for Files<'a> {
    ghost many = { λ files. length files.files.now };

    // Which outline belongs to which bytes each outline says itself, so nothing is asked of them here.
    ghost gives = { λ files number found. Unit {0} };

    fn count(&self) -> usize {
        self.files.len()
    }

    fn run<L: Copy>(
        &self,
        _worker: u32,
        number: usize,
        _steps: &mut Steps<L>,
    ) -> Result<ParsedFile, NoMemory> {
        parsed(self.alloc, self.index, self.files[number])
    }
}
