//! The trees of the generator as files of a store.
use anyhow::{bail, ensure};
use api_generator::make::make;
use go_base::list::List;
use go_base::text::Text;
use go_outside::files::Files;
use go_outside::memory_files::{FilePair, MemoryFiles};
use std::alloc::Global;

/// The most bytes of a file that the generator makes.
const MOST_BYTES: u64 = 65_536;

/// The most packages that it makes.
const MOST_PACKAGES: u32 = 2000;

// Adds the file at this path, below the folder.
fn add_file(
    alloc: Global,
    pairs: &mut List<FilePair>,
    store: &mut MemoryFiles,
    folder: &str,
    path: &str,
) -> anyhow::Result<()> {
    let below = if folder == "." {
        String::from_str(alloc, path)?
    } else {
        format!(in alloc; "{folder}/{path}")?
    };
    let pair = FilePair {
        path: Text::of(alloc, below.as_bytes())?,
        bytes: store.read(alloc, path.as_bytes(), MOST_BYTES)?,
    };
    pairs.push(pair)?;
    Ok(())
}

// Adds the files of one tree, below the folder.
fn add_tree(
    alloc: Global,
    pairs: &mut List<FilePair>,
    store: &mut MemoryFiles,
    folder: &str,
    tree: &str,
    size: u32,
) -> anyhow::Result<()> {
    let path = format!(in alloc; "{tree}/go.mod")?;
    add_file(alloc, pairs, store, folder, path.as_str())?;
    for number in 0..size {
        let path = format!(in alloc; "{tree}/p{number}/a.go")?;
        add_file(alloc, pairs, store, folder, path.as_str())?;
    }
    Ok(())
}

// The seed, the size and the folder of a line `SEED SIZE at FOLDER`.
fn read_line(line: &str) -> Option<(u64, u32, &str)> {
    let (numbers, folder) = line.split_once(" at ")?;
    let (seed, size) = numbers.split_once(' ')?;
    let seed = seed.parse::<u64>().ok()?;
    let size = size.parse::<u32>().ok()?;
    Some((seed, size, folder))
}

/// Adds the files of both trees that the generator makes from the seed and the size of a line `SEED SIZE at FOLDER`,
/// below the folder `FOLDER`, or as they are where it is `.`.
pub fn add_made(alloc: Global, pairs: &mut List<FilePair>, line: &str) -> anyhow::Result<()> {
    let Some((seed, size, folder)) = read_line(line) else {
        bail!("no seed, size and folder: {line}");
    };
    let is_made = 1 <= size && size <= MOST_PACKAGES;
    ensure!(is_made, "from 1 to 2000 packages are made: {line}");
    let mut store = make(alloc, seed, size)?;
    for tree in ["old", "new"] {
        add_tree(alloc, pairs, &mut store, folder, tree, size)?;
    }
    Ok(())
}
