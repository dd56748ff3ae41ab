//! The generator.
ghost use Rattle.std.specs.Prelude.{◌≡◌, ◌≤◌, ◌<◌, ◌++◌, ◌∷◌, [], codes, decimal, IfOk, OnOk};
ghost use Rattle.api_generator.specs.MadeTrees.{file_at, made_contents, made_files, module_file, new_file, old_file};

use crate::lines::{new_file, old_file, push_number};
use go_base::list::List;
use go_base::memory::NoMemory;
use go_base::text::Text;
use go_outside::memory_files::{FilePair, MemoryFiles, MemoryFilesError};
use std::alloc::Global;

fn file_path(alloc: Global, root: &[u8], number: u64) -> Result<Text, NoMemory>
    ensures { IfOk result (λ path. path ≡ root.now ++ codes "/p" ++ decimal number ++ codes "/a.go") }
{
    let mut path = Vec::from_slice(alloc, root)?;
    path.extend_from_slice(b"/p")?;
    push_number(&mut path, number)?;
    path.extend_from_slice(b"/a.go")?;
    Text::from_vec(alloc, path)
}

fn file_at(alloc: Global, root: &[u8], number: u64, bytes: Text) -> Result<FilePair, NoMemory>
    ensures { IfOk result (λ file. file ≡ file_at root.now number bytes) }
{
    Ok(FilePair {
        path: file_path(alloc, root, number)?,
        bytes,
    })
}

fn module_file(alloc: Global, root: &[u8]) -> Result<FilePair, NoMemory>
    ensures { IfOk result (λ file. file ≡ module_file root.now) }
{
    let mut path = Vec::from_slice(alloc, root)?;
    path.extend_from_slice(b"/go.mod")?;
    Ok(FilePair {
        path: Text::from_vec(alloc, path)?,
        bytes: Text::of(alloc, b"module g\n")?,
    })
}

// Adds the two files of a package.
fn add_package(
    alloc: Global,
    files: &mut List<FilePair>,
    seed: u64,
    number: u64,
) -> Result<(), NoMemory>
    requires { number < 2000 }
    ensures { OnOk result (files.new ≡ files.old ++ file_at (codes "old") number (old_file seed number) ∷ file_at (codes "new") number (new_file seed number) ∷ []) }
{
    files.push(file_at(alloc, b"old", number, old_file(alloc, seed, number)?)?)?;
    files.push(file_at(alloc, b"new", number, new_file(alloc, seed, number)?)?)?;
    Ok(())
}

// The files of the modules, and no package yet.
fn module_files(alloc: Global) -> Result<List<FilePair>, NoMemory>
    ensures { IfOk result (λ files. files ≡ module_file (codes "old") ∷ module_file (codes "new") ∷ []) }
{
    let mut files = List::new(alloc);
    files.push(module_file(alloc, b"old")?)?;
    files.push(module_file(alloc, b"new")?)?;
    Ok(files)
}

fn made_files(alloc: Global, seed: u64, size: u32) -> Result<List<FilePair>, NoMemory>
    requires { size ≤ 2000 }
    ensures { IfOk result (λ files. files ≡ made_files seed size) }
{
    let mut files = module_files(alloc)?;
    let mut left = u64::from(size);
    while left > 0 {
        left -= 1;
        add_package(alloc, &mut files, seed, left)?;
    }
    Ok(files)
}

/// An old and a new tree of a module `g`, under `old/` and `new/`: `size` packages each, of which every one but the first
/// imports an earlier one, drawn from `seed`. In the new tree about each fourth package has a function more, each fourth an
/// unexported variable more, and each fourth a method less. `NoMemory` may come at any time.
pub fn make(alloc: Global, seed: u64, size: u32) -> Result<MemoryFiles, NoMemory>
    requires some { 1 ≤ size }
    requires few { size ≤ 2000 }
    ensures { IfOk result (λ store. store ≡ made_contents seed size) }
{
    let files = made_files(alloc, seed, size)?;
    match MemoryFiles::new(alloc, files) {
        Ok(store) => Ok(store),
        Err(MemoryFilesError::NoMemory) => Err(NoMemory),
        Err(MemoryFilesError::Clash(_)) => unreachable!(),
    }
}
