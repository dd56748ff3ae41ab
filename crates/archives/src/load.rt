//! Loads of trees, which no mode of the gate asks for alone. A tree is told as its module and its
//! files, one in each line.
use crate::ending::{Ending, ending_of};
use crate::failing::Outside;
use anyhow::bail;
use go_load::error::LoadError;
use go_load::load::{load_client, load_module, load_std};
use go_model::files::tree::{LimitName, Tree};
use go_outside::sink::Sink;
use std::alloc::{AllocError, Global};

fn name_of(limit: LimitName) -> &'static str {
    match limit {
        LimitName::FileBytes => "limit file-bytes ",
        LimitName::Files => "limit files ",
        LimitName::Bytes => "limit bytes ",
        LimitName::Packages => "limit packages ",
        LimitName::Folders => "limit folders ",
    }
}

fn add_line(text: &mut Vec<u8>, front: &[u8], rest: &[u8]) -> Result<(), AllocError> {
    text.extend_from_slice(front)?;
    text.extend_from_slice(rest)?;
    text.extend_from_slice(b"\n")
}

fn tree_lines(alloc: Global, tree: &Tree) -> Result<Vec<u8>, AllocError> {
    let mut text = Vec::new(alloc);
    if !tree.module.bytes().is_empty() {
        add_line(&mut text, b"module ", tree.module.bytes())?;
    }
    for file in tree.files.items() {
        text.extend_from_slice(file.folder.bytes())?;
        add_line(&mut text, b"/", file.name.bytes())?;
    }
    Ok(text)
}

fn error_line(alloc: Global, error: &LoadError) -> Result<Vec<u8>, AllocError> {
    let mut text = Vec::new(alloc);
    match error {
        LoadError::Missing(path) => add_line(&mut text, b"missing ", path.bytes())?,
        LoadError::NoModule => add_line(&mut text, b"no module", b"")?,
        LoadError::BadModule => add_line(&mut text, b"bad module", b"")?,
        LoadError::Limit(limit, path) => {
            add_line(&mut text, name_of(*limit).as_bytes(), path.bytes())?
        }
        LoadError::ReadFault => add_line(&mut text, b"apigate: read fault", b"")?,
        LoadError::NoMemory => add_line(&mut text, b"out of memory", b"")?,
    }
    Ok(text)
}

fn status_of(error: &LoadError) -> u8 {
    match error {
        LoadError::ReadFault => 4,
        LoadError::NoMemory => 6,
        _ => 3,
    }
}

// Writes what a load gave: the tree to the output, unless it has no line, and the refusal to the
// error output.
fn write(
    alloc: Global,
    outside: &mut Outside,
    loaded: &Result<Tree, LoadError>,
) -> anyhow::Result<u8> {
    match loaded {
        Ok(tree) => {
            let lines = tree_lines(alloc, tree)?;
            if !lines.is_empty() {
                outside.output.write(&lines)?;
            }
            Ok(0)
        }
        Err(error) => {
            outside.error.write(&error_line(alloc, error)?)?;
            Ok(status_of(error))
        }
    }
}

/// Loads the tree that a line asks for: `module ROOT`, `std ROOT` or `client ROOT`.
pub fn run_load(alloc: Global, line: &str, outside: &mut Outside) -> anyhow::Result<Ending> {
    let Some((kind, root)) = line.split_once(' ') else {
        bail!("no load: {line}");
    };
    let root = root.as_bytes();
    let loaded = match kind {
        "module" => load_module(alloc, &mut outside.files, root),
        "std" => load_std(alloc, &mut outside.files, root),
        "client" => load_client(alloc, &mut outside.files, root),
        _ => bail!("no load: {line}"),
    };
    let status = write(alloc, outside, &loaded)?;
    Ok(ending_of(alloc, outside, status, 0)?)
}
