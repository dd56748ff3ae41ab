//! The archives that a word of the command line names.
use anyhow::bail;
use go_outside::files::{Files, FilesError};
use go_outside::host_files::HostFiles;
use std::rt::Runtime;

/// The most bytes of an archive.
const MOST_BYTES: u64 = 16_777_216;

fn add_archive<R: Runtime + AllocGlobal>(
    rt: &R,
    paths: &mut Vec<String>,
    folder: &str,
    name: &[u8],
) -> anyhow::Result<()> {
    let Ok(name) = str::from_utf8(name) else {
        return Ok(());
    };
    if !name.ends_with(".txtar") {
        return Ok(());
    }
    if folder == "." {
        paths.push(String::from_str(rt.alloc(), name)?)?;
    } else {
        paths.push(format!(in rt.alloc(); "{folder}/{name}")?)?;
    }
    Ok(())
}

/// The path itself, or the archives of the folder at it, in order.
pub fn archives_at<R: Runtime + AllocGlobal>(rt: &R, path: &str) -> anyhow::Result<Vec<String>> {
    let mut paths = Vec::new(rt.alloc());
    match HostFiles::new(rt).list(rt.alloc(), path.as_bytes()) {
        Ok(entries) => {
            for entry in entries.items() {
                add_archive(rt, &mut paths, path, entry.name.bytes())?;
            }
            paths.sort()?;
        }
        Err(FilesError::Missing) => paths.push(String::from_str(rt.alloc(), path)?)?,
        Err(error) => return Err(error.into()),
    }
    Ok(paths)
}

/// The text of an archive.
pub fn archive_at<R: Runtime + AllocGlobal>(rt: &R, path: &str) -> anyhow::Result<String> {
    let text = HostFiles::new(rt).read(rt.alloc(), path.as_bytes(), MOST_BYTES)?;
    match String::from_utf8(Vec::from_slice(rt.alloc(), text.bytes())?) {
        Ok(text) => Ok(text),
        Err(_) => bail!("not UTF-8"),
    }
}
