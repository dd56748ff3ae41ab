//! Tells the units of trees, and the features of their packages. It reads lines, of which each begins with a word:
//!
//! ```text
//! new PATH        a file of the module's tree, whose lines follow
//! std PATH        a file of the standard library's tree
//! |TEXT           a line of the last file
//! barred PATH     the path of a module of the run, beside that of the tree
//! units PLATFORM  asks for the units of these files, which are then forgotten
//! features PLATFORM   asks for the features of the public packages, and forgets the files too
//! ```
//!
//! It answers `units` by a line for each unit: its path, its name, its side and the paths that it needs, each behind
//! `needs`. Behind it stand its files, and behind each of them the imports that it uses: the qualifier, the path, whether it is
//! found, and the place. It answers `features` by a line for each feature. Or it answers the first refusal. A line that begins with `#` is printed as it is; any other is
//! `not understood`.
#![tactic(auto)]

mod answer;
mod case;
mod features;
mod lines;
mod question;

use crate::case::Case;
use anyhow::Result;
use std::io;
use std::io::{BufWriter, Write};

fn main(rt: HostRuntime) -> Result<()> {
    let mut out = BufWriter::new(rt.alloc(), io::writer(&rt))?;
    let mut case = Case::new(rt.alloc());
    for line in rt.lines(rt.alloc()) {
        let line = line?;
        let answer = case.take(&rt, rt.alloc(), line.as_str())?;
        out.write_all(answer.as_slice())?;
    }
    out.flush()?;
    Ok(())
}
