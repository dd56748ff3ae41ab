//! The outlines that are known before the packages of trees are read.
ghost use Rattle.go_base.specs.Lists.{Has};
ghost use Rattle.go_model.specs.files.Trees.{IsTree};

use crate::trees::PlatformTrees;
use go_base::memory::NoMemory;
use go_read_ahead::read_ahead::read_ahead;
use go_reading::known::KnownOutlines;
use go_work::typed::TypedUnits;
use std::alloc::Global;
use std::thread::Threads;

fn add_known(
    alloc: Global,
    known: &mut KnownOutlines,
    earlier: Option<&TypedUnits>,
) -> Result<(), NoMemory> {
    match earlier {
        None => Ok(()),
        Some(earlier) => known.add(alloc, earlier.units.items()),
    }
}

/// The outlines of the files of packages that were typed before. Of two files with one path that of the second ones is known.
pub fn known_of(
    alloc: Global,
    first: Option<&TypedUnits>,
    second: Option<&TypedUnits>,
) -> Result<KnownOutlines, NoMemory> {
    let mut known = KnownOutlines::none(alloc);
    add_known(alloc, &mut known, first)?;
    add_known(alloc, &mut known, second)?;
    Ok(known)
}

/// The outlines of the files of trees on a platform that several workers parse at once. A single one leaves them to be parsed where they are read.
pub fn known_ahead<R: Threads + Sync, L: Copy + Send>(
    rt: &R,
    alloc: Global,
    workers: u32,
    owner: L,
    trees: &PlatformTrees<'_>,
) -> Result<KnownOutlines, NoMemory>
    requires tree { IsTree trees.now.tree.now }
    requires std { IsTree trees.now.std_tree.now }
    requires barred { Has trees.now.barred.now trees.now.tree.now.module }
{
    let mut known = KnownOutlines::none(alloc);
    if workers >= 2 {
        read_ahead(
            rt,
            alloc,
            workers,
            owner,
            trees.tree,
            trees.std_tree,
            trees.barred,
            trees.platform,
            &mut known,
        )?;
    }
    Ok(known)
}
