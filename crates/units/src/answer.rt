//! The answer to a case.
ghost use Rattle.std.specs.Prelude.{◌≢◌, [], OnOk};
ghost use Rattle.go_base.specs.Lists.{Has};
ghost use Rattle.go_model.specs.files.Trees.{IsTree};

use crate::features::features;
use crate::lines::{add_error, add_units};
use crate::question::Question;
use go_base::list::List;
use go_base::memory::NoMemory;
use go_base::text::Text;
use go_load::load::{load_module, load_std};
use go_model::files::platform::Platform;
use go_model::files::tree::Tree;
use go_outside::memory_files::{FilePair, MemoryFiles};
use go_reading::known::KnownOutlines;
use go_reading::laws::unit_paths;
use go_reading::units::units;
use go_units::unit_error::UnitError;
use go_units::unit_list::Units;
use std::alloc::{AllocError, Global};
use std::thread::Threads;

fn bar(alloc: Global, barred: &mut List<Text>, path: &[u8]) -> Result<(), NoMemory>
    ensures { OnOk result (Has barred.new path.now) }
{
    let text = Text::of(alloc, path)?;
    barred.push(text)?;
    Ok(())
}

fn listed(alloc: Global, units: &Units) -> Result<Vec<u8>, AllocError> {
    let mut text = Vec::new(alloc);
    add_units(alloc, &mut text, units)?;
    Ok(text)
}

fn refused(alloc: Global, error: &UnitError) -> Result<Vec<u8>, AllocError> {
    let mut text = Vec::new(alloc);
    add_error(alloc, &mut text, error)?;
    Ok(text)
}

fn said(alloc: Global, word: &str) -> Result<Vec<u8>, AllocError> {
    Ok(format!(in alloc; "{word}\n")?.into_bytes())
}

fn of_trees<R: Threads + Sync>(
    rt: &R,
    alloc: Global,
    question: Question,
    platform: Platform,
    tree: &Tree,
    std_tree: &Tree,
    mut barred: List<Text>,
) -> Result<Vec<u8>, AllocError>
    requires tree { IsTree tree.now }
    requires std { IsTree std_tree.now }
    requires module_path { tree.now.module ≢ [] }
{
    unit_paths();
    if let Err(_) = bar(alloc, &mut barred, tree.module.bytes()) {
        return Err(AllocError);
    }
    let known = KnownOutlines::none(alloc);
    match units(alloc, tree, std_tree, barred.items(), platform, &known) {
        Err(error) => refused(alloc, &error),
        Ok(units) => match question {
            Question::Units => listed(alloc, &units),
            Question::Features => features(rt, alloc, platform, units),
        },
    }
}

fn of_store<R: Threads + Sync>(
    rt: &R,
    alloc: Global,
    question: Question,
    platform: Platform,
    mut store: MemoryFiles,
    barred: List<Text>,
) -> Result<Vec<u8>, AllocError> {
    let tree = match load_module(alloc, &mut store, b"new") {
        Err(_) => return said(alloc, "no module"),
        Ok(tree) => tree,
    };
    let std_tree = match load_std(alloc, &mut store, b"std") {
        Err(_) => return said(alloc, "no standard library"),
        Ok(tree) => tree,
    };
    if tree.module.bytes().is_empty() {
        return said(alloc, "no module");
    }
    of_trees(rt, alloc, question, platform, &tree, &std_tree, barred)
}

/// The answer to a question on these files, or the first refusal, as it is printed.
pub fn answer<R: Threads + Sync>(
    rt: &R,
    alloc: Global,
    question: Question,
    platform: Platform,
    pairs: List<FilePair>,
    barred: List<Text>,
) -> Result<Vec<u8>, AllocError> {
    match MemoryFiles::new(alloc, pairs) {
        Err(_) => said(alloc, "files clash"),
        Ok(store) => of_store(rt, alloc, question, platform, store, barred),
    }
}
