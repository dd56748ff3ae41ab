//! Names that stand once.
ghost use Rattle.std.specs.Prelude.{IfOk};
ghost use Rattle.go_base.specs.Growing.{Adds};
ghost use Rattle.go_base.specs.Lists.{Once};
ghost use Rattle.go_nodes.specs.Trees.{texts_of};
ghost use Rattle.go_nodes.specs.inner.Notes.{Notes};
ghost use Rattle.go_rules.specs.Asks.{AreDistinctNames};
ghost use Rattle.go_selectors.specs.Answers.{Decides};

use go_base::memory::NoMemory;
use go_base::text::Text;
use go_rules::blank::is_blank;
use std::alloc::Global;
use std::collections::BTreeSet;

// Puts a copy of a name among others, and says whether it is new.
fn add_new(names: &mut BTreeSet<Text>, name: &Text) -> Result<bool, NoMemory>
    ensures { IfOk result (Adds names.old.keys name.now names.new.keys) }
{
    let text = name.copy()?;
    let is_new = names.insert(text)?;
    Ok(is_new)
}

// Puts a copy of a name among others, unless it is the blank one, and says whether it is that or new.
fn is_first(names: &mut BTreeSet<Text>, name: &Text) -> Result<bool, NoMemory>
    ensures { IfOk result (Notes names.old.keys name.now names.new.keys) }
{
    if is_blank(name.bytes()) {
        return Ok(true);
    }
    let is_new = add_new(names, name)?;
    Ok(is_new)
}

/// Whether no two names but the blank one are the same.
pub fn are_distinct(alloc: Global, names: &[&Text]) -> Result<bool, NoMemory>
    ensures { IfOk result (λ answer. Decides answer (AreDistinctNames (texts_of names.now))) }
{
    let mut seen = BTreeSet::new(alloc);
    for name in names {
        if !is_first(&mut seen, *name)? {
            return Ok(false);
        }
    }
    Ok(true)
}

/// Whether no name stands twice.
pub fn are_once(alloc: Global, names: &[&Text]) -> Result<bool, NoMemory>
    ensures { IfOk result (λ answer. Decides answer (Once (texts_of names.now))) }
{
    let mut seen = BTreeSet::new(alloc);
    for name in names {
        if !add_new(&mut seen, *name)? {
            return Ok(false);
        }
    }
    Ok(true)
}
