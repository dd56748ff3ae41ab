//! The names that several methods of a type have.
ghost use Rattle.std.specs.Prelude.{◌≡◌, ◌↔◌, ℕ, List, IfOk, OnOk};
ghost use Rattle.go_base.specs.Growing.{Grows};
ghost use Rattle.go_base.specs.Lists.{Has};
ghost use Rattle.go_declarations.specs.Listings.{declarations_of};
ghost use Rattle.go_met.specs.inner.SharedNames.{row_names, StandsTwice};
ghost use Rattle.go_selectors.specs.Answers.{Decides};

use go_base::memory::NoMemory;
use go_base::text::Text;
use go_declarations::listing::Declaration;
use go_declared::methods::{MethodRow, method_name};
use std::alloc::Global;
use std::collections::BTreeSet;

/// Whether a name is among others.
pub(crate) fn has_name(names: &BTreeSet<Text>, name: &Text) -> bool
    ensures { Decides result (Has names.now.keys name.now) }
{
    names.contains(name)
}

fn add_name(names: &mut BTreeSet<Text>, name: Text) -> Result<(), NoMemory>
    ensures { OnOk result (Grows (λ k. name ≡ k) names.old.keys names.new.keys) }
{
    names.insert(name)?;
    Ok(())
}

// Notes a name, and that it is shared where it was noted before.
fn note(
    seen: &mut BTreeSet<Text>,
    shared: &mut BTreeSet<Text>,
    alloc: Global,
    name: &[u8],
) -> Result<(), NoMemory>
    ensures seen { OnOk result (Grows (λ k. name.now ≡ k) seen.old.keys seen.new.keys) }
    ensures shared { OnOk result (Grows (λ k. (name.now ≡ k) × Has seen.old.keys k) shared.old.keys shared.new.keys) }
{
    let name = Text::of(alloc, name)?;
    if has_name(seen, &name) {
        return add_name(shared, name);
    }
    add_name(seen, name)
}

/// The names that two or more of these rows have.
pub(crate) fn shared_names(
    alloc: Global,
    declarations: &[Declaration<'_>],
    rows: &[MethodRow],
) -> Result<BTreeSet<Text>, NoMemory>
    ensures { IfOk result (λ shared. (name : List ℕ) → Has shared.keys name ↔ StandsTwice (row_names (declarations_of declarations.now) rows.now) name) }
{
    let mut seen = BTreeSet::new(alloc);
    let mut shared = BTreeSet::new(alloc);
    for row in rows {
        let name = method_name(declarations, row.number);
        note(&mut seen, &mut shared, alloc, name)?;
    }
    Ok(shared)
}
