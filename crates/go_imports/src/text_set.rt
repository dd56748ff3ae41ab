//! Sets of texts.
ghost use Rattle.std.specs.Prelude.{◌≡◌, IsTrue, ◌↔◌, IfOk, OnOk};
ghost use Rattle.go_base.specs.Lists.{Has};
ghost use Rattle.go_base.specs.Growing.{Adds, Grows};

use go_base::memory::NoMemory;
use go_base::text::Text;
use std::alloc::Global;
use std::collections::BTreeSet;

/// Puts a text among others.
pub(crate) fn add_text(set: &mut BTreeSet<Text>, text: Text) -> Result<(), NoMemory>
    ensures { OnOk result (Grows (λ x. text ≡ x) set.old.keys set.new.keys) }
{
    set.insert(text)?;
    Ok(())
}

/// Puts a copy of a text among others, and says whether it is new.
pub(crate) fn add_new(
    alloc: Global,
    set: &mut BTreeSet<Text>,
    bytes: &[u8],
) -> Result<bool, NoMemory>
    ensures { IfOk result (Adds set.old.keys bytes.now set.new.keys) }
{
    let text = Text::of(alloc, bytes)?;
    let is_new = set.insert(text)?;
    Ok(is_new)
}

/// Whether a text is among others.
pub(crate) fn has_text(set: &BTreeSet<Text>, text: &Text) -> bool
    ensures { IsTrue result ↔ Has set.now.keys text.now }
{
    set.contains(text)
}
