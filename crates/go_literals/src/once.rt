//! Names of fields that stand once among the keys of a literal.
ghost use Rattle.std.specs.Prelude.{IfOk, []};
ghost use Rattle.go_base.specs.Growing.{Adds};
ghost use Rattle.go_literals.specs.Keys.{KeyedOnce};
ghost use Rattle.go_selectors.specs.Answers.{Decides};

use crate::keys::field_key;
use go_base::memory::NoMemory;
use go_base::text::Text;
use go_syntax::expression::Element;
use std::alloc::Global;
use std::collections::BTreeSet;

// Puts a copy of a text among others, and says whether it is new.
fn add_new(alloc: Global, texts: &mut BTreeSet<Text>, bytes: &[u8]) -> Result<bool, NoMemory>
    ensures { IfOk result (Adds texts.old.keys bytes.now texts.new.keys) }
{
    let text = Text::of(alloc, bytes)?;
    let is_new = texts.insert(text)?;
    Ok(is_new)
}

/// Whether each element has a name as its key, and no name stands twice.
pub(crate) fn are_keyed_once(alloc: Global, elements: &[Element]) -> Result<bool, NoMemory>
    ensures { IfOk result (λ answer. Decides answer (KeyedOnce [] elements.now)) }
{
    let mut seen = BTreeSet::new(alloc);
    for element in elements {
        let name = match field_key(element) {
            Some(name) => name,
            None => return Ok(false),
        };
        if !add_new(alloc, &mut seen, name.text.bytes())? {
            return Ok(false);
        }
    }
    Ok(true)
}
