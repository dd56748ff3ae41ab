//! Texts that follow each other.
ghost use Rattle.std.specs.Prelude.{◌≡◌, ◌++◌, IfOk};

use go_base::memory::NoMemory;
use go_base::text::Text;
use std::alloc::Global;

/// One text, and then another.
pub(crate) fn joined(alloc: Global, first: &[u8], second: &[u8]) -> Result<Text, NoMemory>
    ensures { IfOk result (λ text. text ≡ first.now ++ second.now) }
{
    let mut text = Vec::from_slice(alloc, first)?;
    text.extend_from_slice(second)?;
    Ok(Text::from_vec(alloc, text)?)
}
