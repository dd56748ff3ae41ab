//! The text of what the generator's trees have.
ghost use Rattle.std.specs.Prelude.{◌≡◌, ◌++◌, ◌∷◌, [], OnOk, IfOk};
ghost use Rattle.std.specs.Fmt.{decimal};
ghost use Rattle.api_reports.specs.Reports.{made_text};

use go_base::memory::NoMemory;
use go_base::text::Text;
use itoa::Buffer;
use std::alloc::Global;

// A line of a word with its space, and a number.
fn add_count(text: &mut Vec<u8>, word: &[u8], count: usize) -> Result<(), NoMemory>
    ensures { OnOk result (text.new.items ≡ text.old.items ++ word.now ++ decimal count ++ 10 ∷ []) }
{
    let mut buffer = Buffer::new();
    text.extend_from_slice(word)?;
    text.extend_from_slice(buffer.format(count).as_bytes())?;
    text.push(b'\n')?;
    Ok(())
}

/// The text of the numbers of packages, of feature lines and of what is broken: a line for each.
pub fn made_text(
    alloc: Global,
    packages: u32,
    lines: usize,
    breaks: usize,
) -> Result<Text, NoMemory>
    ensures { IfOk result (λ text. text ≡ made_text packages lines breaks) }
{
    let mut text = Vec::new(alloc);
    add_count(&mut text, b"packages ", packages as usize)?;
    add_count(&mut text, b"lines ", lines)?;
    add_count(&mut text, b"breaks ", breaks)?;
    Ok(Text::from_vec(alloc, text)?)
}
