//! The texts of feature lines, and of lines that were lost or are new.
ghost use Rattle.std.specs.Prelude.{◌≡◌, ◌++◌, ◌∷◌, [], OnOk, IfOk};
ghost use Rattle.api_lines.specs.Lines.{printed};
ghost use Rattle.api_reports.specs.Reports.{features_text, has_loss, sign_of, signed, signed_text};

use api_frozen::signed::Signed;
use api_lines::line::Line;
use go_base::memory::NoMemory;
use go_base::text::Text;
use std::alloc::Global;

fn add_feature(text: &mut Vec<u8>, line: &Line) -> Result<(), NoMemory>
    ensures { OnOk result (text.new.items ≡ text.old.items ++ printed line.now ++ 10 ∷ []) }
{
    line.print_to(text)?;
    text.push(b'\n')?;
    Ok(())
}

/// The text of feature lines: each ended by a newline.
pub fn features_text(alloc: Global, lines: &[Line]) -> Result<Text, NoMemory>
    ensures { IfOk result (λ text. text ≡ features_text lines.now) }
{
    let mut text = Vec::new(alloc);
    for line in lines {
        add_feature(&mut text, line)?;
    }
    Text::from_vec(alloc, text)
}

// The sign in front of a lost line, or of a new one.
fn sign_of(lost: bool) -> u8
    ensures { result ≡ sign_of lost }
{
    if lost { b'-' } else { b'+' }
}

fn add_signed(text: &mut Vec<u8>, line: &Signed) -> Result<(), NoMemory>
    ensures { OnOk result (text.new.items ≡ text.old.items ++ signed line.now ++ 10 ∷ []) }
{
    text.push(sign_of(line.lost))?;
    text.extend_from_slice(line.line.bytes())?;
    text.push(b'\n')?;
    Ok(())
}

/// The text of signed lines: `-` and a lost line, `+` and a new one, each ended by a newline.
pub fn signed_text(alloc: Global, lines: &[Signed]) -> Result<Text, NoMemory>
    ensures { IfOk result (λ text. text ≡ signed_text lines.now) }
{
    let mut text = Vec::new(alloc);
    for line in lines {
        add_signed(&mut text, line)?;
    }
    Text::from_vec(alloc, text)
}

/// Whether a line is lost.
pub fn has_loss(lines: &[Signed]) -> bool
    ensures { result ≡ has_loss lines.now }
{
    lines.iter().any(|line| line.lost)
}
