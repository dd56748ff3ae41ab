//! The texts of what was left out.
ghost use Rattle.std.specs.Prelude.{◌≡◌, ◌++◌, ◌∷◌, [], OnOk, IfOk, map};
ghost use Rattle.api_reports.specs.Reports.{by_platform, count_line, count_lines, counted_lines, counted_text, skipped_line, skipped_lines, skipped_text, unlines};

use api_texts::left_out::LeftOut;
use api_texts::lines::Side;
use go_base::memory::NoMemory;
use go_base::text::Text;
use go_model::files::platform::Platform;
use itoa::Buffer;
use std::alloc::Global;

fn add_skipped(text: &mut Vec<u8>, platform: Platform, declaration: &Text) -> Result<(), NoMemory>
    ensures { OnOk result (text.new.items ≡ text.old.items ++ skipped_line platform declaration.now ++ 10 ∷ []) }
{
    text.extend_from_slice(b"skipped ")?;
    text.extend_from_slice(platform.name())?;
    text.extend_from_slice(b" ")?;
    text.extend_from_slice(declaration.bytes())?;
    text.push(b'\n')?;
    Ok(())
}

fn add_declarations(
    text: &mut Vec<u8>,
    platform: Platform,
    declarations: &[Text],
) -> Result<(), NoMemory>
    ensures { OnOk result (text.new.items ≡ text.old.items ++ unlines (map (skipped_line platform) declarations.now)) }
{
    for declaration in declarations {
        add_skipped(text, platform, declaration)?;
    }
    Ok(())
}

fn add_platform(text: &mut Vec<u8>, platform: Platform, left_out: &LeftOut) -> Result<(), NoMemory>
    ensures { OnOk result (text.new.items ≡ text.old.items ++ unlines (skipped_lines platform left_out.now)) }
{
    add_declarations(text, platform, left_out.new.items())
}

/// The text of what was left out of the new tree: for each platform, which has it in the same place, a line for each declaration.
pub fn skipped_text(
    alloc: Global,
    platforms: &[Platform],
    left_out: &[LeftOut],
) -> Result<Text, NoMemory>
    ensures { IfOk result (λ text. text ≡ skipped_text platforms.now left_out.now) }
{
    let mut text = Vec::new(alloc);
    for (platform, omitted) in platforms.iter().zip(left_out) {
        add_platform(&mut text, *platform, omitted)?;
    }
    Text::from_vec(alloc, text)
}

fn add_count_line(
    text: &mut Vec<u8>,
    side: Side,
    platform: Platform,
    count: usize,
) -> Result<(), NoMemory>
    ensures { OnOk result (text.new.items ≡ text.old.items ++ count_line side platform count ++ 10 ∷ []) }
{
    let mut buffer = Buffer::new();
    text.extend_from_slice(b"skipped ")?;
    text.extend_from_slice(side.name())?;
    text.extend_from_slice(b" ")?;
    text.extend_from_slice(platform.name())?;
    text.extend_from_slice(b" ")?;
    text.extend_from_slice(buffer.format(count).as_bytes())?;
    text.push(b'\n')?;
    Ok(())
}

// How many were left out of a tree, where some were.
#[tactic(auto, using(crate::proofs::PlatformLines::counted_none, crate::proofs::PlatformLines::counted_some))]
fn add_count(
    text: &mut Vec<u8>,
    side: Side,
    platform: Platform,
    count: usize,
) -> Result<(), NoMemory>
    ensures { OnOk result (text.new.items ≡ text.old.items ++ unlines (count_lines side platform count)) }
{
    if count == 0 {
        return Ok(());
    }
    add_count_line(text, side, platform, count)?;
    Ok(())
}

fn add_counts(text: &mut Vec<u8>, platform: Platform, left_out: &LeftOut) -> Result<(), NoMemory>
    ensures { OnOk result (text.new.items ≡ text.old.items ++ unlines (counted_lines platform left_out.now)) }
{
    add_count(text, Side::Old, platform, left_out.old)?;
    add_count(text, Side::New, platform, left_out.new.items().len())
}

/// Adds how many declarations were left out of the trees on each platform, which has what was left out in the same place: a line for
/// the old tree and one for the new, where some were.
pub(crate) fn add_counted(
    text: &mut Vec<u8>,
    platforms: &[Platform],
    left_out: &[LeftOut],
) -> Result<(), NoMemory>
    ensures { OnOk result (text.new.items ≡ text.old.items ++ counted_text platforms.now left_out.now) }
{
    for (platform, omitted) in platforms.iter().zip(left_out) {
        add_counts(text, *platform, omitted)?;
    }
    Ok(())
}
