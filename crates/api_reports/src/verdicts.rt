//! The texts of verdicts and of classes, and how much verdicts say is broken.
ghost use Rattle.std.specs.Prelude.{◌≡◌, ◌+◌, ◌++◌, ◌∷◌, [], OnOk, IfOk, map};
ghost use Rattle.api_reports.specs.Reports.{break_line, class_line, class_name, class_text, count_breaks, counted_class_text, judge_text, platform_lines, unlines, verdict_lines, verdict_word};

use crate::left_out::add_counted;
use api_advice::class::Class;
use api_judge::judge::class;
use api_judge::verdict::Verdict;
use api_subjects::broken::Broken;
use api_texts::left_out::LeftOut;
use go_base::memory::NoMemory;
use go_base::text::Text;
use go_model::files::platform::Platform;
use std::alloc::Global;

/// How much is broken on all platforms together. `NoMemory` where that is more than memory can hold.
pub fn count_breaks(verdicts: &[Verdict]) -> Result<usize, NoMemory>
    ensures { IfOk result (λ count. count ≡ count_breaks verdicts.now) }
{
    let mut count = 0usize;
    for verdict in verdicts {
        match count.checked_add(verdict.breaks.items().len()) {
            Some(sum) => count = sum,
            None => return Err(NoMemory),
        }
    }
    Ok(count)
}

fn verdict_word(broken: bool) -> &'static [u8]
    ensures { result.now ≡ verdict_word broken }
{
    if broken {
        b"incompatible"
    } else {
        b"compatible"
    }
}

fn add_break(
    alloc: Global,
    text: &mut Vec<u8>,
    platform: Platform,
    broken: &Broken,
) -> Result<(), NoMemory>
    ensures { OnOk result (text.new.items ≡ text.old.items ++ break_line platform broken.now ++ 10 ∷ []) }
{
    let printed = broken.printed(alloc)?;
    text.extend_from_slice(b"break ")?;
    text.extend_from_slice(platform.name())?;
    text.extend_from_slice(b" ")?;
    text.extend_from_slice(printed.bytes())?;
    text.push(b'\n')?;
    Ok(())
}

fn add_breaks(
    alloc: Global,
    text: &mut Vec<u8>,
    platform: Platform,
    breaks: &[Broken],
) -> Result<(), NoMemory>
    ensures { OnOk result (text.new.items ≡ text.old.items ++ unlines (map (break_line platform) breaks.now)) }
{
    for broken in breaks {
        add_break(alloc, text, platform, broken)?;
    }
    Ok(())
}

fn add_verdict(
    alloc: Global,
    text: &mut Vec<u8>,
    platform: Platform,
    verdict: &Verdict,
) -> Result<(), NoMemory>
    ensures { OnOk result (text.new.items ≡ text.old.items ++ unlines (platform_lines platform verdict.now)) }
{
    text.extend_from_slice(b"judge ")?;
    text.extend_from_slice(platform.name())?;
    text.extend_from_slice(b": ")?;
    text.extend_from_slice(verdict_word(verdict.has_break()))?;
    text.push(b'\n')?;
    add_breaks(alloc, text, platform, verdict.breaks.items())
}

fn add_verdicts(
    alloc: Global,
    text: &mut Vec<u8>,
    platforms: &[Platform],
    verdicts: &[Verdict],
) -> Result<(), NoMemory>
    ensures { OnOk result (text.new.items ≡ text.old.items ++ unlines (verdict_lines platforms.now verdicts.now)) }
{
    for (platform, verdict) in platforms.iter().zip(verdicts) {
        add_verdict(alloc, text, *platform, verdict)?;
    }
    Ok(())
}

fn class_name(class: Class) -> &'static [u8]
    ensures { result.now ≡ class_name class }
{
    match class {
        Class::Major => b"major",
        Class::Minor => b"minor",
        Class::Patch => b"patch",
    }
}

fn add_class(text: &mut Vec<u8>, class: Class) -> Result<(), NoMemory>
    ensures { OnOk result (text.new.items ≡ text.old.items ++ unlines (class_line class ∷ [])) }
{
    text.extend_from_slice(b"class ")?;
    text.extend_from_slice(class_name(class))?;
    text.push(b'\n')?;
    Ok(())
}

/// The text of verdicts: for each platform, which has the verdict and what was left out in the same places, a line with its word and
/// one for each thing that is broken there, then how many declarations were left out of the trees, and then the line of the class.
pub fn judge_text(
    alloc: Global,
    platforms: &[Platform],
    verdicts: &[Verdict],
    left_out: &[LeftOut],
) -> Result<Text, NoMemory>
    ensures { IfOk result (λ text. text ≡ judge_text platforms.now verdicts.now left_out.now) }
{
    let mut text = Vec::new(alloc);
    add_verdicts(alloc, &mut text, platforms, verdicts)?;
    add_counted(&mut text, platforms, left_out)?;
    add_class(&mut text, class(verdicts))?;
    Text::from_vec(alloc, text)
}

/// How many declarations were left out of the trees on each platform, which has what was left out in the same place, and then the line of
/// the class.
pub fn counted_class_text(
    alloc: Global,
    platforms: &[Platform],
    left_out: &[LeftOut],
    class: Class,
) -> Result<Text, NoMemory>
    ensures { IfOk result (λ text. text ≡ counted_class_text platforms.now left_out.now class) }
{
    let mut text = Vec::new(alloc);
    add_counted(&mut text, platforms, left_out)?;
    add_class(&mut text, class)?;
    Text::from_vec(alloc, text)
}

/// The text of a class: its line.
pub fn class_text(alloc: Global, class: Class) -> Result<Text, NoMemory>
    ensures { IfOk result (λ text. text ≡ class_text class) }
{
    let mut text = Vec::new(alloc);
    add_class(&mut text, class)?;
    Text::from_vec(alloc, text)
}
