//! What the values of options mean.
ghost use Rattle.std.specs.Prelude.{◌≡◌, ◌≢◌, [], ℕ, List, length, map, Decides, MatchOption, IfOk, Some};
ghost use Rattle.std.specs.List.{slice_split};
ghost use Rattle.std.specs.Option.{option_copied};
ghost use Rattle.go_base.specs.Lists.{Each, Has, Once};
ghost use Rattle.go_model.specs.declared.files.platform.Platform.{Platform};
ghost use Rattle.go_model.specs.files.Platforms.{name_of};
ghost use Rattle.api_words.specs.Words.{AreFileNames, ArePlatforms, is_comma};

use go_base::list::List;
use go_base::memory::NoMemory;
use go_base::text::Text;
use go_model::files::platform::Platform;
use go_tags::laws::one_platform;
use go_tags::platforms::platform;
use std::alloc::{AllocError, Global};

const MOST_FILES: usize = 64;

// The parts of a value between its commas.
fn parts_of<'a>(alloc: Global, value: &'a [u8]) -> Result<Vec<&'a [u8]>, AllocError>
    ensures { IfOk result (λ parts. map (λ part. part.now) parts.items ≡ slice_split is_comma value.now) }
{
    value.split(|byte| *byte == b',').collect(alloc)
}

// The platforms of these names, or `None` where one of them is no platform's.
fn named_platforms(alloc: Global, names: &[&[u8]]) -> Result<Option<List<Platform>>, NoMemory>
    ensures { IfOk result (λ o. MatchOption o ((all : List Platform) → map (λ name. name.now) names.now ≡ map name_of all → ⊥)
        (λ all. map (λ name. name.now) names.now ≡ map name_of all)) }
{
    let mut platforms = List::new(alloc);
    for name in names {
        match platform(name) {
            None => return Ok(None),
            Some(found) => platforms.push(found)?,
        }
    }
    Ok(Some(platforms))
}

fn stands_in(platforms: &[Platform], platform: Platform) -> bool
    ensures { Decides result (Has platforms.now platform) }
{
    platforms.contains(&platform)
}

fn are_once(platforms: &[Platform]) -> bool
    ensures { Decides result (Once platforms.now) }
{
    for i in 0..platforms.len() {
        if stands_in(&platforms[i + 1..], platforms[i]) {
            return false;
        }
    }
    true
}

// The platforms that a value names.
fn platforms_in(alloc: Global, value: &[u8]) -> Result<Option<List<Platform>>, NoMemory>
    ensures { IfOk result (λ o. MatchOption o ((all : List Platform) → ArePlatforms (Some value.now) all → ⊥) (ArePlatforms (Some value.now))) }
{
    one_platform();
    let parts = parts_of(alloc, value)?;
    match named_platforms(alloc, &parts)? {
        None => Ok(None),
        Some(platforms) => {
            if !are_once(platforms.items()) {
                return Ok(None);
            }
            Ok(Some(platforms))
        }
    }
}

/// The platforms for which a run is asked, or `None` where the value is out of form.
pub(crate) fn platforms_of(
    alloc: Global,
    given: Option<&[u8]>,
) -> Result<Option<List<Platform>>, NoMemory>
    ensures { IfOk result (λ o. MatchOption o ((all : List Platform) → ArePlatforms (option_copied given.entry) all → ⊥) (ArePlatforms (option_copied given.entry))) }
{
    match given {
        None => {
            let mut platforms = List::new(alloc);
            platforms.push(Platform::LinuxAmd64)?;
            Ok(Some(platforms))
        }
        Some(value) => platforms_in(alloc, value),
    }
}

fn are_some(names: &[&[u8]]) -> bool
    ensures { Decides result (Each (λ name. name ≢ []) (map (λ name. name.now) names.now)) }
{
    for name in names {
        if name.is_empty() {
            return false;
        }
    }
    true
}

fn texts_of(alloc: Global, names: &[&[u8]]) -> Result<List<Text>, NoMemory>
    ensures { IfOk result (λ texts. texts ≡ map (λ name. name.now) names.now) }
{
    let mut texts = List::new(alloc);
    for name in names {
        let text = Text::of(alloc, name)?;
        texts.push(text)?;
    }
    Ok(texts)
}

fn file_names_in(alloc: Global, value: &[u8]) -> Result<Option<List<Text>>, NoMemory>
    ensures { IfOk result (λ o. MatchOption o ((all : List (List ℕ)) → AreFileNames (Some value.now) all → ⊥) (AreFileNames (Some value.now))) }
{
    let parts = parts_of(alloc, value)?;
    if parts.len() > MOST_FILES {
        return Ok(None);
    }
    if !are_some(&parts) {
        return Ok(None);
    }
    let texts = texts_of(alloc, &parts)?;
    Ok(Some(texts))
}

/// The files that a run is to read, or `None` where the value is out of form.
pub(crate) fn file_names_of(
    alloc: Global,
    given: Option<&[u8]>,
) -> Result<Option<List<Text>>, NoMemory>
    ensures { IfOk result (λ o. MatchOption o ((all : List (List ℕ)) → AreFileNames (option_copied given.entry) all → ⊥) (AreFileNames (option_copied given.entry))) }
{
    match given {
        None => Ok(Some(List::new(alloc))),
        Some(value) => file_names_in(alloc, value),
    }
}

/// The file that a run is to read, where one is given.
pub(crate) fn copied(alloc: Global, given: Option<&[u8]>) -> Result<Option<Text>, NoMemory>
    ensures { IfOk result (λ text. text ≡ option_copied given.entry) }
{
    match given {
        None => Ok(None),
        Some(value) => {
            let text = Text::of(alloc, value)?;
            Ok(Some(text))
        }
    }
}
