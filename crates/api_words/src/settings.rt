//! Options with their values.
ghost use Rattle.std.specs.Prelude.{◌≡◌, ◌≤◌, ◌⊎◌, [], ◌↔◌, ℕ, List, map, take, string_bytes, MatchOption, IfOk, Decides, IsTrue, None};
ghost use Rattle.std.specs.Option.{option_copied};
ghost use Rattle.go_base.specs.Lists.{Each, Has, Once};
ghost use Rattle.api_words.specs.Options.{needs, permits};
ghost use Rattle.api_words.specs.Words.{AreOfMode, AreSettings, IsGiven, IsSetting, IsValue, option_in};
ghost use Rattle.api_words.specs.declared.option_name.OptionName.{OptionName};
ghost use Rattle.api_words.specs.declared.settings.Setting.{Setting};

use crate::option_name::{Mode, OptionName, is_own, option_of};
use go_base::list::List;
use go_base::memory::NoMemory;
use go_base::text::Text;
use std::alloc::Global;

/// An option and its value.
#[derive(Debug, Drop)]
pub struct Setting {
    pub name: OptionName,
    pub value: Text,
}

fn is_value(word: &[u8]) -> bool
    ensures { IsTrue result ↔ IsValue word.now }
{
    match word {
        [] => false,
        [first, ..] => *first != b'-',
    }
}

fn setting_of(alloc: Global, word: &[u8], value: &[u8]) -> Result<Option<Setting>, NoMemory>
    ensures { IfOk result (λ o. MatchOption o ((s : Setting) → IsSetting word.now value.now s → ⊥) (IsSetting word.now value.now)) }
{
    let Some(name) = option_of(word) else {
        return Ok(None);
    };
    if !is_value(value) {
        return Ok(None);
    }
    Ok(Some(Setting {
        name,
        value: Text::of(alloc, value)?,
    }))
}

/// The options and values that the words are, or `None` where they are something else.
pub(crate) fn settings_of(
    alloc: Global,
    words: &[String],
) -> Result<Option<List<Setting>>, NoMemory>
    ensures { IfOk result (λ o. MatchOption o ((all : List Setting) → AreSettings (map string_bytes words.now) all → ⊥) (AreSettings (map string_bytes words.now))) }
{
    let mut settings = List::new(alloc);
    let mut at = 0usize;
    while at < words.len() {
        if words.len() - at == 1 {
            return Ok(None);
        }
        match setting_of(alloc, words[at].as_bytes(), words[at + 1].as_bytes())? {
            None => return Ok(None),
            Some(setting) => settings.push(setting)?,
        }
        at += 2;
    }
    Ok(Some(settings))
}

/// The value that an option is given first, or `None`.
pub(crate) fn look_up<'a>(settings: &'a [Setting], name: OptionName) -> Option<&'a [u8]>
    ensures { IsGiven settings.now name (option_copied result) }
{
    for setting in settings {
        if setting.name == name {
            return Some(setting.value.bytes());
        }
    }
    None
}

fn are_same(left: &[u8], right: &[u8]) -> bool
    ensures { Decides result (left.now ≡ right.now) }
{
    left == right
}

// The word with these bytes, or `None` where none has them.
fn word_with<'a>(words: &'a [String], bytes: &[u8]) -> Option<&'a str>
    ensures { MatchOption result (Has (map string_bytes words.now) bytes.now → ⊥) (λ word. word.now ≡ bytes.now) }
{
    for word in words {
        if are_same(word.as_bytes(), bytes) {
            return Some(word.as_str());
        }
    }
    None
}

/// The word that an option is given, or `None`.
pub(crate) fn look_up_word<'a>(
    words: &'a [String],
    settings: &[Setting],
    name: OptionName,
) -> Option<&'a str>
    requires { AreSettings (map string_bytes words.now) settings.now }
    ensures { IsGiven settings.now name (option_copied result) }
{
    match look_up(settings, name) {
        None => None,
        Some(value) => word_with(words, value),
    }
}

fn is_given(settings: &[Setting], name: OptionName) -> bool
    ensures { Decides result (Has (map option_in settings.now) name) }
{
    look_up(settings, name).is_some()
}

fn are_once(settings: &[Setting]) -> bool
    ensures { Decides result (Once (map option_in settings.now)) }
{
    for i in 0..settings.len() {
        if is_given(&settings[i + 1..], settings[i].name) {
            return false;
        }
    }
    true
}

fn are_own(mode: Mode, settings: &[Setting]) -> bool
    ensures { Decides result ((s : Setting) → Has settings.now s → Has (needs mode) s.name ⊎ Has (permits mode) s.name) }
{
    for setting in settings {
        if !is_own(mode, setting.name) {
            return false;
        }
    }
    true
}

fn are_given(names: &[OptionName], settings: &[Setting]) -> bool
    ensures { Decides result ((name : OptionName) → Has names.now name → Has (map option_in settings.now) name) }
{
    for name in names {
        if !is_given(settings, *name) {
            return false;
        }
    }
    true
}

/// Whether no option stands twice, each is of the mode, and those that it needs are given.
pub(crate) fn are_of_mode(mode: Mode, settings: &[Setting]) -> bool
    ensures { Decides result (AreOfMode mode settings.now) }
{
    if !are_once(settings) {
        return false;
    }
    if !are_own(mode, settings) {
        return false;
    }
    are_given(mode.needs(), settings)
}
