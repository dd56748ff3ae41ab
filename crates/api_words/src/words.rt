//! The words of the command line.
ghost use Rattle.std.specs.Prelude.{◌≡◌, ℕ, List, map, string_bytes, MatchOption, IfOk, Some};
ghost use Rattle.std.specs.Option.{option_copied};
ghost use Rattle.api_words.specs.Words.{AreSettings, AsksFor, IsRequest};
ghost use Rattle.api_words.specs.declared.request.Request.{Request};
ghost use Rattle.api_words.specs.inner.Requests.{AsksInMode};

use crate::folders::{new_folder, old_folder};
use crate::numbers::{made_of, workers_of};
use crate::option_name::{Mode, OptionName, mode_of};
use crate::request::Request;
use crate::settings::{Setting, are_of_mode, look_up, look_up_word, settings_of};
use crate::values::{copied, file_names_of, platforms_of};
use crate::versions::version_of;
use go_base::memory::NoMemory;
use go_base::text::Text;
use std::alloc::Global;

// What settings of a mode ask for, or `None` where a value is out of form or one of them isn't the mode's.
fn request_of(
    alloc: Global,
    mode: Mode,
    words: &[String],
    settings: &[Setting],
) -> Result<Option<Request>, NoMemory>
    requires { AreSettings (map string_bytes words.now) settings.now }
    ensures { IfOk result (λ o. MatchOption o ((r : Request) → AsksInMode mode settings.now r → ⊥) (AsksInMode mode settings.now)) }
{
    if !are_of_mode(mode, settings) {
        return Ok(None);
    }
    let given = look_up(settings, OptionName::Platforms);
    let Some(platforms) = platforms_of(alloc, given)? else {
        return Ok(None);
    };
    let given = look_up_word(words, settings, OptionName::Workers);
    let Some(workers) = workers_of(given) else {
        return Ok(None);
    };
    let given = look_up(settings, OptionName::Api);
    let Some(api) = file_names_of(alloc, given)? else {
        return Ok(None);
    };
    let given = look_up_word(words, settings, OptionName::Version);
    let Some(version) = version_of(alloc, given)? else {
        return Ok(None);
    };
    let seed = look_up_word(words, settings, OptionName::Seed);
    let size = look_up_word(words, settings, OptionName::Size);
    let Some(made) = made_of(seed, size) else {
        return Ok(None);
    };
    let old = old_folder(alloc, mode, look_up(settings, OptionName::Old))?;
    let new = new_folder(alloc, look_up(settings, OptionName::New))?;
    let std = copied(alloc, look_up(settings, OptionName::Std))?;
    let client = copied(alloc, look_up(settings, OptionName::Client))?;
    let except = copied(alloc, look_up(settings, OptionName::Except))?;
    Ok(Some(Request {
        mode,
        old,
        new,
        std,
        client,
        platforms,
        workers,
        api,
        except,
        version,
        made,
    }))
}

/// The request that the words make, or `None` where they aren't good: a mode, and then each option that it needs and
/// some of those that it permits, each once and followed by its value, in any order.
///
/// | mode | needs | permits |
/// |---|---|---|
/// | `features` | `--new` | `--std`, `--platforms`, `--workers` |
/// | `frozen` | `--new`, `--api` | `--except`, `--std`, `--platforms`, `--workers` |
/// | `judge` | `--old`, `--new` | `--std`, `--platforms`, `--workers` |
/// | `advise` | `--old`, `--new`, `--version` | `--std`, `--platforms`, `--workers` |
/// | `gate` | `--old`, `--new`, `--api`, `--version` | `--except`, `--std`, `--platforms`, `--workers` |
/// | `skipped` | `--new` | `--std`, `--platforms`, `--workers` |
/// | `vet` | `--new`, `--client` | `--std`, `--platforms`, `--workers` |
/// | `make` | `--seed`, `--size` | `--workers` |
///
/// A value isn't empty and doesn't begin with `-`. That of `--platforms` is names of platforms joined by commas, none twice, and
/// where it isn't given `linux-amd64`; that of `--workers` a decimal number from 1 to 64, and else 1; that of `--api` 1 to 64
/// names joined by commas, none empty; that of `--version` a version of SemVer 2.0.0 whose numbers are below 2^64, with or
/// without one `v` in front; that of `--seed` a decimal number below 2^64; that of `--size` a decimal number from 1 to 2,000.
/// Decimal numbers have neither sign nor leading zero. In mode `make` the folders are `old` and `new`, where the generator's
/// trees stand.
pub fn read_words(alloc: Global, words: &[String]) -> Result<Option<Request>, NoMemory>
    ensures { IfOk result (λ o. MatchOption o ((r : Request) → IsRequest (map string_bytes words.now) r → ⊥) (IsRequest (map string_bytes words.now))) }
{
    let [word, rest @ ..] = words else {
        return Ok(None);
    };
    let Some(mode) = mode_of(word.as_bytes()) else {
        return Ok(None);
    };
    match settings_of(alloc, rest)? {
        None => Ok(None),
        Some(settings) => request_of(alloc, mode, rest, settings.items()),
    }
}
