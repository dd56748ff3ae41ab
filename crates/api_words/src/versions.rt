//! The version of the last release.
ghost use Rattle.std.specs.Prelude.{◌≡◌, MatchOption, IfOk, Ok, Option, Some};
ghost use Rattle.std.specs.Option.{option_copied};
ghost use Rattle.semver.specs.Identifiers.{parts_of};
ghost use Rattle.semver.specs.Parse.{Parts, version_parts};
ghost use Rattle.api_words.specs.Words.{IsVersion, release_of, without_v};
ghost use Rattle.api_words.specs.declared.request.AskedVersion.{AskedVersion};

use crate::request::AskedVersion;
use api_advice::release::Release;
use go_base::memory::NoMemory;
use go_base::text::Text;
use semver::{Error, Version};
use std::alloc::{AllocError, Global};

fn without_v(word: &str) -> &str
    ensures { result.now ≡ without_v word.now }
{
    match word.strip_prefix('v') {
        Some(rest) => rest,
        None => word,
    }
}

fn parsed(alloc: Global, text: &str) -> Result<Option<Version>, NoMemory>
    ensures { IfOk result (λ o. MatchOption o ((parts : Parts) → version_parts text.now ≡ Ok parts → ⊥) (λ version. version_parts text.now ≡ Ok (parts_of version))) }
{
    match Version::parse(alloc, text) {
        Ok(version) => Ok(Some(version)),
        Err(error) => {
            if error == Error::from(AllocError) {
                return Err(NoMemory);
            }
            Ok(None)
        }
    }
}

fn release_of(version: &Version) -> Option<Release>
    ensures { result ≡ release_of (parts_of version.now) }
{
    if version.pre.is_empty() && version.build.is_empty() {
        return Some(Release {
            major: version.major,
            minor: version.minor,
            patch: version.patch,
        });
    }
    None
}

fn version_in(alloc: Global, word: &str) -> Result<Option<Option<AskedVersion>>, NoMemory>
    ensures { IfOk result (λ o. MatchOption o ((v : Option AskedVersion) → IsVersion (Some word.now) v → ⊥) (IsVersion (Some word.now))) }
{
    let Some(version) = parsed(alloc, without_v(word))? else {
        return Ok(None);
    };
    let word = Text::of(alloc, word.as_bytes())?;
    Ok(Some(Some(AskedVersion {
        word,
        release: release_of(&version),
    })))
}

/// The version that is given, where one is, or `None` where the word is out of form.
pub(crate) fn version_of(
    alloc: Global,
    given: Option<&str>,
) -> Result<Option<Option<AskedVersion>>, NoMemory>
    ensures { IfOk result (λ o. MatchOption o ((v : Option AskedVersion) → IsVersion (option_copied given.entry) v → ⊥) (IsVersion (option_copied given.entry))) }
{
    match given {
        None => Ok(Some(None)),
        Some(word) => version_in(alloc, word),
    }
}
