//! The next version.
ghost use Rattle.std.specs.Prelude.{◌≡◌};
ghost use Rattle.go_selectors.specs.Answers.{Decides};
ghost use Rattle.api_advice.specs.Advice.{IsNext, IsRelease, raised, Advises};
ghost use Rattle.api_advice.specs.inner.Raising.{RaisesNumber};

use crate::class::Class;
use crate::release::Release;
use semver::Version;
use thiserror::Error;

/// A number of a version, from the left.
#[derive(Clone, Copy, Debug, PartialEq, Eq)]
pub enum Number {
    Major,
    Minor,
    Patch,
}

/// Why no version is advised.
#[derive(Clone, Copy, Debug, PartialEq, Eq, Error)]
pub enum AdviceError {
    /// The version has a pre-release or build metadata.
    #[error("not a release")]
    NotRelease,
    /// The version is a release, and the number to raise is 18446744073709551615.
    #[error("no version follows")]
    NoVersion,
}

fn is_release(version: &Version) -> bool
    ensures { Decides result (IsRelease version.now) }
{
    version.pre.is_empty() && version.build.is_empty()
}

/// The number that a change raises. From 1.0.0 on a break raises the major number and other feature lines the
/// minor number; before that a break raises the minor number; everything else raises the patch number.
pub fn raised_number(major: u64, class: Class) -> Number
    ensures { result ≡ raised major class }
{
    if major == 0 {
        return match class {
            Class::Major => Number::Minor,
            Class::Minor => Number::Patch,
            Class::Patch => Number::Patch,
        };
    }
    match class {
        Class::Major => Number::Major,
        Class::Minor => Number::Minor,
        Class::Patch => Number::Patch,
    }
}

// The release with this number one greater, and zeros behind it.
fn raise(release: Release, number: Number) -> Option<Release>
    ensures { RaisesNumber release number result }
{
    match number {
        Number::Major => {
            let major = release.major.checked_add(1)?;
            Some(Release {
                major,
                minor: 0,
                patch: 0,
            })
        }
        Number::Minor => {
            let minor = release.minor.checked_add(1)?;
            Some(Release {
                major: release.major,
                minor,
                patch: 0,
            })
        }
        Number::Patch => {
            let patch = release.patch.checked_add(1)?;
            Some(Release {
                major: release.major,
                minor: release.minor,
                patch,
            })
        }
    }
}

/// The least release that may follow a release after a change of this class: one with a greater number where
/// [`raised_number`] says, and the same numbers before it. `None` exactly where the number to raise is
/// 18446744073709551615.
pub fn next(release: Release, class: Class) -> Option<Release>
    ensures { IsNext release class result }
{
    raise(release, raised_number(release.major, class))
}

/// The release [`next`] to a version after a change of this class.
pub fn advise(version: &Version, class: Class) -> Result<Release, AdviceError>
    ensures { Advises version.now class result }
{
    if !is_release(version) {
        return Err(AdviceError::NotRelease);
    }
    let release = Release {
        major: version.major,
        minor: version.minor,
        patch: version.patch,
    };
    match next(release, class) {
        Some(following) => Ok(following),
        None => Err(AdviceError::NoVersion),
    }
}
