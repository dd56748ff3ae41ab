//! The version that is advised, as text, or why there is none.
ghost use Rattle.std.specs.Prelude.{◌≡◌, Some};
ghost use Rattle.api_gate.specs.inner.Decisions.{AnswersAdvice, IsFaultOf, IsVersionText};
ghost use Rattle.api_texts.specs.FaultLines.{no_version_line, not_release_line};

use api_advice::advice::next;
use api_advice::class::Class;
use api_advice::release::Release;
use api_reports::versions::version_text;
use api_texts::lines::{no_version_line, not_release_line};
use api_words::request::AskedVersion;
use go_base::memory::NoMemory;
use go_base::text::Text;
use std::alloc::Global;

/// Why no version is advised.
#[derive(Debug, Drop)]
pub enum AdviceFault {
    /// It is refused, with this fault line.
    Refused(Text),
    NoMemory,
}

// The version isn't a release.
fn no_release(alloc: Global, version: &AskedVersion) -> AdviceFault
    ensures { IsFaultOf (not_release_line version.now.word) result }
{
    match not_release_line(alloc, version.word.bytes()) {
        Ok(line) => AdviceFault::Refused(line),
        Err(NoMemory) => AdviceFault::NoMemory,
    }
}

// No version can follow it.
fn no_version(alloc: Global, version: &AskedVersion) -> AdviceFault
    ensures { IsFaultOf (no_version_line version.now.word) result }
{
    match no_version_line(alloc, version.word.bytes()) {
        Ok(line) => AdviceFault::Refused(line),
        Err(NoMemory) => AdviceFault::NoMemory,
    }
}

fn text_of(alloc: Global, version: &AskedVersion, next: Release) -> Result<Text, AdviceFault>
    ensures { IsVersionText version.now next result }
{
    match version_text(alloc, version.word.bytes(), next) {
        Ok(text) => Ok(text),
        Err(NoMemory) => Err(AdviceFault::NoMemory),
    }
}

// What follows a release, which is that of the version.
fn after(
    alloc: Global,
    version: &AskedVersion,
    last: Release,
    class: Class,
) -> Result<Text, AdviceFault>
    requires { version.now.release ≡ Some last }
    ensures { AnswersAdvice (Some version.now) class result }
{
    match next(last, class) {
        None => Err(no_version(alloc, version)),
        Some(next) => text_of(alloc, version, next),
    }
}

fn after_version(alloc: Global, version: &AskedVersion, class: Class) -> Result<Text, AdviceFault>
    ensures { AnswersAdvice (Some version.now) class result }
{
    match version.release {
        None => Err(no_release(alloc, version)),
        Some(last) => after(alloc, version, last, class),
    }
}

/// The text of the version that may follow after a change of this class, and an empty one where no version is given. A version that
/// isn't a release, or that none can follow, is refused.
pub fn advice(
    alloc: Global,
    version: &Option<AskedVersion>,
    class: Class,
) -> Result<Text, AdviceFault>
    ensures { AnswersAdvice version.now class result }
{
    match version {
        None => match Text::of(alloc, b"") {
            Ok(text) => Ok(text),
            Err(NoMemory) => Err(AdviceFault::NoMemory),
        },
        Some(version) => after_version(alloc, version, class),
    }
}
