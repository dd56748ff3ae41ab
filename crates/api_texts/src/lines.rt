//! The fault lines of what isn't read, and of versions that no other can follow.
ghost use Rattle.std.specs.Prelude.{◌≡◌, ◌++◌, IfOk, codes};
ghost use Rattle.std.specs.Fmt.{decimal};
ghost use Rattle.api_texts.specs.FaultLines.{fault_line, frozen_line, limit_text, load_line, no_version_line, not_release_line, side_name};

use go_base::memory::NoMemory;
use go_base::text::Text;
use go_load::error::LoadError;
use go_model::files::tree::LimitName;
use itoa::Buffer;
use std::alloc::Global;

/// A tree of a run, as fault lines name it.
#[derive(Clone, Copy, Debug, PartialEq, Eq)]
pub enum Side {
    /// The old tree of the module, and what is built of it.
    Old,
    /// The tree of the module, and what is built of it.
    New,
    /// The tree of the standard library.
    Std,
    /// The folder of a client.
    Client,
}

impl Side {
    /// Its name.
    pub fn name(self) -> &'static [u8]
        ensures { result.now ≡ side_name self }
    {
        match self {
            Side::Old => b"old",
            Side::New => b"new",
            Side::Std => b"std",
            Side::Client => b"client",
        }
    }
}

/// Why a file of frozen lines isn't read.
#[derive(Clone, Copy, Debug, PartialEq, Eq)]
pub enum FrozenFault {
    /// Nothing is at its path.
    Missing,
    /// It has too many bytes.
    TooLarge,
    /// At this offset begins no character.
    NotUtf8(u32),
    /// The line of this number, from 1, is neither a feature line nor skipped.
    NotALine(u32),
}

/// `apigate: SUBJECT: WHAT` and a newline.
pub fn fault_line(alloc: Global, subject: &[u8], what: &[u8]) -> Result<Text, NoMemory>
    ensures { IfOk result (λ line. line ≡ fault_line subject.now what.now) }
{
    let mut line = Vec::from_slice(alloc, b"apigate: ")?;
    line.extend_from_slice(subject)?;
    line.extend_from_slice(b": ")?;
    line.extend_from_slice(what)?;
    line.extend_from_slice(b"\n")?;
    Text::from_vec(alloc, line)
}

fn limit_text(name: LimitName) -> &'static [u8]
    ensures { result.now ≡ limit_text name }
{
    match name {
        LimitName::FileBytes => b"file-bytes",
        LimitName::Files => b"files",
        LimitName::Bytes => b"bytes",
        LimitName::Packages => b"packages",
        LimitName::Folders => b"folders",
    }
}

fn limit_line(alloc: Global, side: Side, name: LimitName, path: &[u8]) -> Result<Text, NoMemory>
    ensures { IfOk result (λ line. line ≡ fault_line (side_name side) (path.now ++ codes ": limit " ++ limit_text name)) }
{
    let mut what = Vec::from_slice(alloc, path)?;
    what.extend_from_slice(b": limit ")?;
    what.extend_from_slice(limit_text(name))?;
    fault_line(alloc, side.name(), &what)
}

/// The fault line of a tree that isn't loaded. A fault of reading and want of memory have lines of
/// their own.
pub fn load_line(alloc: Global, side: Side, error: &LoadError) -> Result<Text, NoMemory>
    ensures { IfOk result (λ line. line ≡ load_line side error.now) }
{
    match error {
        LoadError::Missing(_) => fault_line(alloc, side.name(), b"not found"),
        LoadError::NoModule => fault_line(alloc, side.name(), b"no go.mod"),
        LoadError::BadModule => fault_line(alloc, side.name(), b"no module line in go.mod"),
        LoadError::Limit(name, path) => limit_line(alloc, side, *name, path.bytes()),
        LoadError::ReadFault => fault_line(alloc, side.name(), b"read fault"),
        LoadError::NoMemory => fault_line(alloc, side.name(), b"out of memory"),
    }
}

// A text, and then a number.
fn numbered(alloc: Global, text: &[u8], number: u32) -> Result<Vec<u8>, NoMemory>
    ensures { IfOk result (λ all. all.items ≡ text.now ++ decimal number) }
{
    let mut buffer = Buffer::new();
    let mut all = Vec::from_slice(alloc, text)?;
    all.extend_from_slice(buffer.format(number).as_bytes())?;
    Ok(all)
}

fn offset_line(alloc: Global, path: &[u8], offset: u32) -> Result<Text, NoMemory>
    ensures { IfOk result (λ line. line ≡ fault_line path.now (codes "not UTF-8 at " ++ decimal offset)) }
{
    let what = numbered(alloc, b"not UTF-8 at ", offset)?;
    fault_line(alloc, path, &what)
}

fn number_line(alloc: Global, path: &[u8], number: u32) -> Result<Text, NoMemory>
    ensures { IfOk result (λ line. line ≡ fault_line (path.now ++ codes ":" ++ decimal number) (codes "not a feature line")) }
{
    let mut buffer = Buffer::new();
    let mut subject = Vec::from_slice(alloc, path)?;
    subject.extend_from_slice(b":")?;
    subject.extend_from_slice(buffer.format(number).as_bytes())?;
    fault_line(alloc, &subject, b"not a feature line")
}

/// The fault line of a file of frozen lines that isn't read.
pub fn frozen_line(alloc: Global, path: &[u8], fault: FrozenFault) -> Result<Text, NoMemory>
    ensures { IfOk result (λ line. line ≡ frozen_line path.now fault) }
{
    match fault {
        FrozenFault::Missing => fault_line(alloc, path, b"not found"),
        FrozenFault::TooLarge => fault_line(alloc, path, b"limit file-bytes"),
        FrozenFault::NotUtf8(offset) => offset_line(alloc, path, offset),
        FrozenFault::NotALine(number) => number_line(alloc, path, number),
    }
}

/// The fault line of a version, as it is written, that has a pre-release or build metadata.
pub fn not_release_line(alloc: Global, version: &[u8]) -> Result<Text, NoMemory>
    ensures { IfOk result (λ line. line ≡ not_release_line version.now) }
{
    let mut line = Vec::from_slice(alloc, b"apigate: version ")?;
    line.extend_from_slice(version)?;
    line.extend_from_slice(b" is not a release\n")?;
    Text::from_vec(alloc, line)
}

/// The fault line of a version, as it is written, whose number to raise is the last one.
pub fn no_version_line(alloc: Global, version: &[u8]) -> Result<Text, NoMemory>
    ensures { IfOk result (λ line. line ≡ no_version_line version.now) }
{
    let mut line = Vec::from_slice(alloc, b"apigate: no version follows ")?;
    line.extend_from_slice(version)?;
    line.extend_from_slice(b"\n")?;
    Text::from_vec(alloc, line)
}
