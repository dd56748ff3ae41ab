//! The text of the version that is advised.
ghost use Rattle.std.specs.Prelude.{◌≡◌, ◌++◌, OnOk, IfOk};
ghost use Rattle.std.specs.Fmt.{decimal};
ghost use Rattle.api_reports.specs.Reports.{release_text, v_of, version_text};

use api_advice::release::Release;
use go_base::memory::NoMemory;
use go_base::text::Text;
use itoa::Buffer;
use std::alloc::Global;

// The `v` in front of a version, where it is written so.
fn v_of(last: &[u8]) -> &'static [u8]
    ensures { result.now ≡ v_of last.now }
{
    match last {
        [b'v', ..] => b"v",
        _ => b"",
    }
}

fn add_number(text: &mut Vec<u8>, number: u64) -> Result<(), NoMemory>
    ensures { OnOk result (text.new.items ≡ text.old.items ++ decimal number) }
{
    let mut buffer = Buffer::new();
    text.extend_from_slice(buffer.format(number).as_bytes())?;
    Ok(())
}

fn add_release(text: &mut Vec<u8>, release: Release) -> Result<(), NoMemory>
    ensures { OnOk result (text.new.items ≡ text.old.items ++ release_text release) }
{
    add_number(text, release.major)?;
    text.push(b'.')?;
    add_number(text, release.minor)?;
    text.push(b'.')?;
    add_number(text, release.patch)
}

/// The text of the version that is advised, which is one line: a `v` stands in front of it where the last version is written so.
pub fn version_text(alloc: Global, last: &[u8], next: Release) -> Result<Text, NoMemory>
    ensures { IfOk result (λ text. text ≡ version_text last.now next) }
{
    let mut text = Vec::from_slice(alloc, b"version ")?;
    text.extend_from_slice(v_of(last))?;
    add_release(&mut text, next)?;
    text.push(b'\n')?;
    Text::from_vec(alloc, text)
}
