//! The frames on an input. A frame is a question about a source, the source itself, and how it stands
//! there:
//!
//! ```text
//! LENGTH              a source without a question: its length in bytes in decimal digits, a newline, and
//!                     the bytes
//! QUESTION> SOURCE    on one line, with escapes in the source
//! # TEXT              no source but a comment
//! ```
ghost use Rattle.std.specs.Prelude.{◌≤◌, length, vec_items, IfOk, IfSome};

use crate::escape::unescaped;
use crate::fault::Fault;
use std::alloc::Global;
use std::io::{BufRead, BufReader, Read};

/// The most bytes that a source may have.
pub const LIMIT: usize = 4_194_304;

/// A question and its source; of a comment the line, and no source.
#[derive(Drop)]
pub struct Frame {
    pub words: Vec<u8>,
    pub source: Vec<u8>,
}

impl Frame {
    /// Whether it is a comment.
    pub fn is_comment(&self) -> bool {
        self.words.first() == Some(&b'#')
    }
}

/// The number that decimal digits say, if it is within the limit.
fn length_of(digits: &[u8]) -> Result<usize, Fault>
    ensures { IfOk result (λ n. n ≤ 4194304) }
{
    if !digits.iter().all(u8::is_ascii_digit) {
        return Err(Fault::Frame);
    }
    let Ok(text) = str::from_utf8(digits) else {
        return Err(Fault::Frame);
    };
    match text.parse::<usize>() {
        Ok(number) if number <= LIMIT => Ok(number),
        _ => Err(Fault::Frame),
    }
}

/// The frame that a line alone is, if it is one.
fn frame_of(alloc: Global, line: &[u8]) -> Result<Option<Frame>, Fault>
    ensures { IfOk result (λ found. IfSome found (λ frame. length (vec_items frame.source) ≤ 4194304)) }
{
    if line.first() == Some(&b'#') {
        return Ok(Some(Frame {
            words: Vec::from_slice(alloc, line)?,
            source: Vec::new(alloc),
        }));
    }
    let Some(at) = line.iter().position(|byte| *byte == b'>') else {
        return Ok(None);
    };
    let [b'>', b' ', text @ ..] = &line[at..] else {
        return Err(Fault::Frame);
    };
    let source = unescaped(alloc, text)?;
    if source.len() > LIMIT {
        return Err(Fault::Frame);
    }
    Ok(Some(Frame {
        words: Vec::from_slice(alloc, &line[..at])?,
        source,
    }))
}

/// The next frame; `None` at the end of the input.
pub fn read_frame<R: Read + Drop>(
    alloc: Global,
    input: &mut BufReader<R>,
) -> Result<Option<Frame>, Fault>
    ensures { IfOk result (λ found. IfSome found (λ frame. length (vec_items frame.source) ≤ 4194304)) }
{
    let mut line = Vec::new(alloc);
    if input.read_until(b'\n', &mut line)? == 0 {
        return Ok(None);
    }
    let [text @ .., b'\n'] = line.as_slice() else {
        return Err(Fault::Frame);
    };
    if let Some(frame) = frame_of(alloc, text)? {
        return Ok(Some(frame));
    }
    let count = length_of(text)?;
    let mut source = Vec::new(alloc);
    source.resize(count, 0)?;
    input.read_exact(&mut source)?;
    Ok(Some(Frame {
        words: Vec::new(alloc),
        source,
    }))
}
