//! Files of frozen feature lines, and of exceptions.
ghost use Rattle.std.specs.Prelude.{◌≡◌, ◌<◌, ◌≤◌, ◌^◌, IfOk, IfErr, codes, length, map, slice_index_or};
ghost use Rattle.std.specs.List.{list_all};
ghost use Rattle.std.specs.Str.Lines.{lines};
ghost use Rattle.go_base.specs.Comments.{is_blank, starts_with};
ghost use Rattle.api_frozen.specs.FrozenFiles.{is_skipped, HasCause, IsCut, IsFrozenFile};
ghost use Rattle.api_frozen.specs.inner.Readings.{AddsLine, IsDigitsStart, Reads, ReadsLines};

use crate::error::FrozenError;
use crate::parts::parts_of;
use crate::shapes::Reading;
use go_base::list::List;
use go_base::memory::NoMemory;
use go_base::text::Text;
use std::alloc::{AllocError, Global};

fn is_comment(line: &[u8]) -> bool
    ensures { result ≡ starts_with (codes "#") line.now }
{
    line.starts_with(b"#")
}

fn has_blanks_alone(line: &[u8]) -> bool
    ensures { result ≡ list_all is_blank line.now }
{
    line.iter().all(|b| *b == b' ' || *b == b'\t')
}

fn is_skipped(line: &[u8]) -> bool
    ensures { result ≡ is_skipped line.now }
{
    is_comment(line) || has_blanks_alone(line)
}

// Where the digits at the end of a line begin.
fn digits_start(line: &[u8]) -> usize
    ensures { IsDigitsStart line.now result }
{
    let mut at = line.len();
    while at > 0 {
        if !line[at - 1].is_ascii_digit() {
            return at;
        }
        at -= 1;
    }
    at
}

// The line without the number of an issue at its end.
fn cut(line: &[u8]) -> &[u8]
    ensures { IsCut line.now result.now }
{
    let at = digits_start(line);
    if at == line.len() {
        return line;
    }
    if at < 2 {
        return line;
    }
    if line[at - 1] != b'#' {
        return line;
    }
    if line[at - 2] != b' ' {
        return line;
    }
    &line[..at - 2]
}

fn read_line<'a>(line: &'a [u8]) -> Reading<'a>
    ensures { Reads line.now result }
{
    if is_skipped(line) {
        return Reading::Skipped;
    }
    let text = cut(line);
    if parts_of(text).is_some() {
        return Reading::Feature(text);
    }
    Reading::Bad
}

// Adds what a line gives; false where the line is bad.
fn add_line(alloc: Global, texts: &mut List<Text>, line: &[u8]) -> Result<bool, NoMemory>
    ensures { IfOk result (AddsLine line.now texts.old texts.new) }
{
    match read_line(line) {
        Reading::Skipped => Ok(true),
        Reading::Feature(text) => {
            texts.push(Text::of(alloc, text)?)?;
            Ok(true)
        }
        Reading::Bad => Ok(false),
    }
}

fn lines_of<'a>(alloc: Global, text: &'a str) -> Result<Vec<&'a str>, AllocError>
    ensures { IfOk result (λ all. map (λ line. line.now) all.items ≡ lines text.now) }
{
    text.lines().collect(alloc)
}

fn line_at<'a>(lines: &[&'a str], at: usize) -> &'a [u8]
    requires { at < length lines.now }
    ensures { result.now ≡ slice_index_or (map (λ line. line.now) lines.now) at result.now }
{
    lines[at].as_bytes()
}

// The feature lines of the lines of a file, or the first line that is bad.
fn read_lines(alloc: Global, lines: &[&str]) -> Result<List<Text>, FrozenError>
    requires { length lines.now < 2 ^ 32 }
    ensures { ReadsLines (map (λ line. line.now) lines.now) result }
{
    let mut texts = List::new(alloc);
    for i in 0..lines.len() {
        let good = add_line(alloc, &mut texts, line_at(lines, i))?;
        if !good {
            return Err(FrozenError::NotALine((i + 1) as u32));
        }
    }
    Ok(texts)
}

/// The feature lines of a file, in order: comments and blank lines are skipped, and the number of an issue at the
/// end of a line is cut. It is refused exactly where a byte begins no character, or else where a line is neither
/// skipped nor a feature line; the first one is told. `NoMemory` may come at any time.
pub fn read_frozen(alloc: Global, bytes: &[u8]) -> Result<List<Text>, FrozenError>
    requires { length bytes.now ≤ 16777216 }
    ensures file { IfOk result (IsFrozenFile bytes.now) }
    ensures cause { IfErr result (HasCause bytes.now) }
{
    let text = match str::from_utf8(bytes) {
        Ok(text) => text,
        Err(error) => return Err(FrozenError::NotUtf8(error.valid_up_to() as u32)),
    };
    let lines = match lines_of(alloc, text) {
        Ok(lines) => lines,
        Err(_) => return Err(FrozenError::NoMemory),
    };
    match read_lines(alloc, &lines) {
        Ok(texts) => Ok(texts),
        Err(error) => Err(error),
    }
}
