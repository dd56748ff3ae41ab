//! Bytes that a text with escapes stands for.
ghost use Rattle.std.specs.Prelude.{◌<◌, ◌≤◌, length, IfSome};

use std::alloc::{AllocError, Global};

/// The value of a hexadecimal digit.
fn digit(byte: u8) -> Option<u8>
    ensures { IfSome result (λ d. d < 16) }
{
    match byte {
        b'0'..=b'9' => Some(byte - b'0'),
        b'a'..=b'f' => Some(byte - b'a' + 10),
        _ => None,
    }
}

/// The byte that an escape stands for, which begins behind its backslash, and how many bytes the
/// escape takes there.
fn escaped(rest: &[u8]) -> Option<(u8, usize)>
    ensures { IfSome result (λ e. e.1 ≤ length rest.now) }
{
    match rest {
        [b'n', ..] => Some((b'\n', 1)),
        [b'r', ..] => Some((b'\r', 1)),
        [b't', ..] => Some((b'\t', 1)),
        [b'\\', ..] => Some((b'\\', 1)),
        [b'x', high, low, ..] => Some((digit(*high)? * 16 + digit(*low)?, 3)),
        _ => None,
    }
}

/// The first byte that the text stands for, and how many bytes of the text stand for it.
fn first_byte(text: &[u8]) -> (u8, usize)
    requires { 0 < length text.now }
    ensures { (0 < result.1) × (result.1 ≤ length text.now) }
{
    if text[0] != b'\\' {
        return (text[0], 1);
    }
    match escaped(&text[1..]) {
        Some((meant, len)) => (meant, 1 + len),
        None => (text[0], 1),
    }
}

/// The bytes that the text stands for. A backslash that begins no escape stands for itself.
pub fn unescaped(alloc: Global, text: &[u8]) -> Result<Vec<u8>, AllocError> {
    let mut bytes = Vec::new(alloc);
    let mut at = 0;
    while at < text.len() {
        let (byte, len) = first_byte(&text[at..]);
        bytes.push(byte)?;
        at += len;
    }
    Ok(bytes)
}
