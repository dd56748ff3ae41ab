//! Escapes: the bytes that a text stands for, and a text that stands for bytes.
use std::alloc::{AllocError, Global};

/// The most bytes of a text that are shown.
const SHOWN: usize = 300;

/// Where the reading of a text stands.
#[derive(Clone, Copy, Debug)]
enum Reading {
    /// Behind a byte or a whole escape.
    Plain,
    /// Behind a backslash.
    Backslash,
    /// Behind `\x`.
    Hexadecimal,
    /// Behind `\x` and a digit of this value.
    Digit(u8),
}

/// The value of a hexadecimal digit.
fn digit(byte: u8) -> Option<u8> {
    match byte {
        b'0'..=b'9' => Some(byte - b'0'),
        b'a'..=b'f' => Some(byte - b'a' + 10),
        _ => None,
    }
}

/// The byte for which a letter behind a backslash stands.
fn meant(letter: u8) -> Option<u8> {
    match letter {
        b'n' => Some(b'\n'),
        b'r' => Some(b'\r'),
        b't' => Some(b'\t'),
        b'\\' => Some(b'\\'),
        _ => None,
    }
}

// Reads one more byte, or nothing where a backslash begins no escape. `\e` stands for nothing, and so
// does a backslash before a newline with that newline.
fn read_byte(
    bytes: &mut Vec<u8>,
    reading: Reading,
    byte: u8,
) -> Result<Option<Reading>, AllocError> {
    let whole = match (reading, byte) {
        (Reading::Plain, b'\\') => return Ok(Some(Reading::Backslash)),
        (Reading::Plain, _) => Some(byte),
        (Reading::Backslash, b'\n' | b'e') => return Ok(Some(Reading::Plain)),
        (Reading::Backslash, b'x') => return Ok(Some(Reading::Hexadecimal)),
        (Reading::Backslash, _) => meant(byte),
        (Reading::Hexadecimal, _) => return Ok(digit(byte).map(Reading::Digit)),
        (Reading::Digit(high), _) => digit(byte).map(|low| (high << 4) | low),
    };
    match whole {
        Some(byte) => {
            bytes.push(byte)?;
            Ok(Some(Reading::Plain))
        }
        None => Ok(None),
    }
}

/// The bytes that a text stands for, or `None` where a backslash begins no escape.
pub fn unescaped(alloc: Global, text: &[u8]) -> Result<Option<Vec<u8>>, AllocError> {
    let mut bytes = Vec::new(alloc);
    let mut reading = Reading::Plain;
    for byte in text {
        match read_byte(&mut bytes, reading, *byte)? {
            Some(next) => reading = next,
            None => return Ok(None),
        }
    }
    match reading {
        Reading::Plain => Ok(Some(bytes)),
        _ => Ok(None),
    }
}

fn add_shown(alloc: Global, text: &mut String, byte: u8) -> Result<(), AllocError> {
    match byte {
        b'\n' => text.push_str("\\n"),
        b'\r' => text.push_str("\\r"),
        b'\t' => text.push_str("\\t"),
        b'\\' => text.push_str("\\\\"),
        b' '..=b'~' => text.push(char::from(byte)),
        _ => {
            let digits = format!(in alloc; "\\x{byte:02x}")?;
            text.push_str(digits.as_str())
        }
    }
}

/// The bytes in quotation marks, with escapes and as far as they are shown, or `nothing`.
pub fn quoted(alloc: Global, bytes: &[u8]) -> Result<String, AllocError> {
    if bytes.is_empty() {
        return String::from_str(alloc, "nothing");
    }
    let mut text = String::from_str(alloc, "\"")?;
    for (at, byte) in bytes.iter().enumerate() {
        if at >= SHOWN {
            text.push_str("\"..")?;
            return Ok(text);
        }
        add_shown(alloc, &mut text, *byte)?;
    }
    text.push_str("\"")?;
    Ok(text)
}
