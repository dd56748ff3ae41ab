//! Digits at the start of some bytes.
ghost use Rattle.std.specs.Prelude.{◌≡◌, ◌≤◌, length};
ghost use Rattle.std.specs.Char.{digit_value};
ghost use Rattle.go_syntax.specs.lexical.Numbers.{is_digit_of};
ghost use Rattle.go_lex.specs.inner.DigitLengths.{begins_digit, goes_on, more_len, digits_len};

use crate::bytes::past;

/// What a digit or letter counts as a digit, or 36.
pub fn digit_value(b: u8) -> u32
    ensures { result ≡ digit_value b }
{
    match b {
        b'0'..=b'9' => (b - b'0') as u32,
        b'A'..=b'Z' => (b - b'A') as u32 + 10,
        b'a'..=b'z' => (b - b'a') as u32 + 10,
        _ => 36,
    }
}

pub fn is_digit_of(base: u32, b: u8) -> bool
    ensures { result ≡ is_digit_of base b }
{
    digit_value(b) < base
}

pub fn begins_digit(base: u32, bytes: &[u8]) -> bool
    ensures { result ≡ begins_digit base bytes.now }
{
    match bytes.first() {
        Some(b) => is_digit_of(base, *b),
        None => false,
    }
}

/// Whether the first byte goes on digits: a digit, or `_` before one.
fn goes_on(base: u32, bytes: &[u8]) -> bool
    ensures { result ≡ goes_on base bytes.now }
{
    match bytes.split_first() {
        Some((b, rest)) => is_digit_of(base, *b) || (*b == b'_' && begins_digit(base, rest)),
        None => false,
    }
}

/// How many bytes go on behind a digit.
pub fn more_len(base: u32, bytes: &[u8]) -> usize
    ensures value { result ≡ more_len base bytes.now }
    ensures within { result ≤ length bytes.now }
{
    let mut at = 0;
    while goes_on(base, past(bytes, at)) {
        at += 1;
    }
    at
}

/// How many bytes digits take at the start.
pub fn digits_len(base: u32, bytes: &[u8]) -> usize
    ensures value { result ≡ digits_len base bytes.now }
    ensures within { result ≤ length bytes.now }
{
    if begins_digit(base, bytes) {
        more_len(base, bytes)
    } else {
        0
    }
}
