//! Characters and escapes at the start of some bytes.
ghost use Rattle.std.specs.Prelude.{◌≡◌, ◌<◌, ◌≤◌, ◌^◌, ◌∷◌, ◌⊎◌, length, take, IfSome, IsNone, IfNone, option_map};
ghost use Rattle.go_syntax.specs.lexical.Quotes.{is_plain, sign_of, count_of};
ghost use Rattle.go_lex.specs.inner.CharacterPrefixes.{HasCounted, HasNoCounted, IsOctal, HasNoOctal, IsHexadecimal, IsPoint, HasNoPoint, IsPlain, HasNoPlain, BeginsCharacter, BeginsEscape, BeginsNoCharacter};

use crate::digits::{digit_value, is_digit_of};
use go_base::characters::first_char;
use go_syntax::token::Meaning;

/// A character or an escape: its length in bytes and what it stands for.
#[derive(Clone, Copy)]
pub struct Character {
    pub len: usize,
    pub meaning: Meaning,
}

fn is_plain(quote: u8, c: char) -> bool
    ensures { result ≡ is_plain quote c }
{
    let c = c as u32;
    !(c == quote as u32 || c == 92 || c == 10 || c == 0)
}

/// The character that a letter or sign behind a backslash stands for.
fn sign_of(quote: u8, e: u8) -> Option<u8>
    ensures value { result ≡ sign_of quote e }
    ensures ascii { quote < 128 → IfSome result (λ c. c < 128) }
{
    match e {
        b'a' => Some(7),
        b'b' => Some(8),
        b'f' => Some(12),
        b'n' => Some(10),
        b'r' => Some(13),
        b't' => Some(9),
        b'v' => Some(11),
        b'\\' => Some(92),
        _ if e == quote => Some(quote),
        _ => None,
    }
}

/// How many hexadecimal digits of a character follow.
fn count_of(e: u8) -> Option<usize>
    ensures value { result ≡ count_of e }
    ensures short { IfSome result (λ n. n ≤ 8) }
{
    match e {
        b'u' => Some(4),
        b'U' => Some(8),
        _ => None,
    }
}

/// The value of exactly so many digits at the start.
fn counted(base: u32, count: usize, bytes: &[u8]) -> Option<u64>
    requires { (base ≤ 16) × (count ≤ 8) }
    ensures some { IfSome result (HasCounted base count bytes.now) }
    ensures none { IfNone result (HasNoCounted base count bytes.now) }
    ensures small { IfSome result (λ value. value < 16 ^ count) }
{
    if bytes.len() < count {
        return None;
    }
    let mut value = 0u64;
    for digit in &bytes[..count] {
        if !is_digit_of(base, *digit) {
            return None;
        }
        value = value * base as u64 + digit_value(*digit) as u64;
    }
    Some(value)
}

/// The escape that three octal digits make.
fn octal(rest: &[u8]) -> Option<Character>
    ensures some { IfSome result (IsOctal rest.now) }
    ensures none { IfNone result (HasNoOctal rest.now) }
{
    match counted(8, 3, rest) {
        Some(value) if value <= 255 => Some(Character {
            len: 4,
            meaning: Meaning::Byte(value as u8),
        }),
        _ => None,
    }
}

/// The escape of two hexadecimal digits behind `x`.
fn hexadecimal(more: &[u8]) -> Option<Character>
    ensures some { IfSome result (IsHexadecimal more.now) }
    ensures none { IfNone result (HasNoCounted 16 2 more.now) }
{
    match counted(16, 2, more) {
        Some(value) => Some(Character {
            len: 4,
            meaning: Meaning::Byte(value as u8),
        }),
        None => None,
    }
}

/// The escape of so many hexadecimal digits that write a character.
fn point(count: usize, more: &[u8]) -> Option<Character>
    requires { count ≤ 8 }
    ensures some { IfSome result (IsPoint count more.now) }
    ensures none { IfNone result (HasNoPoint count more.now) }
{
    match counted(16, count, more) {
        Some(value) if value < 1_114_112 => match char::from_u32(value as u32) {
            Some(c) => Some(Character {
                len: 2 + count,
                meaning: Meaning::Character(c),
            }),
            None => None,
        },
        _ => None,
    }
}

/// The escape behind a backslash.
fn escape(quote: u8, rest: &[u8]) -> Option<Character>
    requires { (quote ≡ 34) ⊎ (quote ≡ 39) }
    ensures some { IfSome result (BeginsEscape quote rest.now) }
    ensures none { IfNone result (BeginsNoCharacter quote (92 ∷ rest.now)) }
{
    let Some((e, more)) = rest.split_first() else {
        return None;
    };
    if let Some(c) = sign_of(quote, *e) {
        return Some(Character {
            len: 2,
            meaning: Meaning::Character(c as char),
        });
    }
    if *e == b'x' {
        return hexadecimal(more);
    }
    match count_of(*e) {
        Some(count) => point(count, more),
        None => octal(rest),
    }
}

/// The character at the start that stands for itself.
fn plain(quote: u8, bytes: &[u8]) -> Option<Character>
    ensures some { IfSome result (IsPlain quote bytes.now) }
    ensures none { IfNone result (HasNoPlain quote bytes.now) }
{
    match first_char(bytes) {
        Some(c) if is_plain(quote, c) => Some(Character {
            len: c.len_utf8(),
            meaning: Meaning::Character(c),
        }),
        _ => None,
    }
}

/// The character or escape at the start.
pub fn character_at(quote: u8, bytes: &[u8]) -> Option<Character>
    requires { (quote ≡ 34) ⊎ (quote ≡ 39) }
    ensures some { IfSome result (BeginsCharacter quote bytes.now) }
    ensures none { IfNone result (BeginsNoCharacter quote bytes.now) }
{
    let Some((b, rest)) = bytes.split_first() else {
        return None;
    };
    if *b == b'\\' {
        return escape(quote, rest);
    }
    plain(quote, bytes)
}
