//! The values of tokens.
ghost use Rattle.std.specs.Prelude.{◌≡◌, ◌≤◌, ◌<◌, ◌+◌, ◌*◌, ◌^◌, ◌++◌, ◌==◌, ℕ, List, not, length, IfOk, OnOk, SomeIff};
ghost use Rattle.std.specs.List.{filter};
ghost use Rattle.go_syntax.specs.lexical.Numbers.{value_from, integer_value};
ghost use Rattle.go_syntax.specs.lexical.Quotes.{meaning_bytes, meaning_number, AreCharacters, raw_bytes};
ghost use Rattle.go_syntax.specs.lexical.Lexemes.{number_value};
ghost use Rattle.go_lex.specs.inner.OnlyTexts.{IsRune, IsRuneOf};
ghost use Rattle.go_lex.specs.inner.DigitValues.{value_more};

use crate::bytes::past;
use crate::digits::digit_value;
use crate::number::base_of;
use crate::quote::character_at;
use go_base::memory::NoMemory;
use go_base::text::Text;
use go_syntax::token::{Meaning, TokenValue};
use std::alloc::Global;

const LIMIT: u128 = 1 << 127;

/// The value of an integer literal.
pub fn integer_value(text: &[u8]) -> TokenValue
    ensures { result ≡ number_value (integer_value text.now) }
{
    match narrow_integer(text) {
        Some(value) => TokenValue::Number(value as i128),
        None => TokenValue::Wide,
    }
}

/// The number that an integer literal writes, where it is below 2^127.
fn narrow_integer(text: &[u8]) -> Option<u128>
    ensures { SomeIff result (integer_value text.now < 2 ^ 127) (integer_value text.now) }
{
    let Some((b, rest)) = text.split_first() else {
        return Some(0);
    };
    if *b != b'0' {
        return narrow_value(10, text);
    }
    let Some((letter, digits)) = rest.split_first() else {
        return Some(0);
    };
    match base_of(*letter) {
        Some(base) => narrow_value(base, digits),
        None => narrow_value(8, rest),
    }
}

/// The number that the digits write, where it is below 2^127.
fn narrow_value(base: u32, digits: &[u8]) -> Option<u128>
    requires { 1 ≤ base }
    ensures { SomeIff result (value_from base 0 digits.now < 2 ^ 127) (value_from base 0 digits.now) }
{
    let mut value = 0u128;
    for b in digits {
        match with_byte(base, value, *b) {
            None => return None,
            Some(next) => value = next,
        }
    }
    Some(value)
}

/// The number with one more digit or `_`, where it is below 2^127.
fn with_byte(base: u32, value: u128, b: u8) -> Option<u128>
    requires { value < 2 ^ 127 }
    ensures { SomeIff result (value_more base value b < 2 ^ 127) (value_more base value b) }
{
    if b == b'_' {
        return Some(value);
    }
    let product = value.checked_mul(base as u128)?;
    let sum = product.checked_add(digit_value(b) as u128)?;
    if sum < LIMIT { Some(sum) } else { None }
}

fn meaning_number(meaning: Meaning) -> u32
    ensures { result ≡ meaning_number meaning }
{
    match meaning {
        Meaning::Character(c) => c as u32,
        Meaning::Byte(b) => b as u32,
    }
}

/// The number of a rune literal's character.
pub fn rune_number(text: &[u8]) -> u32
    requires { IsRune text.now }
    ensures { IsRuneOf text.now result }
{
    match character_at(b'\'', past(text, 1)) {
        Some(c) => meaning_number(c.meaning),
        None => 0,
    }
}

/// The bytes that the characters of a string literal stand for.
pub fn string_bytes(alloc: Global, inner: &[u8]) -> Result<Text, NoMemory>
    requires { (out : List ℕ) × AreCharacters 34 inner.now out }
    ensures { IfOk result (λ text. AreCharacters 34 inner.now text) }
{
    let mut out = Vec::new(alloc);
    let mut at = 0;
    while let Some(c) = character_at(b'"', past(inner, at)) {
        push_meaning(&mut out, c.meaning)?;
        at += c.len;
    }
    Text::from_vec(alloc, out)
}

fn push_meaning(out: &mut Vec<u8>, meaning: Meaning) -> Result<(), NoMemory>
    ensures { OnOk result (out.new.items ≡ out.old.items ++ meaning_bytes meaning) }
{
    match meaning {
        Meaning::Byte(b) => out.push(b)?,
        Meaning::Character(c) => {
            let mut buffer = [0u8; 4];
            out.extend_from_slice(c.encode_utf8(&mut buffer).as_bytes())?;
        }
    }
    Ok(())
}

/// The bytes of a raw string literal.
pub fn raw_bytes(alloc: Global, inner: &[u8]) -> Result<Text, NoMemory>
    ensures { IfOk result (λ text. text ≡ raw_bytes inner.now) }
{
    let bytes = inner
        .iter()
        .copied()
        .filter(|b| *b != b'\r')
        .collect(alloc)?;
    Text::from_vec(alloc, bytes)
}
