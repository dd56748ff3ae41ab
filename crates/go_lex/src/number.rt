//! Number literals at the start of some bytes.
ghost use Rattle.std.specs.Prelude.{◌≡◌, ◌<◌, ◌≤◌, ◌+◌, ℕ, length, drop, IfSome};
ghost use Rattle.go_syntax.specs.lexical.Numbers.{base_of};
ghost use Rattle.go_lex.specs.inner.NumberLengths.{is_mark, sign_len, exponent_len, fraction_len, joined_len, tail_len, imaginary_len, prefix_of, integer_len, number_kind, number_of, decimal_number, prefixed_number, number_at};

use crate::bytes::past;
use crate::digits::{digits_len, more_len};
use go_syntax::token::TokenKind;

/// A number literal: its kind and its length in bytes.
#[derive(Clone, Copy)]
pub struct Number {
    pub kind: TokenKind,
    pub len: usize,
}

fn is_mark(base: u32, b: u8) -> bool
    ensures { result ≡ is_mark base b }
{
    if base == 16 {
        b == b'p' || b == b'P'
    } else {
        b == b'e' || b == b'E'
    }
}

fn sign_len(bytes: &[u8]) -> usize
    ensures value { result ≡ sign_len bytes.now }
    ensures within { result ≤ length bytes.now }
{
    match bytes.first() {
        Some(b'+' | b'-') => 1,
        _ => 0,
    }
}

/// The length of the exponent of a literal of this base, or 0.
#[tactic(auto, unfolding(crate::specs::inner::NumberLengths::exponent_len))]
fn exponent_len(base: u32, bytes: &[u8]) -> usize
    ensures value { result ≡ exponent_len base bytes.now }
    ensures within { result ≤ length bytes.now }
{
    let Some((mark, rest)) = bytes.split_first() else {
        return 0;
    };
    if !is_mark(base, *mark) {
        return 0;
    }
    let sign = sign_len(rest);
    let digits = digits_len(10, past(rest, sign));
    if digits == 0 { 0 } else { 1 + sign + digits }
}

/// The length of the fraction with its point, or 0.
#[tactic(auto, unfolding(crate::specs::inner::NumberLengths::fraction_len))]
fn fraction_len(base: u32, bytes: &[u8]) -> usize
    ensures value { result ≡ fraction_len base bytes.now }
    ensures within { result ≤ length bytes.now }
{
    match bytes.split_first() {
        Some((b'.', rest)) => 1 + digits_len(base, rest),
        _ => 0,
    }
}

/// The length of fraction and exponent, where a literal of this base and digits has them.
fn joined_len(base: u32, whole: usize, fraction: usize, exponent: usize) -> usize
    requires { fraction + exponent < 4294967296 }
    ensures value { result ≡ joined_len base whole fraction exponent }
    ensures within { result ≤ fraction + exponent }
{
    if base == 10 {
        return fraction + exponent;
    }
    if base == 16 && exponent > 0 && (whole > 0 || fraction > 1) {
        return fraction + exponent;
    }
    0
}

#[tactic(auto, unfolding(crate::specs::inner::NumberLengths::tail_len))]
fn tail_len(base: u32, whole: usize, bytes: &[u8]) -> usize
    requires { length bytes.now < 4294967296 }
    ensures value { result ≡ tail_len base whole bytes.now }
    ensures within { result ≤ length bytes.now }
{
    let fraction = fraction_len(base, bytes);
    let exponent = exponent_len(base, past(bytes, fraction));
    joined_len(base, whole, fraction, exponent)
}

#[tactic(auto, unfolding(crate::specs::inner::NumberLengths::imaginary_len))]
fn imaginary_len(bytes: &[u8]) -> usize
    ensures value { result ≡ imaginary_len bytes.now }
    ensures within { result ≤ length bytes.now }
{
    match bytes.first() {
        Some(b'i') => 1,
        _ => 0,
    }
}

pub fn base_of(b: u8) -> Option<u32>
    ensures value { result ≡ base_of b }
    ensures some { IfSome result (λ base. 1 ≤ base) }
{
    match b {
        b'x' | b'X' => Some(16),
        b'o' | b'O' => Some(8),
        b'b' | b'B' => Some(2),
        _ => None,
    }
}

/// The base of the prefix.
fn prefix_of(bytes: &[u8]) -> Option<u32>
    ensures { result ≡ prefix_of bytes.now }
{
    match bytes.first() {
        Some(b'0') => match bytes.get(1) {
            Some(b) => base_of(*b),
            None => None,
        },
        _ => None,
    }
}

/// How many bytes an integer literal without a letter takes.
fn integer_len(bytes: &[u8]) -> usize
    ensures value { result ≡ integer_len bytes.now }
    ensures within { result ≤ length bytes.now }
{
    match bytes.first() {
        Some(b'0') => digits_len(8, bytes),
        Some(_) => digits_len(10, bytes),
        None => 0,
    }
}

fn number_kind(tail: usize, imaginary: usize) -> TokenKind
    ensures { result ≡ number_kind tail imaginary }
{
    if imaginary > 0 {
        return TokenKind::ImagLit;
    }
    if tail > 0 {
        TokenKind::FloatLit
    } else {
        TokenKind::IntLit
    }
}

fn number_of(int: usize, whole: usize, tail: usize, imaginary: usize) -> Number
    requires { (int < 4294967296) × (whole + tail + imaginary < 4294967296) }
    ensures value { result ≡ number_of int whole tail imaginary }
    ensures short { result.len < 4294967296 }
{
    let len = if tail + imaginary > 0 {
        whole + tail + imaginary
    } else {
        int
    };
    Number {
        kind: number_kind(tail, imaginary),
        len,
    }
}

/// The literal of digits to the base 10, or of octal ones.
#[tactic(auto, unfolding(crate::specs::inner::NumberLengths::decimal_number))]
fn decimal_number(bytes: &[u8]) -> Number
    requires { length bytes.now < 4294967296 }
    ensures { result ≡ decimal_number bytes.now }
{
    let whole = digits_len(10, bytes);
    let tail = tail_len(10, whole, past(bytes, whole));
    let imaginary = imaginary_len(past(bytes, whole + tail));
    number_of(integer_len(bytes), whole, tail, imaginary)
}

/// The literal behind a prefix.
#[tactic(auto, unfolding(crate::specs::inner::NumberLengths::prefixed_number))]
fn prefixed_number(base: u32, bytes: &[u8]) -> Option<Number>
    requires { length bytes.now < 4294967296 }
    ensures value { result ≡ prefixed_number base bytes.now }
    ensures short { IfSome result (λ n. n.len < 4294967296) }
{
    let whole = more_len(base, bytes);
    let tail = tail_len(base, whole, past(bytes, whole));
    let imaginary = imaginary_len(past(bytes, whole + tail));
    if whole + tail > 0 {
        Some(number_of(whole, whole, tail, imaginary))
    } else {
        None
    }
}

/// The longest number literal at the start of bytes that begin one.
#[tactic(auto, unfolding(crate::specs::inner::NumberLengths::number_at))]
pub fn number_at(bytes: &[u8]) -> Number
    requires { length bytes.now < 4294967296 }
    ensures { result ≡ number_at bytes.now }
{
    if let Some(base) = prefix_of(bytes) {
        if let Some(behind) = prefixed_number(base, past(bytes, 2)) {
            return Number {
                kind: behind.kind,
                len: 2 + behind.len,
            };
        }
    }
    decimal_number(bytes)
}
