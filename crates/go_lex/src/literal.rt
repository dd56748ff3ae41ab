//! Rune and string literals at the start of some bytes, from behind their first quote.
ghost use Rattle.std.specs.Prelude.{◌≡◌, ◌<◌, ◌≤◌, ◌∷◌, length, IfSome, IfNone, not, ◌==◌};
ghost use Rattle.std.specs.List.{prefix_len};
ghost use Rattle.go_lex.specs.inner.OnlyTexts.{IsOnly, HasNone, IsRune, IsString, IsRaw};

use crate::bytes::{begins_byte, past};
use crate::quote::character_at;
use go_base::comments::text_len;

/// The length of the rune literal.
pub fn rune_len(behind: &[u8]) -> Option<usize>
    requires { length behind.now < 4294967296 }
    ensures some { IfSome result (IsOnly IsRune (39 ∷ behind.now)) }
    ensures none { IfNone result (HasNone IsRune (39 ∷ behind.now)) }
{
    let Some(c) = character_at(b'\'', behind) else {
        return None;
    };
    if begins_byte(b'\'', past(behind, c.len)) {
        Some(c.len + 2)
    } else {
        None
    }
}

/// The length of the string literal.
pub fn string_len(behind: &[u8]) -> Option<usize>
    requires { length behind.now < 4294967296 }
    ensures some { IfSome result (IsOnly IsString (34 ∷ behind.now)) }
    ensures none { IfNone result (HasNone IsString (34 ∷ behind.now)) }
{
    let mut at = 0;
    while let Some(c) = character_at(b'"', past(behind, at)) {
        at += c.len;
    }
    if begins_byte(b'"', past(behind, at)) {
        Some(at + 2)
    } else {
        None
    }
}

/// How many bytes stand before the next backquote.
fn before_backquote(behind: &[u8]) -> usize
    ensures value { result ≡ prefix_len (λ b. not (b == 96)) behind.now }
    ensures within { result ≤ length behind.now }
{
    behind.iter().take_while(|b| **b != b'`').count()
}

/// The length of the raw string literal.
pub fn raw_len(behind: &[u8]) -> Option<usize>
    requires { length behind.now < 4294967296 }
    ensures some { IfSome result (IsOnly IsRaw (96 ∷ behind.now)) }
    ensures none { IfNone result (HasNone IsRaw (96 ∷ behind.now)) }
{
    let len = before_backquote(behind);
    if len == behind.len() {
        return None;
    }
    match text_len(behind, len) {
        Some(len) => Some(len + 2),
        None => None,
    }
}
