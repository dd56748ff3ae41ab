//! The `{`s among tokens.
ghost use Rattle.std.specs.Prelude.{◌≡◌};
ghost use Rattle.go_bodies.specs.Braces as braces;
ghost use Rattle.go_syntax.specs.grammar.Terminals.{terminals};

use go_cursor::cursor::Cursor;
use go_syntax::token::TokenKind;

/// Whether a `{` of this offset is next.
fn opens(tokens: &Cursor<'_>, start: u32) -> bool
    ensures { result ≡ braces.opens start (terminals tokens.now) }
{
    if !tokens.begins(TokenKind::LeftBrace) {
        return false;
    }
    tokens.start() == start
}

/// Goes to the first `{` of this offset.
pub fn to_brace(tokens: &mut Cursor<'_>, start: u32)
    ensures { terminals tokens.new ≡ braces.from_brace start (terminals tokens.old) }
{
    for _turn in 0..tokens.len() {
        if opens(tokens, start) {
            return;
        }
        tokens.advance();
    }
}

/// The least offset that a `{` behind the next token may have, where the next one may have its own.
fn next_bound(tokens: &Cursor<'_>, least: u64) -> Option<u64>
    ensures { result ≡ braces.next_bound least (terminals tokens.now) }
{
    if !tokens.begins(TokenKind::LeftBrace) {
        return Some(least);
    }
    let start = u64::from(tokens.start());
    if least <= start {
        Some(start + 1)
    } else {
        None
    }
}

/// Whether the offsets of the `{`s rise.
pub fn rise(tokens: &Cursor<'_>) -> bool
    ensures { result ≡ braces.rises 0 (terminals tokens.now) }
{
    let mut ahead = tokens.fork();
    let mut least = 0;
    for _turn in 0..tokens.len() {
        match next_bound(&ahead, least) {
            None => return false,
            Some(bound) => {
                least = bound;
                ahead.advance();
            }
        }
    }
    true
}
