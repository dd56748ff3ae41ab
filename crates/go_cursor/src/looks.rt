//! What the next tokens begin.
ghost use Rattle.std.specs.Prelude.{◌≡◌, true, if◌then◌else◌};
ghost use Rattle.go_syntax.specs.declared.token.TokenKind.TheVariants as kind;
ghost use Rattle.go_syntax.specs.grammar.Symbols as symbols;
ghost use Rattle.go_syntax.specs.grammar.Terminals.{terminals};
ghost use Rattle.go_cursor.specs.LookAheads as look;

use crate::cursor::Cursor;
use go_syntax::token::TokenKind;

/// Whether a type or `...` begins here.
fn begins_parameter(tokens: &Cursor<'_>) -> bool
    ensures { result ≡ (if symbols.begins kind.Ellipsis (terminals tokens.now) then true else symbols.begins_type (terminals tokens.now)) }
{
    if tokens.begins(TokenKind::Ellipsis) {
        return true;
    }
    tokens.begins_type()
}

/// Whether the names that begin here have a type: names with commas between them, and then a type
/// or `...`.
pub fn is_named(tokens: &Cursor<'_>) -> bool
    ensures { result ≡ look.is_named (terminals tokens.now) }
{
    let mut ahead = tokens.fork();
    for _turn in 0..tokens.len() {
        if !ahead.begins_name() {
            return false;
        }
        ahead.advance();
        if !ahead.begins(TokenKind::Comma) {
            return begins_parameter(&ahead);
        }
        ahead.advance();
    }
    false
}

/// Whether a list of names, and not an embedded field, begins here.
#[tactic(auto, using(crate::proofs::LookAheads::no_field, crate::proofs::LookAheads::some_field))]
pub fn names_field(tokens: &Cursor<'_>) -> bool
    ensures { result ≡ look.names_field (terminals tokens.now) }
{
    if !tokens.begins_name() {
        return false;
    }
    let mut ahead = tokens.fork();
    ahead.advance();
    if ahead.begins(TokenKind::Comma) {
        return true;
    }
    ahead.begins_type()
}

/// Whether a name and its parameters begin here.
#[tactic(auto, using(crate::proofs::LookAheads::no_method, crate::proofs::LookAheads::some_method))]
pub fn names_method(tokens: &Cursor<'_>) -> bool
    ensures { result ≡ look.names_method (terminals tokens.now) }
{
    if !tokens.begins_name() {
        return false;
    }
    let mut ahead = tokens.fork();
    ahead.advance();
    ahead.begins(TokenKind::LeftParen)
}

/// Whether a composite literal begins with a type's name here.
#[tactic(auto, using(crate::proofs::LookAheads::no_composite, crate::proofs::LookAheads::some_composite))]
pub fn names_composite(tokens: &Cursor<'_>) -> bool
    ensures { result ≡ look.names_composite (terminals tokens.now) }
{
    if !tokens.begins_name() {
        return false;
    }
    let mut ahead = tokens.fork();
    ahead.advance();
    ahead.past_selector();
    ahead.begins(TokenKind::LeftBrace)
}

/// Whether `.(type)` is next, the end of the operand of a type switch.
pub fn begins_type_switch(tokens: &Cursor<'_>) -> bool
    ensures { result ≡ look.begins_type_switch (terminals tokens.now) }
{
    if !tokens.begins(TokenKind::Period) {
        return false;
    }
    let mut ahead = tokens.fork();
    ahead.advance();
    if !ahead.begins(TokenKind::LeftParen) {
        return false;
    }
    ahead.advance();
    ahead.begins(TokenKind::TypeWord)
}
