//! What the next tokens begin, where more than one of them says so.
ghost use Rattle.std.specs.Prelude.{◌≡◌};
ghost use Rattle.go_simple_stmts.specs.SimpleStatements as rules;
ghost use Rattle.go_syntax.specs.grammar.Terminals.{terminals};

use go_cursor::cursor::Cursor;
use go_syntax::token::TokenKind;

/// Whether names with commas between them begin here, and `:=` follows them.
pub fn begins_definition(tokens: &Cursor<'_>) -> bool
    ensures { result ≡ rules.begins_definition (terminals tokens.now) }
{
    let mut ahead = tokens.fork();
    for _turn in 0..tokens.len() {
        if !ahead.begins_name() {
            return false;
        }
        ahead.advance();
        if !ahead.begins(TokenKind::Comma) {
            return ahead.begins(TokenKind::Define);
        }
        ahead.advance();
    }
    false
}
