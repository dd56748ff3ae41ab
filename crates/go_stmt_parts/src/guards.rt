//! The guard of a type switch: a name that may be bound, and `.(type)`.
ghost use Rattle.std.specs.Prelude.{◌≡◌};
ghost use Rattle.go_cursor.specs.Reads.{Reads};
ghost use Rattle.go_stmt_descent.specs.Headers as header_rules;
ghost use Rattle.go_stmt_descent.specs.Statements as rules;
ghost use Rattle.go_syntax.specs.grammar.Terminals.{terminals};

use go_cursor::cursor::Cursor;
use go_cursor::error::ParseError;
use go_syntax::name::Name;
use go_syntax::token::TokenKind;
use std::alloc::Global;

/// Whether a name and `:=` are next.
#[tactic(auto, using(crate::proofs::LookAheads::no_binding, crate::proofs::LookAheads::some_binding))]
pub fn begins_binding(tokens: &Cursor<'_>) -> bool
    ensures { result ≡ header_rules.begins_binding (terminals tokens.now) }
{
    if !tokens.begins_name() {
        return false;
    }
    let mut ahead = tokens.fork();
    ahead.advance();
    ahead.begins(TokenKind::Define)
}

/// Goes past a name and `:=` that may be missing.
pub fn past_binding(tokens: &mut Cursor<'_>)
    ensures { terminals tokens.new ≡ header_rules.past_binding (terminals tokens.old) }
{
    if begins_binding(tokens) {
        tokens.advance_twice();
    }
}

/// A name and `:=` that may be missing.
#[tactic(auto, unfolding(go_stmt_descent::specs::Statements::binding, go_cursor::specs::Reading::close, go_cursor::specs::Reading::expect))]
pub fn binding(alloc: Global, tokens: &mut Cursor<'_>) -> Result<Option<Name>, ParseError>
    ensures { Reads (rules.binding (terminals tokens.old)) result tokens.new }
{
    if !begins_binding(tokens) {
        return Ok(None);
    }
    let name = tokens.name(alloc)?;
    tokens.expect(TokenKind::Define)?;
    Ok(Some(name))
}

/// `.(type)` and `{`.
#[tactic(auto, unfolding(go_stmt_descent::specs::Statements::guard_end))]
pub fn guard_end(tokens: &mut Cursor<'_>) -> Result<(), ParseError>
    ensures { Reads (rules.guard_end (terminals tokens.old)) result tokens.new }
{
    tokens.expect(TokenKind::Period)?;
    tokens.expect(TokenKind::LeftParen)?;
    tokens.expect(TokenKind::TypeWord)?;
    tokens.expect(TokenKind::RightParen)?;
    tokens.expect(TokenKind::LeftBrace)
}
