//! Lists of types, as those of a clause of a type switch.
ghost use Rattle.go_cursor.specs.Reading.{run, step_of};
ghost use Rattle.go_cursor.specs.Reads.{Reads};
ghost use Rattle.go_stmt_descent.specs.Statements as rules;
ghost use Rattle.go_syntax.specs.grammar.Terminals.{terminals};

use go_cursor::cursor::Cursor;
use go_cursor::error::ParseError;
use go_stmt_descent::go_exprs::readers::Readers;
use go_syntax::held::types::HeldTypes;
use go_syntax::token::TokenKind;

/// More types, each after a comma.
fn more_types(
    readers: &Readers,
    tokens: &mut Cursor<'_>,
    first: HeldTypes,
) -> Result<HeldTypes, ParseError>
    ensures { Reads (run (step_of (rules.type_item readers.now.height)) first (terminals tokens.old)) result tokens.new }
{
    let mut types = first;
    for _turn in 0..tokens.len() {
        if !tokens.begins(TokenKind::Comma) {
            return Ok(types);
        }
        tokens.advance();
        types.push(readers.type_(tokens)?)?;
    }
    Ok(types)
}

/// Types with commas between them.
#[tactic(auto, unfolding(go_stmt_descent::specs::Statements::types))]
pub fn types(readers: &Readers, tokens: &mut Cursor<'_>) -> Result<HeldTypes, ParseError>
    ensures { Reads (rules.types readers.now.height (terminals tokens.old)) result tokens.new }
{
    let mut first = HeldTypes::new(readers.alloc);
    first.push(readers.type_(tokens)?)?;
    more_types(readers, tokens, first)
}
