//! The parsed body of tokens.
ghost use Rattle.std.specs.Prelude.{◌≡◌, ◌≤◌, [], IfOk, IsErrOf, List};
ghost use Rattle.go_bodies.specs.Bodies.{HasBody};
ghost use Rattle.go_bodies.specs.Reading as rules;
ghost use Rattle.go_bodies.specs.Reads.{FindsBody};
ghost use Rattle.go_function_literals.specs.Places as places;
ghost use Rattle.go_function_literals.specs.StatementPlaces.{stmts_places};
ghost use Rattle.go_syntax.specs.declared.statement.ParsedBody.{ParsedBody};
ghost use Rattle.go_syntax.specs.declared.token.Token.{Token};
ghost use Rattle.go_syntax.specs.grammar.Terminals.{terminals};

use crate::braces::rise;
use crate::literals::blocks_in;
use go_cursor::cursor::Cursor;
use go_cursor::error::ParseError;
use go_function_literals::place::below;
use go_function_literals::statements::literals_of;
use go_stmts::go_exprs::readers::Readers;
use go_stmts::stmts::Stmts;
use go_syntax::held::statement::HeldStmts;
use go_syntax::statement::ParsedBody;
use go_syntax::token::Token;
use std::alloc::Global;

// A body has a height of at most 256.
const MAX_HEIGHT: usize = 256;

/// The body with this block, whose literals are read.
fn filled(
    alloc: Global,
    height: usize,
    tokens: &Cursor<'_>,
    block: HeldStmts,
) -> Result<ParsedBody, ParseError>
    requires { height ≤ 256 }
    ensures { FindsBody (rules.made block (rules.literals height (stmts_places block (places.below height)) (rules.progress (terminals tokens.now) []))) result }
{
    let stmts = block.take();
    let inner = literals_of(alloc, stmts.items(), below(height))?;
    let blocks = blocks_in(alloc, height, inner.items(), tokens)?;
    Ok(ParsedBody {
        block: stmts,
        literals: blocks.take(),
    })
}

/// The body of at most this height that these tokens are.
#[tactic(auto, unfolding(crate::specs::Reading::body))]
fn body(alloc: Global, height: usize, tokens: &Cursor<'_>) -> Result<ParsedBody, ParseError>
    requires { height ≤ 256 }
    ensures { FindsBody (rules.body height (terminals tokens.now)) result }
{
    let mut inside = tokens.fork();
    let readers = Readers { alloc, height };
    let block = Stmts { readers }.block(&mut inside)?;
    if inside.len() > 0 {
        return Err(ParseError::Syntax);
    }
    filled(alloc, height, tokens, block)
}

/// The body that these tokens are: its statements, and the block of each function literal in it. Answers `Syntax` exactly where
/// the tokens are no body, and `NoMemory` where memory is wanting.
pub fn parse_body(alloc: Global, tokens: &[Token]) -> Result<ParsedBody, ParseError>
    ensures tree { IfOk result (HasBody tokens.now) }
    ensures syntax { IsErrOf result ParseError.Syntax → (b : ParsedBody) → HasBody tokens.now b → ⊥ }
{
    let cursor = Cursor::new(tokens);
    if !rise(&cursor) {
        return Err(ParseError::Syntax);
    }
    body(alloc, MAX_HEIGHT, &cursor)
}

/// Tokens are at most one body.
pub fn one_body()
    ensures same { (tokens : List Token) (p q : ParsedBody) → HasBody tokens p → HasBody tokens q → p ≡ q }
{}
