//! The blocks of function literals, each read at its place.
ghost use Rattle.std.specs.Prelude.{◌≡◌, ◌≤◌, ◌++◌, ◌∷◌, [], IfOk};
ghost use Rattle.go_bodies.specs.Reading as rules;
ghost use Rattle.go_bodies.specs.Reads.{Goes, HasRead, Opens};
ghost use Rattle.go_function_literals.specs.Places as places;
ghost use Rattle.go_function_literals.specs.StatementPlaces.{stmts_places};
ghost use Rattle.go_syntax.specs.grammar.ParsedBodies.{literal_block};
ghost use Rattle.go_syntax.specs.grammar.Terminals.{terminals};

use crate::braces::to_brace;
use go_base::list::List;
use go_base::memory::NoMemory;
use go_cursor::cursor::Cursor;
use go_cursor::error::ParseError;
use go_function_literals::place::{LiteralPlace, below};
use go_function_literals::statements::literals_of;
use go_stmts::go_exprs::readers::Readers;
use go_stmts::stmts::Stmts;
use go_syntax::held::statement::{HeldLiteralBlocks, HeldStmts};
use go_syntax::statement::LiteralBlock;
use std::alloc::Global;

/// The height of a literal's body, which is at most this one.
fn least(height: usize, most: usize) -> usize
    ensures least { result ≡ rules.least height most }
    ensures bounded { result ≤ most }
{
    if height <= most { height } else { most }
}

/// Keeps the block of a literal, and answers the places of those in it.
fn kept(
    alloc: Global,
    found: &mut HeldLiteralBlocks,
    start: u32,
    block: HeldStmts,
    height: usize,
) -> Result<List<LiteralPlace>, NoMemory>
    ensures { IfOk result (λ inner. (inner ≡ stmts_places block (places.below height)) × (found.new ≡ found.old ++ literal_block start block ∷ [])) }
{
    let stmts = block.take();
    let inner = literals_of(alloc, stmts.items(), below(height))?;
    found.push(LiteralBlock {
        start,
        block: stmts,
    })?;
    Ok(inner)
}

/// Reads the block of a literal, and answers the places of those in it.
#[tactic(auto, unfolding(crate::specs::Reading::opened))]
fn open_literal(
    alloc: Global,
    most: usize,
    place: &LiteralPlace,
    ahead: &mut Cursor<'_>,
    found: &mut HeldLiteralBlocks,
) -> Result<List<LiteralPlace>, ParseError>
    requires { most ≤ 257 }
    ensures { Opens (rules.opened most place.now (rules.progress (terminals ahead.old) found.old)) result ahead.new found.new }
{
    to_brace(ahead, place.body.start);
    let height = least(place.height, most);
    let mut inside = ahead.fork();
    let readers = Readers { alloc, height };
    let block = Stmts { readers }.block(&mut inside)?;
    ahead.advance();
    Ok(kept(alloc, found, place.body.start, block, height)?)
}

/// Reads the blocks of literals, each followed by those of the literals in it.
fn read(
    alloc: Global,
    most: usize,
    places: &[LiteralPlace],
    ahead: &mut Cursor<'_>,
    found: &mut HeldLiteralBlocks,
) -> Result<(), ParseError>
    requires { most ≤ 257 }
    ensures { Goes (rules.literals most places.now (rules.progress (terminals ahead.old) found.old)) result ahead.new found.new }
{
    for place in places {
        if most == 0 {
            return Err(ParseError::Syntax);
        }
        let inner = open_literal(alloc, most - 1, place, ahead, found)?;
        read(alloc, most - 1, inner.items(), ahead, found)?;
    }
    Ok(())
}

/// The blocks of literals among these tokens, each followed by those of the literals in it.
pub fn blocks_in(
    alloc: Global,
    most: usize,
    places: &[LiteralPlace],
    tokens: &Cursor<'_>,
) -> Result<HeldLiteralBlocks, ParseError>
    requires { most ≤ 257 }
    ensures { HasRead (rules.literals most places.now (rules.progress (terminals tokens.now) [])) result }
{
    let mut ahead = tokens.fork();
    let mut found = HeldLiteralBlocks::new(alloc);
    read(alloc, most, places, &mut ahead, &mut found)?;
    Ok(found)
}
