//! The blocks of a file.
ghost use Rattle.std.specs.Prelude.{◌≡◌, ◌≤◌, List, IfOk, IsErrOf};
ghost use Rattle.go_cursor.specs.Skipping as skipping;
ghost use Rattle.go_file_blocks.specs.FileBlocks.{HasFileBlocks};
ghost use Rattle.go_file_blocks.specs.FileBlocks as file_rules;
ghost use Rattle.go_file_blocks.specs.FileReading as rules;
ghost use Rattle.go_bodies.specs.Reads.{HasRead};
ghost use Rattle.go_syntax.specs.declared.declaration.File.{File};
ghost use Rattle.go_syntax.specs.declared.statement.LiteralBlock.{LiteralBlock};
ghost use Rattle.go_syntax.specs.declared.token.Token.{Token};
ghost use Rattle.go_syntax.specs.grammar.Terminals.{terminals};

use go_base::list::List;
use go_base::memory::NoMemory;
use go_bodies::braces::{rise, to_brace};
use go_bodies::literals::blocks_in;
use go_cursor::cursor::Cursor;
use go_cursor::error::ParseError;
use go_cursor::skipping::skipped_body;
use go_function_literals::declarations::bodies_of;
use go_function_literals::place::LiteralPlace;
use go_syntax::body::BodyRange;
use go_syntax::declaration::File;
use go_syntax::held::statement::HeldLiteralBlocks;
use go_syntax::statement::LiteralBlock;
use go_syntax::token::Token;
use std::alloc::Global;

// A body has a height of at most 256.
const MAX_HEIGHT: usize = 256;

/// Whether the body that is skipped here ends where this one does.
fn is_range(alloc: Global, tokens: &Cursor<'_>, body: BodyRange) -> Result<bool, NoMemory>
    ensures { IfOk result (λ b. b ≡ rules.is_range (skipping.skipped_body (terminals tokens.now)) body) }
{
    let mut ahead = tokens.fork();
    match skipped_body(alloc, &mut ahead) {
        Ok(range) => Ok(range.end == body.end),
        Err(ParseError::Syntax) => Ok(false),
        Err(ParseError::NoMemory) => Err(NoMemory),
    }
}

/// Whether each of these bodies stands behind the one before it.
fn all_stand(alloc: Global, tokens: &Cursor<'_>, places: &[LiteralPlace]) -> Result<bool, NoMemory>
    ensures { IfOk result (λ b. b ≡ rules.all_stand (terminals tokens.now) places.now) }
{
    let mut ahead = tokens.fork();
    for place in places {
        to_brace(&mut ahead, place.body.start);
        if !is_range(alloc, &ahead, place.body)? {
            return Ok(false);
        }
        ahead.advance();
    }
    Ok(true)
}

/// The bodies of a file that stand in no other, each to be measured by itself.
fn file_bodies(alloc: Global, file: &File) -> Result<List<LiteralPlace>, NoMemory>
    ensures { IfOk result (λ found. found ≡ file_rules.file_bodies file.now) }
{
    let places = bodies_of(alloc, file, MAX_HEIGHT)?;
    let mut alone = List::new(alloc);
    for place in places.items() {
        alone.push(LiteralPlace {
            body: place.body,
            height: MAX_HEIGHT,
        })?;
    }
    Ok(alone)
}

/// The blocks of bodies of which none stands in another.
#[tactic(auto, unfolding(crate::specs::FileReading::blocks_of))]
fn blocks_of(
    alloc: Global,
    most: usize,
    places: &[LiteralPlace],
    tokens: &Cursor<'_>,
) -> Result<HeldLiteralBlocks, ParseError>
    requires { most ≤ 257 }
    ensures { HasRead (rules.blocks_of most places.now (terminals tokens.now)) result }
{
    if !all_stand(alloc, tokens, places)? {
        return Err(ParseError::Syntax);
    }
    blocks_in(alloc, most, places, tokens)
}

/// The same of a file.
fn read_blocks(
    alloc: Global,
    tokens: &Cursor<'_>,
    outline: &File,
) -> Result<HeldLiteralBlocks, ParseError>
    ensures { HasRead (rules.blocks_of 257 (file_rules.file_bodies outline.now) (terminals tokens.now)) result }
{
    let places = file_bodies(alloc, outline)?;
    blocks_of(alloc, MAX_HEIGHT + 1, places.items(), tokens)
}

/// The block of each function and of each function literal of a file with these tokens and this outline, in the order of their
/// places. Answers `Syntax` exactly where the file has none, as where a body isn't one, and `NoMemory` where memory is wanting.
pub fn file_blocks(
    alloc: Global,
    tokens: &[Token],
    outline: &File,
) -> Result<List<LiteralBlock>, ParseError>
    ensures blocks { IfOk result (HasFileBlocks tokens.now outline.now) }
    ensures syntax { IsErrOf result ParseError.Syntax → (bs : List LiteralBlock) → HasFileBlocks tokens.now outline.now bs → ⊥ }
{
    let cursor = Cursor::new(tokens);
    if !rise(&cursor) {
        return Err(ParseError::Syntax);
    }
    let blocks = read_blocks(alloc, &cursor, outline)?;
    Ok(blocks.take())
}

/// A file has at most one list of blocks.
pub fn one_list()
    ensures same { (tokens : List Token) (f : File) (bs cs : List LiteralBlock) → HasFileBlocks tokens f bs → HasFileBlocks tokens f cs → bs ≡ cs }
{}
