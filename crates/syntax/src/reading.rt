//! What a source is.
ghost use Rattle.std.specs.Prelude.{◌≤◌, length, IfOk};
ghost use Rattle.syntax.specs.Readings.{IsOutline, IsReading};

use frames::fault::Fault;
use go_lex::error::LexError;
use go_lex::scan::scan;
use go_parse::error::ParseError;
use go_parse::outline::parse_outline;
use go_syntax::declaration::File;
use go_syntax::token::Token;
use std::alloc::Global;

/// What a source is: a file's tree, no tokens from a place on, or tokens without a tree.
#[derive(Drop)]
pub enum Reading {
    Tree(File),
    BadToken(u32),
    Syntax,
}

/// The tree of tokens, if they are in the grammar.
pub fn outline_of(alloc: Global, tokens: &[Token]) -> Result<Reading, Fault>
    ensures { IfOk result (IsOutline tokens.now) }
{
    match parse_outline(alloc, tokens) {
        Ok(file) => Ok(Reading::Tree(file)),
        Err(ParseError::Syntax) => Ok(Reading::Syntax),
        Err(ParseError::NoMemory) => Err(Fault::NoMemory),
    }
}

/// The tree of a source, if its bytes are tokens and these are in the grammar.
pub fn reading_of(alloc: Global, source: &[u8]) -> Result<Reading, Fault>
    requires { length source.now ≤ 4194304 }
    ensures { IfOk result (IsReading source.now) }
{
    match scan(alloc, source) {
        Ok(tokens) => outline_of(alloc, tokens.items()),
        Err(LexError::BadToken(place)) => Ok(Reading::BadToken(place)),
        Err(LexError::NoMemory) => Err(Fault::NoMemory),
    }
}
