//! The tree of a text.
use go_cursor::cursor::Cursor;
use go_cursor::error::ParseError;
use go_exprs::readers::Readers;
use go_lex::error::LexError;
use go_lex::scan::scan;
use go_syntax::held::expression::HeldExpr;
use go_syntax::token::{Token, TokenKind};
use std::alloc::Global;
use worlds::refusal::Refusal;

const LONGEST: usize = 4_194_304;

const HEIGHT: usize = 257;

fn read(alloc: Global, cursor: &mut Cursor<'_>) -> Result<Option<HeldExpr>, Refusal> {
    let readers = Readers {
        alloc,
        height: HEIGHT,
    };
    match readers.expr(true, cursor) {
        Ok(expr) => Ok(Some(HeldExpr::new(expr))),
        Err(ParseError::NoMemory) => Err(Refusal::NoMemory),
        Err(_) => Ok(None),
    }
}

fn of_tokens(alloc: Global, tokens: &[Token]) -> Result<Option<HeldExpr>, Refusal> {
    let mut cursor = Cursor::new(tokens);
    let Some(held) = read(alloc, &mut cursor)? else {
        return Ok(None);
    };
    cursor.past(TokenKind::Semicolon);
    if cursor.len() != 0 {
        return Ok(None);
    }
    Ok(Some(held))
}

/// The expression that a text is; None where it is none.
pub fn tree(alloc: Global, text: &str) -> Result<Option<HeldExpr>, Refusal> {
    if text.len() > LONGEST {
        return Err(Refusal::WrongLine);
    }
    match scan(alloc, text.as_bytes()) {
        Ok(tokens) => of_tokens(alloc, tokens.items()),
        Err(LexError::BadToken(_)) => Ok(None),
        Err(LexError::NoMemory) => Err(Refusal::NoMemory),
    }
}
