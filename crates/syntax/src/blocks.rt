//! The blocks of a file, written as trees of statements.
use crate::statement::push_stmts;
use crate::tree::push_word;
use frames::fault::Fault;
use go_file_blocks::blocks::file_blocks;
use go_parse::error::ParseError;
use go_syntax::declaration::File;
use go_syntax::statement::LiteralBlock;
use go_syntax::token::Token;
use std::alloc::{AllocError, Global};

fn push_blocks(
    alloc: Global,
    out: &mut Vec<u8>,
    blocks: &[LiteralBlock],
) -> Result<(), AllocError> {
    push_word(out, "(blocks")?;
    for block in blocks {
        let word = format!(in alloc; " (block@{}", block.start)?;
        push_word(out, word.as_str())?;
        push_stmts(alloc, out, block.block.items())?;
    }
    push_word(out, ")")
}

/// Writes the blocks of the functions and function literals of a file with these tokens, or that a body isn't one.
pub fn push_file_blocks(
    alloc: Global,
    out: &mut Vec<u8>,
    tokens: &[Token],
    file: &File,
) -> Result<(), Fault> {
    match file_blocks(alloc, tokens, file) {
        Ok(blocks) => Ok(push_blocks(alloc, out, blocks.items())?),
        Err(ParseError::Syntax) => Ok(push_word(out, "no-blocks")?),
        Err(ParseError::NoMemory) => Err(Fault::NoMemory),
    }
}
