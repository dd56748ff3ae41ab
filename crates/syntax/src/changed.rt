//! Sources whose tokens are changed, so that lists are read that no source has.
ghost use Rattle.std.specs.Prelude.{◌≤◌, length};

use crate::reading::{Reading, outline_of};
use frames::fault::Fault;
use go_lex::error::LexError;
use go_lex::scan::scan;
use go_syntax::token::{Token, TokenValue};
use std::alloc::Global;

/// What is changed of the tokens.
#[derive(Drop)]
pub enum Change {
    /// Only so many of the first ones are left.
    First(usize),
    /// The token of this number, from 0, says something else.
    Value(usize, TokenValue),
}

fn change_tokens(tokens: &mut Vec<Token>, change: Change) {
    match change {
        Change::First(count) => tokens.truncate(count),
        Change::Value(at, value) => {
            if let Some(token) = tokens.get_mut(at) {
                token.value = value;
            }
        }
    }
}

/// The tree of a source's tokens after the change, if they are in the grammar.
pub fn reading_of_changed(alloc: Global, source: &[u8], change: Change) -> Result<Reading, Fault>
    requires { length source.now ≤ 4194304 }
{
    match scan(alloc, source) {
        Ok(tokens) => {
            let mut tokens = tokens.into_vec();
            change_tokens(&mut tokens, change);
            outline_of(alloc, &tokens)
        }
        Err(LexError::BadToken(place)) => Ok(Reading::BadToken(place)),
        Err(LexError::NoMemory) => Err(Fault::NoMemory),
    }
}
