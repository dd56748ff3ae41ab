//! Balanced runs and types that are skipped.
ghost use Rattle.std.specs.Prelude.{◌≡◌, ◌∷◌, [], false, if◌then◌else◌, Some, None, reverse, IfOk};
ghost use Rattle.go_syntax.specs.grammar.Brackets as brackets;
ghost use Rattle.go_syntax.specs.grammar.Symbols as symbols;
ghost use Rattle.go_syntax.specs.grammar.Terminals.{terminals};
ghost use Rattle.go_cursor.specs.Reading.{run};
ghost use Rattle.go_cursor.specs.Reads.{Reads, ReadsTurn, Leaves};
ghost use Rattle.go_cursor.specs.Skipping as skipping;

use crate::cursor::Cursor;
use crate::error::ParseError;
use go_syntax::body::BodyRange;
use go_syntax::go_base::memory::NoMemory;
use go_syntax::token::TokenKind;
use std::alloc::Global;

/// The bracket that closes what this one opens.
fn closer(kind: TokenKind) -> Option<TokenKind>
    ensures { result ≡ brackets.closer kind }
{
    match kind {
        TokenKind::LeftParen => Some(TokenKind::RightParen),
        TokenKind::LeftBracket => Some(TokenKind::RightBracket),
        TokenKind::LeftBrace => Some(TokenKind::RightBrace),
        _ => None,
    }
}

/// Whether a keyword or an operator is no bracket.
fn no_bracket(kind: TokenKind) -> bool
    ensures { result ≡ brackets.no_bracket kind }
{
    !matches!(
        kind,
        TokenKind::LeftParen
            | TokenKind::LeftBracket
            | TokenKind::LeftBrace
            | TokenKind::RightParen
            | TokenKind::RightBracket
            | TokenKind::RightBrace
    )
}

/// Whether a closing bracket is the one that is wanted next, which is then no longer wanted.
fn closes_last(sign: TokenKind, wanted: &mut Vec<TokenKind>) -> bool
    ensures { skipping.after_closing sign (reverse wanted.old.items) ≡ (if result then Some (reverse wanted.new.items) else None) }
{
    match wanted.pop() {
        None => false,
        Some(closing) => closing == sign,
    }
}

/// What a keyword or an operator makes of the closing brackets that are still wanted, the next one
/// last: an opening bracket wants one more, and a closing one has to be the next. False where it
/// isn't.
fn after_sign(sign: TokenKind, wanted: &mut Vec<TokenKind>) -> Result<bool, NoMemory>
    ensures { Leaves (skipping.after_opening sign (brackets.closer sign) (reverse wanted.old.items)) result wanted.new.items }
{
    match closer(sign) {
        Some(closing) => {
            wanted.push(closing)?;
            Ok(true)
        }
        None => {
            if no_bracket(sign) {
                return Ok(true);
            }
            Ok(closes_last(sign, wanted))
        }
    }
}

/// The same of the next token. False also where its kind and value don't fit together.
fn after_next(tokens: &Cursor<'_>, wanted: &mut Vec<TokenKind>) -> Result<bool, NoMemory>
    ensures { Leaves (skipping.after_next (terminals tokens.now) (reverse wanted.old.items)) result wanted.new.items }
{
    match tokens.sign() {
        Some(sign) => after_sign(sign, wanted),
        None => Ok(!tokens.is_odd()),
    }
}

/// This closing bracket alone.
fn one(alloc: Global, closing: TokenKind) -> Result<Vec<TokenKind>, NoMemory>
    ensures { IfOk result (λ wanted. wanted.items ≡ closing ∷ []) }
{
    let mut wanted = Vec::new(alloc);
    wanted.push(closing)?;
    Ok(wanted)
}

/// Goes past what closes this bracket, and gives the byte offset at which that ends.
fn skip(alloc: Global, tokens: &mut Cursor<'_>, closing: TokenKind) -> Result<u32, ParseError>
    ensures { Reads (skipping.skip (terminals tokens.old) (closing ∷ [])) result tokens.new }
{
    let mut wanted = one(alloc, closing)?;
    for _turn in 0..tokens.len() {
        let fits = after_next(tokens, &mut wanted)?;
        if !fits {
            return Err(ParseError::Syntax);
        }
        if wanted.is_empty() {
            let end = tokens.end();
            tokens.advance();
            return Ok(end);
        }
        tokens.advance();
    }
    Err(ParseError::Syntax)
}

/// The bracket that closes the one that is next.
fn next_closer(tokens: &Cursor<'_>) -> Option<TokenKind>
    ensures { result ≡ skipping.closer_of (symbols.sign_at (terminals tokens.now)) }
{
    match tokens.sign() {
        None => None,
        Some(sign) => closer(sign),
    }
}

/// Goes past a bracket and what closes it, and gives the byte offset at which that ends.
pub fn bracketed(alloc: Global, tokens: &mut Cursor<'_>) -> Result<u32, ParseError>
    ensures { Reads (skipping.bracketed (terminals tokens.old)) result tokens.new }
{
    match next_closer(tokens) {
        None => Err(ParseError::Syntax),
        Some(closing) => {
            tokens.advance();
            skip(alloc, tokens, closing)
        }
    }
}

/// Goes past the body of a function.
#[tactic(auto, unfolding(crate::specs::Skipping::skipped_body))]
pub fn skipped_body(alloc: Global, tokens: &mut Cursor<'_>) -> Result<BodyRange, ParseError>
    ensures { Reads (skipping.skipped_body (terminals tokens.old)) result tokens.new }
{
    if !tokens.begins(TokenKind::LeftBrace) {
        return Err(ParseError::Syntax);
    }
    let start = tokens.start();
    let end = bracketed(alloc, tokens)?;
    Ok(BodyRange { start, end })
}

/// Goes past the parameters of a function type and its result where that is in brackets, and says
/// whether the type ends there.
fn past_signature(alloc: Global, tokens: &mut Cursor<'_>) -> Result<bool, ParseError>
    ensures { ReadsTurn (skipping.past_result (skipping.bracketed (terminals tokens.old))) result tokens.new }
{
    bracketed(alloc, tokens)?;
    if tokens.begins(TokenKind::LeftParen) {
        bracketed(alloc, tokens)?;
        return Ok(true);
    }
    Ok(!tokens.begins_type())
}

/// Goes past the name of a type.
fn past_named(tokens: &mut Cursor<'_>) -> Result<bool, ParseError>
    ensures { ReadsTurn (skipping.front_name (terminals tokens.old)) result tokens.new }
{
    if !tokens.begins_name() {
        return Err(ParseError::Syntax);
    }
    tokens.advance();
    tokens.past_selector();
    Ok(true)
}

/// Goes past the front of a type that this keyword or operator begins, and says whether the type
/// ends there.
fn past_sign(alloc: Global, tokens: &mut Cursor<'_>, sign: TokenKind) -> Result<bool, ParseError>
    ensures { ReadsTurn (skipping.front_of sign (terminals tokens.old)) result tokens.new }
{
    match sign {
        TokenKind::Multiply => {
            tokens.advance();
            Ok(false)
        }
        TokenKind::ChanWord => {
            tokens.advance();
            tokens.past(TokenKind::Arrow);
            Ok(false)
        }
        TokenKind::Arrow => {
            tokens.advance();
            if !tokens.begins(TokenKind::ChanWord) {
                return Err(ParseError::Syntax);
            }
            tokens.advance();
            Ok(false)
        }
        TokenKind::LeftBracket => {
            bracketed(alloc, tokens)?;
            Ok(false)
        }
        TokenKind::LeftParen => {
            bracketed(alloc, tokens)?;
            Ok(true)
        }
        TokenKind::MapWord => {
            tokens.advance();
            bracketed(alloc, tokens)?;
            Ok(false)
        }
        TokenKind::StructWord | TokenKind::InterfaceWord => {
            tokens.advance();
            bracketed(alloc, tokens)?;
            Ok(true)
        }
        TokenKind::FuncWord => {
            tokens.advance();
            past_signature(alloc, tokens)
        }
        _ => Err(ParseError::Syntax),
    }
}

/// Goes past a front of a type, and says whether the type ends there.
fn past_front(alloc: Global, tokens: &mut Cursor<'_>) -> Result<bool, ParseError>
    ensures { ReadsTurn (skipping.past_front (terminals tokens.old)) result tokens.new }
{
    match tokens.sign() {
        None => past_named(tokens),
        Some(sign) => past_sign(alloc, tokens, sign),
    }
}

/// Goes past a type.
fn past_type(alloc: Global, tokens: &mut Cursor<'_>) -> Result<bool, ParseError>
    ensures { Reads (run skipping.past_step false (terminals tokens.old)) result tokens.new }
{
    let mut last = false;
    for _turn in 0..tokens.len() {
        if last {
            return Ok(last);
        }
        last = past_front(alloc, tokens)?;
    }
    Ok(last)
}

/// Whether `{` directly follows the type that begins here.
#[tactic(auto, unfolding(crate::specs::Skipping::is_composite))]
pub fn is_composite(alloc: Global, tokens: &Cursor<'_>) -> Result<bool, NoMemory>
    ensures { IfOk result (λ b. b ≡ skipping.is_composite (terminals tokens.now)) }
{
    let mut ahead = tokens.fork();
    match past_type(alloc, &mut ahead) {
        Ok(_) => Ok(ahead.begins(TokenKind::LeftBrace)),
        Err(ParseError::Syntax) => Ok(false),
        Err(ParseError::NoMemory) => Err(NoMemory),
    }
}
