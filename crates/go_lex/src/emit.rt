//! The tokens so far.
ghost use Rattle.std.specs.Prelude.{◌≡◌, ◌≤◌, ◌+◌, ◌-◌, ◌++◌, length, take, drop, None, IfOk, OnOk};
ghost use Rattle.go_syntax.specs.declared.token.LexemeKind.TheVariants as lexeme;
ghost use Rattle.go_syntax.specs.declared.token.TokenKind.TheVariants as token;
ghost use Rattle.go_syntax.specs.declared.token.TokenValue.TheVariants as value;
ghost use Rattle.go_syntax.specs.declared.token.TokenValue.{TokenValue};
ghost use Rattle.go_syntax.specs.lexical.Lexemes.{IsLexeme};
ghost use Rattle.go_syntax.specs.lexical.Tokens.{ends_line, inserted, lexeme_tokens, pending_after};
ghost use Rattle.go_lex.specs.inner.LongestLexemes.{Says};

use crate::bytes::begins_byte;
use crate::value::{integer_value, raw_bytes, rune_number, string_bytes};
use go_base::list::List;
use go_base::memory::NoMemory;
use go_base::text::Text;
use go_syntax::token::{LexemeKind, Token, TokenKind, TokenValue};
use std::alloc::Global;

/// The tokens so far, and the end of the line's last token, where a newline after that inserts a
/// semicolon.
#[derive(Drop)]
pub struct Emitter {
    pub tokens: List<Token>,
    pub pending: Option<u32>,
}

impl Emitter {
    /// The tokens of one more lexeme, which starts at this offset.
    pub fn emit(
        &mut self,
        alloc: Global,
        kind: LexemeKind,
        text: &[u8],
        start: u32,
    ) -> Result<(), NoMemory>
        requires short { start + length text.now ≤ 4194304 }
        requires lexeme { (said : TokenValue) × Says kind text.now said }
        ensures tokens { OnOk result ((said : TokenValue) × Says kind text.now said × (self.new.tokens ≡ self.old.tokens ++ lexeme_tokens kind said (length text.now) start self.old.pending)) }
        ensures pending { OnOk result (self.new.pending ≡ pending_after kind (start + length text.now) self.old.pending) }
    {
        match kind {
            LexemeKind::Blank => Ok(()),
            LexemeKind::Newline => self.end_line(),
            LexemeKind::Token(kind) => self.emit_token(alloc, kind, text, start),
        }
    }

    /// One more token, and whether it ends a line.
    fn emit_token(
        &mut self,
        alloc: Global,
        kind: TokenKind,
        text: &[u8],
        start: u32,
    ) -> Result<(), NoMemory>
        requires short { start + length text.now ≤ 4194304 }
        requires lexeme { (said : TokenValue) × IsLexeme (lexeme.Token kind) said text.now }
        ensures tokens { OnOk result ((said : TokenValue) × IsLexeme (lexeme.Token kind) said text.now × (self.new.tokens ≡ self.old.tokens ++ lexeme_tokens (lexeme.Token kind) said (length text.now) start self.old.pending)) }
        ensures pending { OnOk result (self.new.pending ≡ pending_after (lexeme.Token kind) (start + length text.now) self.old.pending) }
    {
        let end = start + text.len() as u32;
        let value = token_value(alloc, kind, text)?;
        self.tokens.push(Token {
            kind,
            start,
            end,
            inserted: false,
            value,
        })?;
        self.pending = if ends_line(kind) { Some(end) } else { None };
        Ok(())
    }

    /// The semicolon that a newline inserts.
    pub fn end_line(&mut self) -> Result<(), NoMemory>
        ensures tokens { OnOk result (self.new.tokens ≡ self.old.tokens ++ inserted self.old.pending) }
        ensures pending { OnOk result (self.new.pending ≡ None) }
    {
        if let Some(end) = self.pending.take() {
            self.tokens.push(Token {
                kind: TokenKind::Semicolon,
                start: end,
                end,
                inserted: true,
                value: TokenValue::Nothing,
            })?;
        }
        Ok(())
    }
}

/// What a token of this kind and text says.
fn token_value(alloc: Global, kind: TokenKind, text: &[u8]) -> Result<TokenValue, NoMemory>
    requires { (said : TokenValue) × IsLexeme (lexeme.Token kind) said text.now }
    ensures { IfOk result (λ value. IsLexeme (lexeme.Token kind) value text.now) }
{
    match kind {
        TokenKind::Ident => Ok(TokenValue::Ident(Text::of(alloc, text)?)),
        TokenKind::IntLit => Ok(integer_value(text)),
        TokenKind::RuneLit => Ok(TokenValue::Rune(rune_number(text))),
        TokenKind::StrLit => Ok(TokenValue::Str(string_text(alloc, text)?)),
        _ => Ok(TokenValue::Nothing),
    }
}

/// The bytes that a string literal stands for.
fn string_text(alloc: Global, text: &[u8]) -> Result<Text, NoMemory>
    requires { (said : TokenValue) × IsLexeme (lexeme.Token token.StrLit) said text.now }
    ensures { IfOk result (λ out. IsLexeme (lexeme.Token token.StrLit) (value.Str out) text.now) }
{
    let inner = between_quotes(text);
    if begins_byte(b'`', text) {
        raw_bytes(alloc, inner)
    } else {
        string_bytes(alloc, inner)
    }
}

/// The bytes between the quotes.
fn between_quotes(text: &[u8]) -> &[u8]
    requires { 2 ≤ length text.now }
    ensures { result.now ≡ take (length text.now - 2) (drop 1 text.now) }
{
    &text[1..text.len() - 1]
}

/// After a token of these kinds a newline inserts a semicolon.
fn ends_line(kind: TokenKind) -> bool
    ensures { result ≡ ends_line kind }
{
    matches!(
        kind,
        TokenKind::Ident
            | TokenKind::IntLit
            | TokenKind::FloatLit
            | TokenKind::ImagLit
            | TokenKind::RuneLit
            | TokenKind::StrLit
            | TokenKind::BreakWord
            | TokenKind::ContinueWord
            | TokenKind::FallthroughWord
            | TokenKind::ReturnWord
            | TokenKind::Increment
            | TokenKind::Decrement
            | TokenKind::RightParen
            | TokenKind::RightBracket
            | TokenKind::RightBrace
    )
}
