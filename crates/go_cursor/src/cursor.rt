//! The tokens that are left.
ghost use Rattle.std.specs.Prelude.{◌≡◌, ◌∷◌, [], IfOk, drop, length};
ghost use Rattle.go_syntax.specs.grammar.Terminals.{terminal, terminals};
ghost use Rattle.go_syntax.specs.grammar.Symbols as symbols;
ghost use Rattle.go_syntax.specs.grammar.Statements.{start_of};
ghost use Rattle.go_cursor.specs.Reading as reading;
ghost use Rattle.go_cursor.specs.Reads.{Reads};
ghost use Rattle.go_cursor.specs.Skipping as skipping;
ghost use Rattle.go_cursor.specs.LookAheads as look;

use crate::error::ParseError;
use go_syntax::expression::Literal;
use go_syntax::go_base::memory::NoMemory;
use go_syntax::go_base::text::Text;
use go_syntax::name::Name;
use go_syntax::token::{Token, TokenKind, TokenValue};
use std::alloc::Global;
use std::marker::Model;

/// The tokens that are left.
#[derive(Drop)]
pub struct Cursor<'a> {
    rest: &'a [Token],
}

impl<'a> Model for Cursor<'a> {
    ghost use Rattle.std.specs.Prelude.{List};
    ghost use Rattle.go_syntax.specs.declared.token.Token.{Token};

    ghost Value = { List Token };

    ghost view = { λ c. c.rest.now };
}

/// The keyword or operator that a token is.
fn sign_of(token: &Token) -> Option<TokenKind>
    ensures { result ≡ symbols.sign_of (terminal token.now) }
{
    match token.value {
        TokenValue::Nothing => silent(token.kind),
        _ => None,
    }
}

/// The kind, where it is of a keyword or an operator.
fn silent(kind: TokenKind) -> Option<TokenKind>
    ensures { result ≡ reading.silent_sign kind }
{
    match kind {
        TokenKind::Ident
        | TokenKind::IntLit
        | TokenKind::FloatLit
        | TokenKind::ImagLit
        | TokenKind::RuneLit
        | TokenKind::StrLit => None,
        _ => Some(kind),
    }
}

/// Whether a token is a name.
fn is_name(token: &Token) -> bool
    ensures { result ≡ reading.begins_name (terminal token.now ∷ []) }
{
    matches!(
        (token.kind, &token.value),
        (TokenKind::Ident, TokenValue::Ident(_))
    )
}

/// Whether a token's kind and value don't fit together.
fn is_odd(token: &Token) -> bool
    ensures { result ≡ reading.begins_odd (terminal token.now ∷ []) }
{
    match (token.kind, &token.value) {
        (TokenKind::Ident, TokenValue::Ident(_))
        | (TokenKind::IntLit, TokenValue::Wide)
        | (TokenKind::FloatLit | TokenKind::ImagLit, TokenValue::Nothing)
        | (TokenKind::RuneLit, TokenValue::Rune(_))
        | (TokenKind::StrLit, TokenValue::Str(_)) => false,
        (TokenKind::IntLit, TokenValue::Number(value)) => *value < 0,
        (TokenKind::Ident | TokenKind::IntLit | TokenKind::RuneLit | TokenKind::StrLit, _) => true,
        (_, TokenValue::Nothing) => false,
        _ => true,
    }
}

/// Whether a keyword or an operator but `<-` can begin a type.
fn opens_type(kind: TokenKind) -> bool
    ensures { result ≡ symbols.opens_type kind }
{
    matches!(
        kind,
        TokenKind::LeftParen
            | TokenKind::LeftBracket
            | TokenKind::Multiply
            | TokenKind::MapWord
            | TokenKind::ChanWord
            | TokenKind::FuncWord
            | TokenKind::StructWord
            | TokenKind::InterfaceWord
    )
}

/// The literal that a token is.
fn literal_of(token: &Token) -> Result<Option<Literal>, NoMemory>
    ensures { IfOk result (λ literal. literal ≡ reading.literal_at (terminal token.now ∷ [])) }
{
    match (token.kind, &token.value) {
        (TokenKind::IntLit, TokenValue::Number(value)) if *value >= 0 => {
            Ok(Some(Literal::Int(*value)))
        }
        (TokenKind::IntLit, TokenValue::Wide) => Ok(Some(Literal::Wide)),
        (TokenKind::FloatLit, TokenValue::Nothing) => Ok(Some(Literal::Float)),
        (TokenKind::ImagLit, TokenValue::Nothing) => Ok(Some(Literal::Imaginary)),
        (TokenKind::RuneLit, TokenValue::Rune(rune)) => Ok(Some(Literal::Rune(*rune))),
        (TokenKind::StrLit, TokenValue::Str(text)) => { Ok(Some(Literal::Str(text.copy()?))) }
        _ => Ok(None),
    }
}

/// The text of the string literal that a token is, and the byte offset at which it starts.
fn string_of(token: &Token) -> Result<Option<(Text, u32)>, NoMemory>
    ensures { IfOk result (λ string. string ≡ reading.string_at (terminal token.now ∷ [])) }
{
    match (token.kind, &token.value) {
        (TokenKind::StrLit, TokenValue::Str(text)) => { Ok(Some((text.copy()?, token.start))) }
        _ => Ok(None),
    }
}

/// The name that a token is.
fn name_of(token: &Token) -> Result<Option<Name>, NoMemory>
    ensures { IfOk result (λ name. name ≡ reading.name_of (terminal token.now)) }
{
    if !matches!(token.kind, TokenKind::Ident) {
        return Ok(None);
    }
    match &token.value {
        TokenValue::Ident(text) => Ok(Some(Name {
            text: text.copy()?,
            place: token.start,
        })),
        _ => Ok(None),
    }
}

/// The byte offset at which a token starts that is a keyword or an operator, or 0.
fn sign_start(token: &Token) -> u32
    ensures { result ≡ skipping.start_at (terminal token.now ∷ []) }
{
    match (token.kind, &token.value) {
        (
            TokenKind::Ident
            | TokenKind::IntLit
            | TokenKind::FloatLit
            | TokenKind::ImagLit
            | TokenKind::RuneLit
            | TokenKind::StrLit,
            _,
        ) => 0,
        (_, TokenValue::Nothing) => token.start,
        _ => 0,
    }
}

/// The byte offset at which a token starts, or 0 where its kind and value don't fit together.
fn place_of(token: &Token) -> u32
    ensures { result ≡ start_of (terminal token.now ∷ []) }
{
    match (token.kind, &token.value) {
        (TokenKind::Ident, TokenValue::Ident(_))
        | (TokenKind::IntLit, TokenValue::Wide)
        | (TokenKind::FloatLit | TokenKind::ImagLit, TokenValue::Nothing)
        | (TokenKind::RuneLit, TokenValue::Rune(_))
        | (TokenKind::StrLit, TokenValue::Str(_)) => token.start,
        (TokenKind::IntLit, TokenValue::Number(value)) if *value >= 0 => token.start,
        (TokenKind::Ident | TokenKind::IntLit | TokenKind::RuneLit | TokenKind::StrLit, _) => 0,
        (_, TokenValue::Nothing) => token.start,
        _ => 0,
    }
}

/// The byte offset at which a token ends that is a keyword or an operator, or 0.
fn end_of(token: &Token) -> u32
    ensures { result ≡ skipping.end_of (terminal token.now) }
{
    match (token.kind, &token.value) {
        (
            TokenKind::Ident
            | TokenKind::IntLit
            | TokenKind::FloatLit
            | TokenKind::ImagLit
            | TokenKind::RuneLit
            | TokenKind::StrLit,
            _,
        ) => 0,
        (_, TokenValue::Nothing) => token.end,
        _ => 0,
    }
}

impl<'a> Cursor<'a> {
    /// All of these tokens.
    pub fn new(tokens: &'a [Token]) -> Cursor<'a>
        ensures { result ≡ tokens.now }
    {
        Cursor { rest: tokens }
    }

    /// How many tokens are left.
    pub fn len(&self) -> usize
        ensures { result ≡ length (terminals self.now) }
    {
        self.rest.len()
    }

    /// The keyword or operator that the next token is.
    pub fn sign(&self) -> Option<TokenKind>
        ensures { result ≡ symbols.sign_at (terminals self.now) }
    {
        match self.rest.first() {
            None => None,
            Some(token) => sign_of(token),
        }
    }

    /// The same tokens, to look ahead in.
    pub fn fork(&self) -> Cursor<'a>
        ensures { result ≡ self.now }
    {
        Cursor { rest: self.rest }
    }

    /// Goes past a token.
    pub fn advance(&mut self)
        ensures { terminals self.new ≡ drop 1 (terminals self.old) }
    {
        if let Some((_, rest)) = self.rest.split_first() {
            self.rest = rest;
        }
    }

    /// Goes past two tokens.
    pub fn advance_twice(&mut self)
        ensures { terminals self.new ≡ drop 2 (terminals self.old) }
    {
        self.advance();
        self.advance();
    }

    /// Whether this keyword or operator is next.
    pub fn begins(&self, kind: TokenKind) -> bool
        ensures { result ≡ symbols.begins kind (terminals self.now) }
    {
        match self.sign() {
            None => false,
            Some(sign) => sign == kind,
        }
    }

    /// Goes past this keyword or operator.
    #[tactic(auto, unfolding(crate::specs::Reading::expect))]
    pub fn expect(&mut self, kind: TokenKind) -> Result<(), ParseError>
        ensures { Reads (reading.expect kind (terminals self.old)) result self.new }
    {
        if !self.begins(kind) {
            return Err(ParseError::Syntax);
        }
        self.advance();
        Ok(())
    }

    /// Goes past a name.
    pub fn name(&mut self, alloc: Global) -> Result<Name, ParseError>
        ensures { Reads (reading.name (terminals self.old)) result self.new }
    {
        match self.rest.split_first() {
            None => Err(ParseError::Syntax),
            Some((token, rest)) => match name_of(token)? {
                None => Err(ParseError::Syntax),
                Some(name) => {
                    self.rest = rest;
                    Ok(name)
                }
            },
        }
    }

    /// Goes past a keyword or an operator that may be missing.
    pub fn past(&mut self, kind: TokenKind)
        ensures { terminals self.new ≡ reading.past kind (terminals self.old) }
    {
        if self.begins(kind) {
            self.advance();
        }
    }

    /// Whether `)` or `}` is next.
    pub fn closes(&self) -> bool
        ensures { result ≡ symbols.closes (terminals self.now) }
    {
        matches!(
            self.sign(),
            Some(TokenKind::RightParen | TokenKind::RightBrace)
        )
    }

    /// Goes past the semicolon after an item of a list in brackets, which may be missing before the
    /// last bracket.
    #[tactic(auto, unfolding(crate::specs::Reading::ended))]
    pub fn ended(&mut self) -> Result<(), ParseError>
        ensures { Reads (reading.ended tt (terminals self.old)) result self.new }
    {
        if self.begins(TokenKind::Semicolon) {
            self.advance();
            return Ok(());
        }
        if self.closes() {
            return Ok(());
        }
        Err(ParseError::Syntax)
    }

    /// Whether a comma is next that another item follows.
    pub fn goes_on(&self) -> bool
        ensures { result ≡ reading.goes_on (terminals self.now) }
    {
        if !self.begins(TokenKind::Comma) {
            return false;
        }
        let mut ahead = self.fork();
        ahead.advance();
        !ahead.closes()
    }

    /// Whether a name is next.
    pub fn begins_name(&self) -> bool
        ensures { result ≡ reading.begins_name (terminals self.now) }
    {
        match self.rest.first() {
            None => false,
            Some(token) => is_name(token),
        }
    }

    /// Whether the next token's kind and value don't fit together.
    pub fn is_odd(&self) -> bool
        ensures { result ≡ reading.begins_odd (terminals self.now) }
    {
        match self.rest.first() {
            None => false,
            Some(token) => is_odd(token),
        }
    }

    /// Whether a type can begin here.
    pub fn begins_type(&self) -> bool
        ensures { result ≡ symbols.begins_type (terminals self.now) }
    {
        match self.sign() {
            None => self.begins_name(),
            Some(TokenKind::Arrow) => self.begins_receive(),
            Some(sign) => opens_type(sign),
        }
    }

    /// Whether `<-` and `chan` are next.
    pub fn begins_receive(&self) -> bool
        ensures { result ≡ look.begins_receive (terminals self.now) }
    {
        if !self.begins(TokenKind::Arrow) {
            return false;
        }
        let mut ahead = self.fork();
        ahead.advance();
        ahead.begins(TokenKind::ChanWord)
    }

    /// Whether `.` and a name are next.
    pub fn begins_selector(&self) -> bool
        ensures { result ≡ symbols.begins_selector (terminals self.now) }
    {
        if !self.begins(TokenKind::Period) {
            return false;
        }
        let mut ahead = self.fork();
        ahead.advance();
        ahead.begins_name()
    }

    /// Goes past `.` and a name that may be missing.
    pub fn past_selector(&mut self)
        ensures { terminals self.new ≡ skipping.past_name (terminals self.old) }
    {
        if self.begins_selector() {
            self.advance_twice();
        }
    }

    /// The literal that is next.
    pub fn literal(&self, alloc: Global) -> Result<Option<Literal>, NoMemory>
        ensures { IfOk result (λ literal. literal ≡ reading.literal_at (terminals self.now)) }
    {
        match self.rest.first() {
            None => Ok(None),
            Some(token) => literal_of(token),
        }
    }

    /// The text of the string literal that is next, and the byte offset at which it starts.
    pub fn string(&self, alloc: Global) -> Result<Option<(Text, u32)>, NoMemory>
        ensures { IfOk result (λ string. string ≡ reading.string_at (terminals self.now)) }
    {
        match self.rest.first() {
            None => Ok(None),
            Some(token) => string_of(token),
        }
    }

    /// The byte offset at which the next token starts, or 0 where none is left, or its kind and value don't fit together.
    pub fn place(&self) -> u32
        ensures { result ≡ start_of (terminals self.now) }
    {
        match self.rest.first() {
            None => 0,
            Some(token) => place_of(token),
        }
    }

    /// The byte offset at which the keyword or the operator that is next starts, or 0.
    pub fn start(&self) -> u32
        ensures { result ≡ skipping.start_at (terminals self.now) }
    {
        match self.rest.first() {
            None => 0,
            Some(token) => sign_start(token),
        }
    }

    /// The byte offset at which the keyword or the operator that is next ends, or 0.
    pub fn end(&self) -> u32
        ensures { result ≡ skipping.end_at (terminals self.now) }
    {
        match self.rest.first() {
            None => 0,
            Some(token) => end_of(token),
        }
    }
}
