//! The longest lexeme at the start of some bytes.
ghost use Rattle.std.specs.Prelude.{◌≡◌, ◌<◌, ◌≤◌, length, IfSome, IfNone, None, ◌==◌};
ghost use Rattle.go_syntax.specs.declared.token.LexemeKind.TheVariants as lexeme;
ghost use Rattle.std.specs.List.{list_any};
ghost use Rattle.go_base.specs.Comments.{comment_len};
ghost use Rattle.go_syntax.specs.lexical.Lexemes.{comment_kind, BeginsNone};
ghost use Rattle.go_lex.specs.inner.Starts.{start_of};
ghost use Rattle.go_lex.specs.inner.LongestLexemes.{IsLongestAt, IsCommentAt};

use crate::bytes::{begins_byte, past};
use crate::digits::begins_digit;
use crate::keyword::name_kind;
use crate::literal::{raw_len, rune_len, string_len};
use crate::name::name_len;
use crate::number::number_at;
use crate::operator::operator_at;
use go_base::comments::comment_len;
use go_syntax::token::{LexemeKind, TokenKind};

/// What the first bytes tell of a lexeme: its class.
#[derive(Clone, Copy)]
enum Start {
    Blank,
    Newline,
    Comment,
    Number,
    Rune,
    Quoted,
    Raw,
    Name,
    Sign,
}

/// The longest lexeme that some bytes begin with.
#[derive(Clone, Copy)]
pub struct LongestLexeme {
    pub kind: LexemeKind,
    pub len: usize,
}

#[tactic(auto, unfolding(crate::specs::inner::Starts::start_of))]
fn start_of(bytes: &[u8]) -> Start
    ensures { result ≡ start_of bytes.now }
{
    let Some((b, rest)) = bytes.split_first() else {
        return Start::Sign;
    };
    match *b {
        b' ' | b'\t' | b'\r' => Start::Blank,
        b'\n' => Start::Newline,
        b'/' if begins_byte(b'/', rest) || begins_byte(b'*', rest) => Start::Comment,
        b'0'..=b'9' => Start::Number,
        b'.' if begins_digit(10, rest) => Start::Number,
        b'\'' => Start::Rune,
        b'"' => Start::Quoted,
        b'`' => Start::Raw,
        b'_' | b'A'..=b'Z' | b'a'..=b'z' | 128.. => Start::Name,
        _ => Start::Sign,
    }
}

fn holds_newline(text: &[u8]) -> bool
    ensures { result ≡ list_any (λ b. b == 10) text.now }
{
    text.iter().any(|b| *b == b'\n')
}

/// A line comment acts like a newline, and so does a general comment that holds one.
fn comment_kind(text: &[u8]) -> LexemeKind
    ensures { result ≡ comment_kind text.now }
{
    if text.starts_with(b"//") || holds_newline(text) {
        LexemeKind::Newline
    } else {
        LexemeKind::Blank
    }
}

/// The comment at the start.
fn comment_lexeme(bytes: &[u8]) -> Option<LongestLexeme>
    ensures some { IfSome result (IsCommentAt bytes.now) }
    ensures none { IfNone result (comment_len bytes.now ≡ None) }
{
    match comment_len(bytes) {
        Some(len) => Some(LongestLexeme {
            kind: comment_kind(&bytes[..len]),
            len,
        }),
        None => None,
    }
}

fn token_lexeme(kind: TokenKind, len: usize) -> LongestLexeme
    ensures { result ≡ record { kind = lexeme.Token kind; len = len } }
{
    LongestLexeme {
        kind: LexemeKind::Token(kind),
        len,
    }
}

/// The longest lexeme at the start.
pub fn longest_lexeme(bytes: &[u8]) -> Option<LongestLexeme>
    requires { (0 < length bytes.now) × (length bytes.now < 4294967296) }
    ensures some { IfSome result (λ f. IsLongestAt bytes.now f.kind f.len) }
    ensures none { IfNone result (BeginsNone bytes.now) }
{
    match start_of(bytes) {
        Start::Blank => Some(LongestLexeme {
            kind: LexemeKind::Blank,
            len: 1,
        }),
        Start::Newline => Some(LongestLexeme {
            kind: LexemeKind::Newline,
            len: 1,
        }),
        Start::Comment => comment_lexeme(bytes),
        Start::Number => {
            let number = number_at(bytes);
            Some(token_lexeme(number.kind, number.len))
        }
        Start::Rune => match rune_len(past(bytes, 1)) {
            Some(len) => Some(token_lexeme(TokenKind::RuneLit, len)),
            None => None,
        },
        Start::Quoted => match string_len(past(bytes, 1)) {
            Some(len) => Some(token_lexeme(TokenKind::StrLit, len)),
            None => None,
        },
        Start::Raw => match raw_len(past(bytes, 1)) {
            Some(len) => Some(token_lexeme(TokenKind::StrLit, len)),
            None => None,
        },
        Start::Name => match name_len(bytes) {
            Some(len) => Some(token_lexeme(name_kind(&bytes[..len]), len)),
            None => None,
        },
        Start::Sign => match operator_at(bytes) {
            Some(operator) => Some(token_lexeme(operator.kind, operator.len)),
            None => None,
        },
    }
}
