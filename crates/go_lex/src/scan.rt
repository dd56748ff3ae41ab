//! The scanner, which goes over the bytes once.
ghost use Rattle.std.specs.Prelude.{◌≡◌, ◌≤◌, ◌-◌, ℕ, List, length, drop, IfOk, IfErr};
ghost use Rattle.go_syntax.specs.declared.token.Token.{Token};
ghost use Rattle.go_base.specs.Comments.{without_mark};
ghost use Rattle.go_syntax.specs.lexical.Lexemes.{CutTo, Lexeme, IsBadOffset};
ghost use Rattle.go_syntax.specs.lexical.Tokens.{IsTokens};
ghost use Rattle.go_lex.specs.Causes.{HasCause};

use crate::bytes::past;
use crate::emit::Emitter;
use crate::error::LexError;
use crate::longest::longest_lexeme;
use go_base::list::List;
use go_syntax::token::Token;
use std::alloc::Global;

/// The tokens of a file of at most 4,194,304 bytes, with the semicolons that newlines insert. A byte
/// order mark at the start is skipped.
///
/// `BadToken` comes exactly where the bytes can't be cut into longest lexemes, with the offset at
/// which the longest such prefix ends. `NoMemory` may come at any time.
pub fn scan(alloc: Global, bytes: &[u8]) -> Result<List<Token>, LexError>
    requires { length bytes.now ≤ 4194304 }
    ensures tokens { IfOk result (IsTokens bytes.now) }
    ensures cause { IfErr result (HasCause bytes.now) }
{
    let mut emitter = Emitter {
        tokens: List::new(alloc),
        pending: None,
    };
    let mut at = mark_len(bytes);
    while at < bytes.len() {
        let rest = past(bytes, at);
        let Some(lexeme) = longest_lexeme(rest) else {
            return Err(LexError::BadToken(at as u32));
        };
        emitter.emit(alloc, lexeme.kind, &rest[..lexeme.len], at as u32)?;
        at += lexeme.len;
    }
    emitter.end_line()?;
    let Emitter { tokens, pending: _ } = emitter;
    Ok(tokens)
}

/// The length of the byte order mark at the start, or 0.
fn mark_len(bytes: &[u8]) -> usize
    ensures value { without_mark bytes.now ≡ drop result bytes.now }
    ensures within { result ≤ length bytes.now }
{
    if bytes.starts_with(b"\xef\xbb\xbf") {
        3
    } else {
        0
    }
}
