//! Operators and punctuation at the start of some bytes.
ghost use Rattle.std.specs.Prelude.{◌≡◌, ◌≤◌, ◌<◌, [], ◌∷◌, length, take, IfSome};
ghost use Rattle.go_syntax.specs.lexical.Words.{kind_in, operators_of_three, operators_of_two, operators_of_one};
ghost use Rattle.go_lex.specs.inner.LongestOperators.{operator_at};

use go_syntax::token::TokenKind;

/// An operator: its kind and its length in bytes.
#[derive(Clone, Copy)]
pub struct Operator {
    pub kind: TokenKind,
    pub len: usize,
}

/// The longest operator at the start.
pub fn operator_at(bytes: &[u8]) -> Option<Operator>
    ensures { result ≡ operator_at bytes.now }
{
    let first = *bytes.first()?;
    if let Some(second) = bytes.get(1) {
        if let Some(third) = bytes.get(2) {
            if let Some(kind) = operator_of_three(first, *second, *third) {
                return Some(Operator { kind, len: 3 });
            }
        }
        if let Some(kind) = operator_of_two(first, *second) {
            return Some(Operator { kind, len: 2 });
        }
    }
    match operator_of_one(first) {
        Some(kind) => Some(Operator { kind, len: 1 }),
        None => None,
    }
}

#[tactic(auto, unfolding(go_syntax::specs::lexical::Words::operators_of_three))]
fn operator_of_three(a: u8, b: u8, c: u8) -> Option<TokenKind>
    ensures { result ≡ kind_in operators_of_three (a ∷ (b ∷ (c ∷ []))) }
{
    match (a, b, c) {
        (b'<', b'<', b'=') => Some(TokenKind::ShiftLeftAssign),
        (b'>', b'>', b'=') => Some(TokenKind::ShiftRightAssign),
        (b'&', b'^', b'=') => Some(TokenKind::AndNotAssign),
        (b'.', b'.', b'.') => Some(TokenKind::Ellipsis),
        _ => None,
    }
}

/// The operators of two bytes of which the second is `=`.
#[tactic(auto, unfolding(go_syntax::specs::lexical::Words::operators_of_two))]
fn operator_with_equals(a: u8) -> Option<TokenKind>
    ensures { result ≡ kind_in operators_of_two (a ∷ (61 ∷ [])) }
{
    match a {
        b'+' => Some(TokenKind::AddAssign),
        b'-' => Some(TokenKind::SubtractAssign),
        b'*' => Some(TokenKind::MultiplyAssign),
        b'/' => Some(TokenKind::DivideAssign),
        b'%' => Some(TokenKind::RemainderAssign),
        b'&' => Some(TokenKind::AndAssign),
        b'|' => Some(TokenKind::OrAssign),
        b'^' => Some(TokenKind::XorAssign),
        b'=' => Some(TokenKind::Equal),
        b'!' => Some(TokenKind::NotEqual),
        b'<' => Some(TokenKind::LessEqual),
        b'>' => Some(TokenKind::GreaterEqual),
        b':' => Some(TokenKind::Define),
        _ => None,
    }
}

#[tactic(auto, unfolding(go_syntax::specs::lexical::Words::operators_of_two))]
fn operator_of_two(a: u8, b: u8) -> Option<TokenKind>
    ensures { result ≡ kind_in operators_of_two (a ∷ (b ∷ [])) }
{
    match (a, b) {
        (b'<', b'<') => Some(TokenKind::ShiftLeft),
        (b'>', b'>') => Some(TokenKind::ShiftRight),
        (b'&', b'^') => Some(TokenKind::AndNot),
        (b'&', b'&') => Some(TokenKind::LogicalAnd),
        (b'|', b'|') => Some(TokenKind::LogicalOr),
        (b'<', b'-') => Some(TokenKind::Arrow),
        (b'+', b'+') => Some(TokenKind::Increment),
        (b'-', b'-') => Some(TokenKind::Decrement),
        (_, b'=') => operator_with_equals(a),
        _ => None,
    }
}

#[tactic(auto, unfolding(go_syntax::specs::lexical::Words::operators_of_one))]
fn operator_of_one(a: u8) -> Option<TokenKind>
    ensures { result ≡ kind_in operators_of_one (a ∷ []) }
{
    match a {
        b'+' => Some(TokenKind::Add),
        b'-' => Some(TokenKind::Subtract),
        b'*' => Some(TokenKind::Multiply),
        b'/' => Some(TokenKind::Divide),
        b'%' => Some(TokenKind::Remainder),
        b'&' => Some(TokenKind::And),
        b'|' => Some(TokenKind::Or),
        b'^' => Some(TokenKind::Xor),
        b'<' => Some(TokenKind::Less),
        b'>' => Some(TokenKind::Greater),
        b'=' => Some(TokenKind::Assign),
        b'!' => Some(TokenKind::Not),
        b'~' => Some(TokenKind::Tilde),
        b'(' => Some(TokenKind::LeftParen),
        b'[' => Some(TokenKind::LeftBracket),
        b'{' => Some(TokenKind::LeftBrace),
        b',' => Some(TokenKind::Comma),
        b'.' => Some(TokenKind::Period),
        b')' => Some(TokenKind::RightParen),
        b']' => Some(TokenKind::RightBracket),
        b'}' => Some(TokenKind::RightBrace),
        b';' => Some(TokenKind::Semicolon),
        b':' => Some(TokenKind::Colon),
        _ => None,
    }
}
