//! The keywords.
ghost use Rattle.std.specs.Prelude.{◌≡◌};
ghost use Rattle.go_syntax.specs.lexical.Words.{kind_in, keyword_table, name_kind};
ghost use Rattle.go_lex.specs.inner.KeywordParts.{short_keywords, keywords_of_four, keywords_of_five, keywords_of_six, long_keywords};

use go_syntax::token::TokenKind;

/// The kind of a name: a keyword, or else an identifier.
pub fn name_kind(name: &[u8]) -> TokenKind
    ensures { result ≡ name_kind name.now }
{
    keyword_kind(name).unwrap_or(TokenKind::Ident)
}

fn keyword_kind(name: &[u8]) -> Option<TokenKind>
    ensures { result ≡ kind_in keyword_table name.now }
{
    if let Some(kind) = short_keyword(name) {
        return Some(kind);
    }
    if let Some(kind) = keyword_of_four(name) {
        return Some(kind);
    }
    if let Some(kind) = keyword_of_five(name) {
        return Some(kind);
    }
    if let Some(kind) = keyword_of_six(name) {
        return Some(kind);
    }
    long_keyword(name)
}

/// The keywords of two and three letters.
fn short_keyword(name: &[u8]) -> Option<TokenKind>
    ensures { result ≡ kind_in short_keywords name.now }
{
    if name == b"go".as_slice() {
        return Some(TokenKind::GoWord);
    }
    if name == b"if".as_slice() {
        return Some(TokenKind::IfWord);
    }
    if name == b"for".as_slice() {
        return Some(TokenKind::ForWord);
    }
    if name == b"map".as_slice() {
        return Some(TokenKind::MapWord);
    }
    if name == b"var".as_slice() {
        return Some(TokenKind::VarWord);
    }
    None
}

fn keyword_of_four(name: &[u8]) -> Option<TokenKind>
    ensures { result ≡ kind_in keywords_of_four name.now }
{
    if name == b"case".as_slice() {
        return Some(TokenKind::CaseWord);
    }
    if name == b"chan".as_slice() {
        return Some(TokenKind::ChanWord);
    }
    if name == b"else".as_slice() {
        return Some(TokenKind::ElseWord);
    }
    if name == b"func".as_slice() {
        return Some(TokenKind::FuncWord);
    }
    if name == b"goto".as_slice() {
        return Some(TokenKind::GotoWord);
    }
    if name == b"type".as_slice() {
        return Some(TokenKind::TypeWord);
    }
    None
}

fn keyword_of_five(name: &[u8]) -> Option<TokenKind>
    ensures { result ≡ kind_in keywords_of_five name.now }
{
    if name == b"break".as_slice() {
        return Some(TokenKind::BreakWord);
    }
    if name == b"const".as_slice() {
        return Some(TokenKind::ConstWord);
    }
    if name == b"defer".as_slice() {
        return Some(TokenKind::DeferWord);
    }
    if name == b"range".as_slice() {
        return Some(TokenKind::RangeWord);
    }
    None
}

fn keyword_of_six(name: &[u8]) -> Option<TokenKind>
    ensures { result ≡ kind_in keywords_of_six name.now }
{
    if name == b"import".as_slice() {
        return Some(TokenKind::ImportWord);
    }
    if name == b"return".as_slice() {
        return Some(TokenKind::ReturnWord);
    }
    if name == b"select".as_slice() {
        return Some(TokenKind::SelectWord);
    }
    if name == b"struct".as_slice() {
        return Some(TokenKind::StructWord);
    }
    if name == b"switch".as_slice() {
        return Some(TokenKind::SwitchWord);
    }
    None
}

/// The keywords of seven letters and more.
fn long_keyword(name: &[u8]) -> Option<TokenKind>
    ensures { result ≡ kind_in long_keywords name.now }
{
    if name == b"default".as_slice() {
        return Some(TokenKind::DefaultWord);
    }
    if name == b"package".as_slice() {
        return Some(TokenKind::PackageWord);
    }
    if name == b"continue".as_slice() {
        return Some(TokenKind::ContinueWord);
    }
    if name == b"interface".as_slice() {
        return Some(TokenKind::InterfaceWord);
    }
    if name == b"fallthrough".as_slice() {
        return Some(TokenKind::FallthroughWord);
    }
    None
}
