//! Tokens of Go, after "Tokens" of the Go specification's "Lexical elements".
use go_base::text::Text;

/// What a token is: a name, a literal, a keyword (its name and `Word`) or an operator, whose names
/// are those of Go's package `go/token` in whole words.
#[derive(Clone, Copy, Debug, PartialEq, Eq)]
pub enum TokenKind {
    Ident,
    IntLit,
    FloatLit,
    ImagLit,
    RuneLit,
    StrLit,

    BreakWord,
    CaseWord,
    ChanWord,
    ConstWord,
    ContinueWord,
    DefaultWord,
    DeferWord,
    ElseWord,
    FallthroughWord,
    ForWord,
    FuncWord,
    GoWord,
    GotoWord,
    IfWord,
    ImportWord,
    InterfaceWord,
    MapWord,
    PackageWord,
    RangeWord,
    ReturnWord,
    SelectWord,
    StructWord,
    SwitchWord,
    TypeWord,
    VarWord,

    Add,
    Subtract,
    Multiply,
    Divide,
    Remainder,
    And,
    Or,
    Xor,
    ShiftLeft,
    ShiftRight,
    AndNot,

    AddAssign,
    SubtractAssign,
    MultiplyAssign,
    DivideAssign,
    RemainderAssign,
    AndAssign,
    OrAssign,
    XorAssign,
    ShiftLeftAssign,
    ShiftRightAssign,
    AndNotAssign,

    LogicalAnd,
    LogicalOr,
    Arrow,
    Increment,
    Decrement,
    Equal,
    Less,
    Greater,
    Assign,
    Not,
    Tilde,
    NotEqual,
    LessEqual,
    GreaterEqual,
    Define,
    Ellipsis,

    LeftParen,
    LeftBracket,
    LeftBrace,
    Comma,
    Period,
    RightParen,
    RightBracket,
    RightBrace,
    Semicolon,
    Colon,
}

/// What a lexeme is, in the cut of a file into white space and tokens: white space that only
/// separates tokens, what acts like a newline, or a token.
#[derive(Clone, Copy, Debug, PartialEq, Eq)]
pub enum LexemeKind {
    Blank,
    Newline,
    Token(TokenKind),
}

/// What a character or an escape of a rune or string literal stands for.
#[derive(Clone, Copy, Debug, PartialEq, Eq)]
pub enum Meaning {
    Character(char),
    Byte(u8),
}

/// What a token says besides its kind. Keywords, operators, floating and imaginary literals say
/// nothing.
#[derive(Drop)]
pub enum TokenValue {
    Nothing,
    /// The name's bytes.
    Ident(Text),
    /// The value of an integer literal up to 170141183460469231731687303715884105727.
    Number(i128),
    /// An integer literal past that.
    Wide,
    /// The character of a rune literal.
    Rune(u32),
    /// The bytes that a string literal stands for.
    Str(Text),
}

/// A token and its place: byte offsets in its file, from 0, the end after the last byte. An
/// inserted semicolon has the end of the token before it as start and end.
#[derive(Drop)]
pub struct Token {
    pub kind: TokenKind,
    pub start: u32,
    pub end: u32,
    pub inserted: bool,
    pub value: TokenValue,
}
