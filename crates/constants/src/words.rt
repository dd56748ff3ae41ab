//! The words of an operation.
use go_base::memory::NoMemory;
use go_base::operator::CompareOp;
use go_base::text::Text;
use go_model::constants::value::{Basic, BinaryOp, Kind, UnaryOp, Untyped, Value};
use hex::FromHexError;
use std::alloc::{AllocError, Global};

/// Why a line has no answer.
#[derive(Debug, Drop)]
pub enum Refusal {
    NotAnOperation,
    NoMemory,
}

impl From<NoMemory> for Refusal {
    fn from(_: NoMemory) -> Refusal {
        Refusal::NoMemory
    }
}

impl From<AllocError> for Refusal {
    fn from(_: AllocError) -> Refusal {
        Refusal::NoMemory
    }
}

/// The basic type of this name.
pub fn basic(word: &str) -> Result<Basic, Refusal> {
    match word {
        "bool" => Ok(Basic::Bool),
        "int" => Ok(Basic::Int),
        "int8" => Ok(Basic::Int8),
        "int16" => Ok(Basic::Int16),
        "int32" => Ok(Basic::Int32),
        "int64" => Ok(Basic::Int64),
        "uint" => Ok(Basic::Uint),
        "uint8" => Ok(Basic::Uint8),
        "uint16" => Ok(Basic::Uint16),
        "uint32" => Ok(Basic::Uint32),
        "uint64" => Ok(Basic::Uint64),
        "uintptr" => Ok(Basic::Uintptr),
        "float32" => Ok(Basic::Float32),
        "float64" => Ok(Basic::Float64),
        "complex64" => Ok(Basic::Complex64),
        "complex128" => Ok(Basic::Complex128),
        "string" => Ok(Basic::Str),
        _ => Err(Refusal::NotAnOperation),
    }
}

/// The kind of this name.
pub fn kind(word: &str) -> Result<Kind, Refusal> {
    match word {
        "untyped-int" => Ok(Kind::Loose(Untyped::IntKind)),
        "untyped-rune" => Ok(Kind::Loose(Untyped::RuneKind)),
        "untyped-string" => Ok(Kind::Loose(Untyped::StrKind)),
        "untyped-bool" => Ok(Kind::Loose(Untyped::BoolKind)),
        _ => Ok(Kind::Typed(basic(word)?)),
    }
}

/// The operator before a value.
pub fn unary_op(word: &str) -> Result<UnaryOp, Refusal> {
    match word {
        "+" => Ok(UnaryOp::Plus),
        "-" => Ok(UnaryOp::Minus),
        "^" => Ok(UnaryOp::Xor),
        "!" => Ok(UnaryOp::Not),
        _ => Err(Refusal::NotAnOperation),
    }
}

/// The operator between two values, besides the comparisons and the shifts.
pub fn binary_op(word: &str) -> Result<BinaryOp, Refusal> {
    match word {
        "+" => Ok(BinaryOp::Add),
        "-" => Ok(BinaryOp::Subtract),
        "*" => Ok(BinaryOp::Multiply),
        "/" => Ok(BinaryOp::Divide),
        "%" => Ok(BinaryOp::Remainder),
        "&" => Ok(BinaryOp::And),
        "|" => Ok(BinaryOp::Or),
        "^" => Ok(BinaryOp::Xor),
        "&^" => Ok(BinaryOp::AndNot),
        "&&" => Ok(BinaryOp::LogicalAnd),
        "||" => Ok(BinaryOp::LogicalOr),
        _ => Err(Refusal::NotAnOperation),
    }
}

/// Whether a shift goes to the left.
pub fn is_left(word: &str) -> Result<bool, Refusal> {
    match word {
        "<<" => Ok(true),
        ">>" => Ok(false),
        _ => Err(Refusal::NotAnOperation),
    }
}

/// The comparison.
pub fn compare_op(word: &str) -> Result<CompareOp, Refusal> {
    match word {
        "==" => Ok(CompareOp::Equal),
        "!=" => Ok(CompareOp::NotEqual),
        "<" => Ok(CompareOp::Less),
        "<=" => Ok(CompareOp::LessEqual),
        ">" => Ok(CompareOp::Greater),
        ">=" => Ok(CompareOp::GreaterEqual),
        _ => Err(Refusal::NotAnOperation),
    }
}

/// The size of `int`.
pub fn bits(word: &str) -> Result<u32, Refusal> {
    match word {
        "32" => Ok(32),
        "64" => Ok(64),
        _ => Err(Refusal::NotAnOperation),
    }
}

fn bytes(alloc: Global, digits: &str) -> Result<Vec<u8>, Refusal> {
    match hex::decode(alloc, digits) {
        Ok(bytes) => Ok(bytes),
        Err(FromHexError::OutOfMemory) => Err(Refusal::NoMemory),
        Err(_) => Err(Refusal::NotAnOperation),
    }
}

fn text(alloc: Global, word: &str) -> Result<Value, Refusal> {
    let Some((digits, count)) = word.split_once('*') else {
        return Ok(Value::Str(Text::from_vec(alloc, bytes(alloc, word)?)?));
    };
    let piece = bytes(alloc, digits)?;
    match count.parse::<usize>() {
        Ok(count) if count <= 65_536 => {
            let whole = piece.repeat(alloc, count)?;
            Ok(Value::Str(Text::from_vec(alloc, whole)?))
        }
        _ => Err(Refusal::NotAnOperation),
    }
}

fn number(digits: &str) -> Result<Value, Refusal> {
    match digits.parse::<i128>() {
        Ok(number) => Ok(Value::Int(number)),
        Err(_) => Err(Refusal::NotAnOperation),
    }
}

/// The value that the word is.
pub fn value(alloc: Global, word: &str) -> Result<Value, Refusal> {
    match word.split_once(':') {
        Some(("int", digits)) => number(digits),
        Some(("text", digits)) => text(alloc, digits),
        Some(("truth", "true")) => Ok(Value::Truth(true)),
        Some(("truth", "false")) => Ok(Value::Truth(false)),
        _ => Err(Refusal::NotAnOperation),
    }
}
