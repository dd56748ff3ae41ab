//! Values of constants, the kinds that they are of, and the operators on them, after "Constants" and
//! "Constant expressions" of the Go specification.
ghost use Rattle.std.specs.Prelude.{◌≡◌, IfOk};

use go_base::memory::NoMemory;
use go_base::text::Text;
use std::alloc::Global;

/// The value of a constant. A value whose text has over 65,536 bytes is no constant's.
#[derive(Debug, Drop)]
pub enum Value {
    Int(i128),
    /// The bytes of the string, which need not be UTF-8.
    Str(Text),
    Truth(bool),
}

/// A predeclared boolean, numeric or string type. `byte` is `Uint8`, and `rune` is `Int32`.
#[derive(Clone, Copy, Debug, PartialEq, Eq)]
pub enum Basic {
    Bool,
    Int,
    Int8,
    Int16,
    Int32,
    Int64,
    Uint,
    Uint8,
    Uint16,
    Uint32,
    Uint64,
    Uintptr,
    Float32,
    Float64,
    Complex64,
    Complex128,
    Str,
}

/// The kind of an untyped constant.
#[derive(Clone, Copy, Debug, PartialEq, Eq)]
pub enum Untyped {
    IntKind,
    RuneKind,
    StrKind,
    BoolKind,
}

/// What a constant is of: a type, by the basic type underneath, or a kind of untyped constants.
#[derive(Clone, Copy, Debug, PartialEq, Eq)]
pub enum Kind {
    Typed(Basic),
    Loose(Untyped),
}

/// An operator on one value: `+`, `-`, `^` or `!`.
#[derive(Clone, Copy, Debug, PartialEq, Eq)]
pub enum UnaryOp {
    Plus,
    Minus,
    Xor,
    Not,
}

/// An operator on two values of one kind, besides the comparisons: `+`, `-`, `*`, `/`, `%`, `&`, `|`,
/// `^`, `&^`, `&&` or `||`.
#[derive(Clone, Copy, Debug, PartialEq, Eq)]
pub enum BinaryOp {
    Add,
    Subtract,
    Multiply,
    Divide,
    Remainder,
    And,
    Or,
    Xor,
    AndNot,
    LogicalAnd,
    LogicalOr,
}

impl Value {
    /// An equal value.
    pub fn copy(&self, alloc: Global) -> Result<Value, NoMemory>
        ensures { IfOk result (λ copied. copied ≡ self.now) }
    {
        match self {
            Value::Int(number) => Ok(Value::Int(*number)),
            Value::Str(text) => Ok(Value::Str(text.copy()?)),
            Value::Truth(truth) => Ok(Value::Truth(*truth)),
        }
    }
}
