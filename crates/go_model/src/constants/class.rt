//! Classes of kinds, and which operators a class has.
ghost use Rattle.std.specs.Prelude.{◌≡◌};
ghost use Rattle.go_model.specs.constants.Classes.{class_of, class_of_basic, integer_of, integer_of_kind, is_inexact};
ghost use Rattle.go_model.specs.constants.Operators.{binary_applies, comparison_applies, is_ordered, unary_applies};

use crate::constants::value::{Basic, BinaryOp, Kind, UnaryOp, Untyped};
use go_base::operator::CompareOp;

/// A group of kinds that have the same operators: the boolean, integer, float, complex or string ones.
#[derive(Clone, Copy, Debug, PartialEq, Eq)]
pub enum Class {
    Bool,
    Integer,
    Float,
    Complex,
    Str,
}

/// An integer type, by its number of bits.
#[derive(Clone, Copy, Debug, PartialEq, Eq)]
pub enum Integer {
    Signed(u32),
    Unsigned(u32),
}

impl Class {
    /// Whether its kinds are float or complex ones, of which there are no values here.
    pub fn is_inexact(self) -> bool
        ensures { result ≡ is_inexact self }
    {
        matches!(self, Class::Float | Class::Complex)
    }

    /// Whether the values of its kinds have an order: whether they are integers, floats or strings.
    pub fn is_ordered(self) -> bool
        ensures { result ≡ is_ordered self }
    {
        matches!(self, Class::Integer | Class::Float | Class::Str)
    }

    /// Whether values of its kinds can be compared so, where they can be compared at all.
    pub fn has_comparison(self, op: CompareOp) -> bool
        ensures { result ≡ comparison_applies op self }
    {
        match op {
            CompareOp::Equal | CompareOp::NotEqual => true,
            CompareOp::Less | CompareOp::LessEqual => self.is_ordered(),
            CompareOp::Greater | CompareOp::GreaterEqual => self.is_ordered(),
        }
    }
}

impl Basic {
    /// The class of the type.
    pub fn class(self) -> Class
        ensures { result ≡ class_of_basic self }
    {
        match self {
            Basic::Bool => Class::Bool,
            Basic::Int | Basic::Int8 | Basic::Int16 | Basic::Int32 | Basic::Int64 => Class::Integer,
            Basic::Uint | Basic::Uint8 | Basic::Uint16 | Basic::Uint32 | Basic::Uint64 =>
                Class::Integer,
            Basic::Uintptr => Class::Integer,
            Basic::Float32 | Basic::Float64 => Class::Float,
            Basic::Complex64 | Basic::Complex128 => Class::Complex,
            Basic::Str => Class::Str,
        }
    }

    /// The integer type that it is, where `int`, `uint` and `uintptr` have `bits` bits.
    pub fn integer(self, bits: u32) -> Option<Integer>
        ensures { result ≡ integer_of self bits }
    {
        match self {
            Basic::Int => Some(Integer::Signed(bits)),
            Basic::Int8 => Some(Integer::Signed(8)),
            Basic::Int16 => Some(Integer::Signed(16)),
            Basic::Int32 => Some(Integer::Signed(32)),
            Basic::Int64 => Some(Integer::Signed(64)),
            Basic::Uint | Basic::Uintptr => Some(Integer::Unsigned(bits)),
            Basic::Uint8 => Some(Integer::Unsigned(8)),
            Basic::Uint16 => Some(Integer::Unsigned(16)),
            Basic::Uint32 => Some(Integer::Unsigned(32)),
            Basic::Uint64 => Some(Integer::Unsigned(64)),
            Basic::Bool | Basic::Str => None,
            Basic::Float32 | Basic::Float64 | Basic::Complex64 | Basic::Complex128 => None,
        }
    }
}

impl Kind {
    /// The class of the kind.
    pub fn class(self) -> Class
        ensures { result ≡ class_of self }
    {
        match self {
            Kind::Typed(basic) => basic.class(),
            Kind::Loose(Untyped::IntKind) => Class::Integer,
            Kind::Loose(Untyped::RuneKind) => Class::Integer,
            Kind::Loose(Untyped::StrKind) => Class::Str,
            Kind::Loose(Untyped::BoolKind) => Class::Bool,
        }
    }

    /// The integer type that it is, where `int`, `uint` and `uintptr` have `bits` bits. An untyped kind
    /// is none.
    pub fn integer(self, bits: u32) -> Option<Integer>
        ensures { result ≡ integer_of_kind self bits }
    {
        match self {
            Kind::Typed(basic) => basic.integer(bits),
            Kind::Loose(_) => None,
        }
    }
}

impl UnaryOp {
    /// Whether kinds of the class have the operator.
    pub fn applies_to(self, class: Class) -> bool
        ensures { result ≡ unary_applies self class }
    {
        match (self, class) {
            (UnaryOp::Plus | UnaryOp::Minus, Class::Integer | Class::Float | Class::Complex) =>
                true,
            (UnaryOp::Xor, Class::Integer) => true,
            (UnaryOp::Not, Class::Bool) => true,
            _ => false,
        }
    }
}

impl BinaryOp {
    /// Whether kinds of the class have the operator.
    pub fn applies_to(self, class: Class) -> bool
        ensures { result ≡ binary_applies self class }
    {
        match class {
            Class::Bool => matches!(self, BinaryOp::LogicalAnd | BinaryOp::LogicalOr),
            Class::Integer => !matches!(self, BinaryOp::LogicalAnd | BinaryOp::LogicalOr),
            Class::Float | Class::Complex => matches!(
                self,
                BinaryOp::Add | BinaryOp::Subtract | BinaryOp::Multiply | BinaryOp::Divide
            ),
            Class::Str => matches!(self, BinaryOp::Add),
        }
    }
}
