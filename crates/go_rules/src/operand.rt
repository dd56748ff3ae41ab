//! Operands of expressions.
use crate::predeclared::Predeclared;
use go_model::constants::value::{Untyped, Value};
use go_model::types::package::ConstTerm;
use go_model::types::term::Term;
use go_syntax::go_base::list::List;

/// How an expression stands for what it denotes, as in Go's package go/types.
#[derive(Clone, Copy, Debug, PartialEq, Eq)]
pub enum Mode {
    /// A call without results.
    NoValue,
    TypeName,
    Constant,
    /// An addressable value.
    Variable,
    /// Any other value.
    Plain,
    /// An element of a map, which can be assigned and isn't addressable.
    MapElement,
    Nil,
    Builtin,
    /// The results of a call with several.
    Tuple,
}

/// What an operand is of.
pub enum Shape {
    /// A value of this type, or this type itself.
    Of(Term),
    /// A constant, of a type or an untyped kind.
    Fixed(ConstTerm, Value),
    /// A value of an untyped kind that isn't constant.
    Loose(Untyped),
    /// Values of these types.
    Many(List<Term>),
    /// The builtin function.
    OfBuiltin(Predeclared),
    /// Nothing more.
    Empty,
}

impl Drop for Shape {
    fn drop(self) {
        match self {
            Shape::Of(_) => {}
            Shape::Fixed(_, _) => {}
            Shape::Loose(_) => {}
            Shape::Many(_) => {}
            Shape::OfBuiltin(_) => {}
            Shape::Empty => {}
        }
    }
}

/// What an expression is.
pub struct Operand {
    pub mode: Mode,
    pub shape: Shape,
}

impl Drop for Operand {
    fn drop(self) {
        let Operand { mode: _, shape: _ } = self;
    }
}
