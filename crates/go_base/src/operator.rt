//! Operators of expressions and statements.

/// An operator before an operand.
#[derive(Clone, Copy, Debug, PartialEq, Eq)]
pub enum PrefixOperator {
    Plus,
    Minus,
    Not,
    Xor,
    Dereference,
    Address,
    Receive,
}

/// A comparison.
#[derive(Clone, Copy, Debug, PartialEq, Eq)]
pub enum CompareOp {
    Equal,
    NotEqual,
    Less,
    LessEqual,
    Greater,
    GreaterEqual,
}

/// An operator between the terms of a sum.
#[derive(Clone, Copy, Debug, PartialEq, Eq)]
pub enum SumOperator {
    Add,
    Subtract,
    Or,
    Xor,
}

/// An operator between the factors of a product.
#[derive(Clone, Copy, Debug, PartialEq, Eq)]
pub enum ProductOperator {
    Multiply,
    Divide,
    Remainder,
    ShiftLeft,
    ShiftRight,
    And,
    AndNot,
}

/// The operator of an assignment such as `+=`.
#[derive(Clone, Copy, Debug, PartialEq, Eq)]
pub enum AssignOperator {
    Sum(SumOperator),
    Product(ProductOperator),
}

/// `++` or `--`.
#[derive(Clone, Copy, Debug, PartialEq, Eq)]
pub enum StepOperator {
    Increment,
    Decrement,
}
