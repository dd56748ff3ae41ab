//! Operators, read from tokens by recursive descent up to a height: prefix operators, and chains of operands by
//! precedence, over what reads a primary expression.
#![tactic(auto)]

pub mod operators;
