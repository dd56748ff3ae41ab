//! A tree of an expression or a type, or a part of one.
use go_syntax::expression::{ElementValue, Expr, Post};
use go_syntax::types::{Signature, Type};

/// A tree of an expression or a type, or a part of one.
#[derive(Clone, Copy)]
pub enum Tree<'a> {
    Expr(&'a Expr),
    Post(&'a Post),
    /// A key or a value of a composite literal.
    Value(&'a ElementValue),
    Type(&'a Type),
    Signature(&'a Signature),
}
