//! What is typed where a tree has a part of a lower height, and what it is.
use go_model::types::term::Term;
use go_rules::operand::Operand;
use go_syntax::expression::{Element, Expr};
use go_syntax::types::Type;

/// A part of a lower height.
#[derive(Clone, Copy)]
pub enum Part<'a> {
    Expr(&'a Expr),
    Type(&'a Type),
    /// The elements of a composite literal of a type.
    Elements(&'a Term, &'a [Element]),
}

/// What a part is; and whether a receive stands in it, or a call that is neither a conversion nor constant.
#[derive(Drop)]
pub enum Answer {
    Operand(Operand, bool),
    Type(Term, bool),
    /// The elements are those of a literal of the type.
    Elements(bool),
}
