//! Expressions.
use crate::body::BodyRange;
use crate::name::Name;
use crate::types::{Signature, Type};
use go_base::boxed::Box;
use go_base::list::List;
use go_base::operator::{CompareOp, PrefixOperator, ProductOperator, SumOperator};
use go_base::text::Text;

/// An expression. The first five variants are chains of two operands and more: the first operand,
/// the operators before the others where they differ, and the others, as many as operators.
#[cycle(syntax)]
#[derive(Drop)]
pub enum Expr {
    Or(Box<Expr>, List<Expr>),
    And(Box<Expr>, List<Expr>),
    Compare(Box<Expr>, List<CompareOp>, List<Expr>),
    Sum(Box<Expr>, List<SumOperator>, List<Expr>),
    Product(Box<Expr>, List<ProductOperator>, List<Expr>),
    Prefix(PrefixOperator, Box<Expr>),
    /// An operand and what follows it, which is one post or more.
    Primary(Box<Expr>, List<Post>),
    Literal(Literal),
    Name(Name),
    /// The body, whose statements stand outside of this tree.
    FuncLit(Box<Signature>, BodyRange),
    Composite(Box<Type>, List<Element>),
    /// The element type of `[...]T`, and the elements.
    CompositeArray(Box<Type>, List<Element>),
    /// A type literal.
    Type(Box<Type>),
    Paren(Box<Expr>),
    /// The element type of `(<-chan T)`, the one type in parentheses that no expression begins.
    ParenReceiveChan(Box<Type>),
}

/// What follows an operand.
#[cycle(syntax)]
#[derive(Drop)]
pub enum Post {
    Selector(Name),
    TypeAssertion(Box<Type>),
    Index(Box<Expr>),
    Slice(Option<Box<Expr>>, Option<Box<Expr>>),
    FullSlice(Option<Box<Expr>>, Box<Expr>, Box<Expr>),
    /// The arguments, and whether `...` follows them.
    Call(List<Expr>, bool),
    /// A call whose first argument is `<-chan T`, with the element type and the other arguments.
    CallReceiveChan(Box<Type>, List<Expr>, bool),
}

/// A literal of one token.
#[derive(Drop)]
pub enum Literal {
    Int(i128),
    /// An integer literal past 170141183460469231731687303715884105727.
    Wide,
    Float,
    Imaginary,
    Rune(u32),
    Str(Text),
}

/// An element of a composite literal.
#[cycle(syntax)]
#[derive(Drop)]
pub struct Element {
    pub key: Option<ElementValue>,
    pub value: ElementValue,
}

/// A key or a value of a composite literal: an expression, or elements in braces.
#[cycle(syntax)]
#[derive(Drop)]
pub enum ElementValue {
    Value(Expr),
    Literal(List<Element>),
}
