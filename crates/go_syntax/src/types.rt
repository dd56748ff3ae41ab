//! Types as they are written.
use crate::expression::Expr;
use crate::name::{Name, QualifiedName};
use go_base::boxed::Box;
use go_base::list::List;
use go_base::text::Text;

/// A type.
#[cycle(syntax)]
#[derive(Drop)]
pub enum Type {
    Named(QualifiedName),
    Paren(Box<Type>),
    Pointer(Box<Type>),
    Slice(Box<Type>),
    Array(Box<Expr>, Box<Type>),
    Map(Box<Type>, Box<Type>),
    Chan(Box<Type>),
    /// `chan<- T`.
    SendChan(Box<Type>),
    /// `<-chan T`.
    ReceiveChan(Box<Type>),
    Func(Box<Signature>),
    Struct(List<FieldDecl>),
    Interface(List<InterfaceElem>),
}

/// Parameters and result.
#[cycle(syntax)]
#[derive(Drop)]
pub struct Signature {
    pub parameters: List<ParameterDecl>,
    pub result: Option<FuncResult>,
}

/// The result of a function: parameters in parentheses, or one type.
#[cycle(syntax)]
#[derive(Drop)]
pub enum FuncResult {
    Parameters(List<ParameterDecl>),
    Type(Type),
}

/// Parameters of one type: their names, which none of a list of parameters has or all have, and
/// whether `...` stands before the type.
#[cycle(syntax)]
#[derive(Drop)]
pub struct ParameterDecl {
    pub names: List<Name>,
    pub variadic: bool,
    pub type_: Type,
}

/// A field declaration, with its tag.
#[cycle(syntax)]
#[derive(Drop)]
pub enum FieldDecl {
    Named(List<Name>, Type, Option<Text>),
    /// Whether `*` stands before the name of the embedded type.
    Embedded(bool, QualifiedName, Option<Text>),
}

/// An element of an interface type.
#[cycle(syntax)]
#[derive(Drop)]
pub enum InterfaceElem {
    Method(Name, Signature),
    Embedded(QualifiedName),
}
