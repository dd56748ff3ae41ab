//! Files and declarations.
use crate::body::BodyRange;
use crate::expression::Expr;
use crate::name::Name;
use crate::types::{ParameterDecl, Signature, Type};
use go_base::boxed::Box;
use go_base::list::List;
use go_base::text::Text;

/// A source file.
pub struct File {
    pub package: Name,
    pub imports: List<ImportSpec>,
    pub decls: List<Decl>,
}

// Written out, so that a crate that drops a file proves nothing of the types in it again.
impl Drop for File {
    fn drop(self) {
        let File {
            package: _,
            imports: _,
            decls: _,
        } = self;
    }
}

/// An import, and the byte offset of its path's first quote.
#[derive(Drop)]
pub struct ImportSpec {
    pub name: Option<Name>,
    pub path: Text,
    pub place: u32,
}

/// A declaration at package level.
#[derive(Drop)]
pub enum Decl {
    ConstGroup(List<ConstSpec>),
    VarGroup(List<VarSpec>),
    TypeGroup(List<TypeSpec>),
    /// Boxed, so that the other declarations are small.
    FuncDecl(Box<Func>),
}

/// Constants. One without values, which then has no type either, repeats type and values of the
/// nearest earlier spec of its group that has values.
#[derive(Drop)]
pub struct ConstSpec {
    pub names: List<Name>,
    pub type_: Option<Type>,
    pub values: List<Expr>,
}

/// Variables, with a type, values or both.
#[derive(Drop)]
pub struct VarSpec {
    pub names: List<Name>,
    pub type_: Option<Type>,
    pub values: List<Expr>,
}

/// A type declaration, and whether `=` makes it an alias.
#[derive(Drop)]
pub struct TypeSpec {
    pub name: Name,
    pub alias: bool,
    pub type_: Type,
}

/// A function, or with a receiver a method. A receiver is one parameter.
#[derive(Drop)]
pub struct Func {
    pub receiver: Option<ParameterDecl>,
    pub name: Name,
    pub signature: Signature,
    pub body: Option<BodyRange>,
}
