//! Declarations, borrowed from the syntax.
ghost use Rattle.std.specs.Prelude.{◌≡◌};

use go_syntax::declaration::{Func, TypeSpec, VarSpec};
use go_syntax::expression::Expr;
use go_syntax::name::Name;
use go_syntax::types::{ParameterDecl, Type};

/// The constants of a spec: its names, with the type and the values that it has or repeats, and its place in its
/// group.
#[derive(Clone, Copy)]
pub struct Constants<'a> {
    pub names: &'a [Name],
    pub type_: Option<&'a Type>,
    pub values: &'a [Expr],
    pub place: u64,
}

/// What is declared.
#[derive(Clone, Copy)]
pub enum Form<'a> {
    Constants(Constants<'a>),
    Variables(&'a VarSpec),
    /// A name for a type.
    Alias(&'a TypeSpec),
    /// A defined type.
    Definition(&'a TypeSpec),
    Function(&'a Func),
    /// A method, with its receiver.
    Method(&'a ParameterDecl, &'a Func),
}

impl Form<'_> {
    ghost use Rattle.go_declarations.specs.Forms.{form_of};
    ghost use Rattle.go_typings.specs.PackageEnvironments.{iota_of};

    /// The value that `iota` has in the declaration, which it has in constants alone.
    pub fn iota(&self) -> Option<u64>
        ensures { result ≡ iota_of (form_of self.now) }
    {
        match self {
            Form::Constants(constants) => Some(constants.place),
            _ => None,
        }
    }
}
