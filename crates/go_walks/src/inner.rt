//! Statements inside of others.
ghost use Rattle.std.specs.Prelude.{◌≡◌};
ghost use Rattle.go_walks.specs.Inners.{statements_in};

use go_base::boxed::Box;
use go_base::list::List;
use go_syntax::statement::Stmt;
use std::slice::from_ref;

/// The statements of a list, or one alone. A function value takes them so, since the type of a slice of statements has too many
/// fields for one.
#[derive(Clone, Copy)]
pub enum Inner<'a> {
    All(&'a List<Stmt>),
    One(&'a Box<Stmt>),
}

impl<'a> Inner<'a> {
    /// The statements.
    pub fn items(self) -> &'a [Stmt]
        ensures { result.now ≡ statements_in self.entry }
    {
        match self {
            Inner::All(statements) => statements.items(),
            Inner::One(statement) => from_ref(statement.value()),
        }
    }
}
