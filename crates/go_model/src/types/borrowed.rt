//! Types that are borrowed.
ghost use Rattle.std.specs.Prelude.{◌≡◌};

use crate::types::term::Term;
use std::marker::Model;

/// A borrowed type, as an item of a list: contracts see the type itself.
#[derive(Drop)]
pub struct BorrowedTerm<'a> {
    term: &'a Term,
}

impl<'a> Model for BorrowedTerm<'a> {
    ghost use Rattle.go_model.specs.declared.types.term.Term.{Term as Seen};
    ghost use Rattle.go_model.specs.contracts.types.term.Term as t;
    ghost use Rattle.std.specs.Coded.{codes};

    ghost Value = { Seen };

    ghost coded = { Prim.hlevel (codes, t.the_row.coded) };

    ghost view = { λ p. p.term.now };
}

impl<'a> BorrowedTerm<'a> {
    /// Of a type.
    pub fn new(term: &'a Term) -> BorrowedTerm<'a>
        ensures { result ≡ term.now }
    {
        BorrowedTerm { term }
    }

    /// The type.
    pub fn term(&self) -> &'a Term
        ensures { result.now ≡ self.now }
    {
        self.term
    }
}
