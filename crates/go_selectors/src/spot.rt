//! Where a path through embedded fields stands.
ghost use Rattle.std.specs.Prelude.{◌≡◌};

use go_model::types::term::Term;
use std::marker::Model;

/// A type on a path, and whether the path went through a pointer.
#[derive(Drop)]
pub(crate) struct Spot<'a> {
    through: bool,
    term: &'a Term,
}

impl<'a> Model for Spot<'a> {
    ghost use Rattle.go_model.specs.types.Selectors.{Spot as Seen};
    ghost use Rattle.go_model.specs.contracts.types.term.Term as t;
    ghost use Rattle.std.specs.Coded.{codes};

    ghost Value = { Seen };

    ghost coded = { Prim.hlevel (codes, t.the_row.coded) };

    ghost view = { λ s. record { through = s.through; term = s.term.now } };
}

impl<'a> Spot<'a> {
    /// A spot.
    pub(crate) fn new(through: bool, term: &'a Term) -> Spot<'a>
        ensures { result ≡ record { through = through; term = term.now } }
    {
        Spot { through, term }
    }

    pub(crate) fn through(&self) -> bool
        ensures { result ≡ self.now.through }
    {
        self.through
    }

    pub(crate) fn term(&self) -> &'a Term
        ensures { result.now ≡ self.now.term }
    {
        self.term
    }

    /// The same spot.
    pub(crate) fn again(&self) -> Spot<'a>
        ensures { result ≡ self.now }
    {
        Spot {
            through: self.through,
            term: self.term,
        }
    }
}
