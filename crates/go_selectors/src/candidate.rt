//! What a search for all selectors at once knows of one: the candidate for the method set.
ghost use Rattle.std.specs.Prelude.{◌≡◌};
ghost use Rattle.go_selectors.specs.Candidates.{signature_of};

use go_model::types::term::Signature;
use std::marker::Model;

/// The least depth at which paths end, and the method where just one ends there and can be called on
/// the type itself.
#[derive(Drop)]
pub struct Candidate<'a> {
    depth: u64,
    called: Option<&'a Signature>,
}

impl<'a> Model for Candidate<'a> {
    ghost use Rattle.go_selectors.specs.Candidates.{Candidate as Seen, signature_of};
    ghost use Rattle.go_model.specs.contracts.types.term.Signature as g;
    ghost use Rattle.std.specs.Coded.{codes};

    ghost Value = { Seen };

    ghost coded = { Prim.hlevel (codes, g.the_row.coded) };

    ghost view = { λ c. record { depth = c.depth; called = signature_of c.called } };
}

impl<'a> Candidate<'a> {
    /// What is known where the first path was found.
    pub(crate) fn new(depth: u64, called: Option<&'a Signature>) -> Candidate<'a>
        ensures { result ≡ record { depth = depth; called = signature_of called.entry } }
    {
        Candidate { depth, called }
    }

    pub(crate) fn depth(&self) -> u64
        ensures { result ≡ self.now.depth }
    {
        self.depth
    }

    pub(crate) fn called(&self) -> Option<&'a Signature>
        ensures { signature_of result ≡ self.now.called }
    {
        self.called
    }
}
