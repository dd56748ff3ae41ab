//! Pairs of an old and a new type.
ghost use Rattle.std.specs.Prelude.{◌≡◌};

use go_model::types::term::Term;

/// A type of the old world and one of the new world, which have to correspond.
pub struct TypePair {
    pub old: Term,
    pub new: Term,
}

impl Drop for TypePair {
    fn drop(self) {
        let TypePair { old: _, new: _ } = self;
    }
}

impl TypePair {
    /// The old and the new type, moved out.
    pub fn into_parts(self) -> (Term, Term)
        ensures { result ≡ record { 0 = self.old; 1 = self.new } }
    {
        let TypePair { old, new } = self;
        (old, new)
    }
}
