//! Pairs of an old and a new type, with the exported object that they are reported for.
ghost use Rattle.std.specs.Prelude.{◌≡◌};

use go_base::text::Text;
use go_model::types::term::Term;
use go_type_images::pair::TypePair;

/// A pair of types, and the exported object that it is reported for: the path of its package, a dot and its
/// name.
pub struct OwnedPair {
    pub owner: Text,
    pub old: Term,
    pub new: Term,
}

impl Drop for OwnedPair {
    fn drop(self) {
        let OwnedPair {
            owner: _,
            old: _,
            new: _,
        } = self;
    }
}

impl OwnedPair {
    /// The owner and the types, moved out.
    pub fn into_parts(self) -> (Text, TypePair)
        ensures { result ≡ record { 0 = self.owner; 1 = record { old = self.old; new = self.new } } }
    {
        let OwnedPair { owner, old, new } = self;
        (owner, TypePair { old, new })
    }
}
