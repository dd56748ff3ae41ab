//! One tree behind a type parameter.
ghost use Rattle.std.specs.Prelude.{◌≡◌};

use std::marker::Model;

/// A tree. Giving it up is a call of this type's `drop`, where that of a tree that stands by value is
/// proved variant by variant.
pub(crate) struct Whole<T> {
    tree: T,
}

impl<T: Drop> Drop for Whole<T> {
    fn drop(self) {
        let Whole { tree: _ } = self;
    }
}

impl<T> Model for Whole<T> {
    ghost Value = { T };

    ghost coded = { T.code };

    ghost view = { λ w. w.tree };
}

impl<T> Whole<T> {
    /// Holds this tree.
    pub(crate) fn new(tree: T) -> Whole<T>
        ensures { result ≡ tree }
    {
        Whole { tree }
    }

    /// The tree, moved out.
    pub(crate) fn take(self) -> T
        ensures { result ≡ self }
    {
        let Whole { tree } = self;
        tree
    }
}
