//! The declared method of a selector.
ghost use Rattle.std.specs.Prelude.{map};
ghost use Rattle.std.specs.List.Sorted.{IsStrictlySortedBy};
ghost use Rattle.go_model.specs.types.DeclaredMethods.{TellsMethod, with_sel};
ghost use Rattle.go_model.specs.types.MethodSets.{sel_order};
ghost use Rattle.go_model.specs.worlds.Worlds.{declared_sel};

use crate::types::names::Sel;
use crate::types::package::MethodOf;
use std::cmp::Ordering;

/// What is told of the methods that are declared for a type and have a selector.
#[derive(Clone, Copy)]
pub enum DeclaredMethod<'a> {
    /// There is none.
    Absent,
    /// There is this one, and no other.
    Once(&'a MethodOf),
    /// Nothing is told: there may be any number of them.
    Unknown,
}

/// The method of a selector, in a list that is ordered by selector.
pub(crate) fn find_method<'a>(methods: &'a [MethodOf], sel: &Sel) -> DeclaredMethod<'a>
    requires { IsStrictlySortedBy sel_order (map declared_sel methods.now) }
    ensures { TellsMethod (with_sel sel.now methods.now) result }
{
    let mut low = 0usize;
    let mut high = methods.len();
    while low < high {
        let middle = low + (high - low) / 2;
        let method = &methods[middle];
        match method.sel.cmp(sel) {
            Ordering::Less => low = middle + 1,
            Ordering::Greater => high = middle,
            Ordering::Equal => return DeclaredMethod::Once(method),
        }
    }
    DeclaredMethod::Absent
}
