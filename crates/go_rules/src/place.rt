//! The places of methods in a list, by their selectors.
ghost use Rattle.std.specs.Prelude.{[], ◌≡◌, OnOk};
ghost use Rattle.go_rules.specs.inner.Places.{ArePlaces, NotesPlace};

use go_model::types::names::Sel;
use go_model::types::package::MethodOf;
use go_syntax::go_base::memory::NoMemory;
use std::alloc::Global;
use std::collections::BTreeMap;

/// Where the method of a selector stands.
#[derive(Clone, Copy)]
pub(crate) enum Place {
    Once(usize),
    /// There are two or more.
    Several,
}

/// Notes that a method of a selector stands at a place.
pub(crate) fn note(
    alloc: Global,
    places: &mut BTreeMap<Sel, Place>,
    sel: &Sel,
    at: usize,
) -> Result<(), NoMemory>
    ensures { OnOk result (NotesPlace places.old places.new sel.now at) }
{
    let key = sel.copy(alloc)?;
    let place = if places.contains_key(sel) {
        Place::Several
    } else {
        Place::Once(at)
    };
    places.insert(key, place)?;
    Ok(())
}

/// Notes where each method stands, in a table without places.
pub(crate) fn note_all(
    alloc: Global,
    places: &mut BTreeMap<Sel, Place>,
    methods: &[MethodOf],
) -> Result<(), NoMemory>
    requires { places.old.entries ≡ [] }
    ensures { OnOk result (ArePlaces methods.now places.new) }
{
    for at in 0..methods.len() {
        note(alloc, places, &methods[at].sel, at)?;
    }
    Ok(())
}
