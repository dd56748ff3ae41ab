//! The places of fields and methods by their selectors.
ghost use Rattle.std.specs.Prelude.{◌≡◌, false, if◌then◌else◌, map, IfOk, OnOk};
ghost use Rattle.go_model.specs.declared.types.names.Sel.{Sel as Selector};
ghost use Rattle.go_model.specs.types.Members.{field_sel};
ghost use Rattle.go_model.specs.types.MethodSets.{method_sel};
ghost use Rattle.go_model.specs.types.Terms.{same_sel};
ghost use Rattle.api_correspond.specs.inner.BySel.{places_at, AddsPlace, ArePlaces};

use go_base::list::List;
use go_base::memory::NoMemory;
use go_model::types::names::Sel;
use go_model::types::term::{Field, Method};
use std::alloc::Global;
use std::collections::BTreeMap;

/// The places at which a selector stands.
pub fn places_at<'m>(places: &'m BTreeMap<Sel, List<usize>>, sel: &Sel) -> &'m [usize]
    ensures { result.now ≡ places_at places.now sel.now }
{
    match places.get(sel) {
        Some(numbers) => numbers.items(),
        None => &[],
    }
}

// The places of a selector, taken out.
fn taken(alloc: Global, places: &mut BTreeMap<Sel, List<usize>>, sel: &Sel) -> List<usize>
    ensures there { result ≡ places_at places.old sel.now }
    ensures others { (s : Selector) → same_sel sel.now s ≡ false → places_at places.new s ≡ places_at places.old s }
{
    match places.remove(sel) {
        None => List::new(alloc),
        Some(numbers) => numbers,
    }
}

fn put(
    places: &mut BTreeMap<Sel, List<usize>>,
    sel: Sel,
    numbers: List<usize>,
) -> Result<(), NoMemory>
    ensures { OnOk result ((s : Selector) → places_at places.new s ≡ (if same_sel sel s then numbers else places_at places.old s)) }
{
    places.insert(sel, numbers)?;
    Ok(())
}

/// Adds a place to those of a selector.
pub fn add_place(
    alloc: Global,
    places: &mut BTreeMap<Sel, List<usize>>,
    sel: &Sel,
    at: usize,
) -> Result<(), NoMemory>
    ensures { OnOk result (AddsPlace places.old places.new sel.now at) }
{
    let mut numbers = taken(alloc, places, sel);
    numbers.push(at)?;
    let key = sel.copy(alloc)?;
    put(places, key, numbers)?;
    Ok(())
}

/// The places of fields by their selectors.
pub fn field_places(alloc: Global, fields: &[Field]) -> Result<BTreeMap<Sel, List<usize>>, NoMemory>
    ensures { IfOk result (ArePlaces (map field_sel fields.now)) }
{
    let mut places = BTreeMap::new(alloc);
    for at in 0..fields.len() {
        add_place(alloc, &mut places, &fields[at].sel, at)?;
    }
    Ok(places)
}

/// The places of methods by their selectors.
pub fn method_places(
    alloc: Global,
    methods: &[Method],
) -> Result<BTreeMap<Sel, List<usize>>, NoMemory>
    ensures { IfOk result (ArePlaces (map method_sel methods.now)) }
{
    let mut places = BTreeMap::new(alloc);
    for at in 0..methods.len() {
        add_place(alloc, &mut places, &methods[at].sel, at)?;
    }
    Ok(places)
}
