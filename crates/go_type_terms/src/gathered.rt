//! Methods that are gathered under their selectors.
ghost use Rattle.std.specs.Prelude.{◌≡◌, None, true, map, IfOk, OnOk};
ghost use Rattle.std.specs.BTreeMap.{IsOrdered as HasOrder, get};
ghost use Rattle.std.specs.Map.{values_of};
ghost use Rattle.std.specs.List.Sorted.{IsStrictlySortedBy};
ghost use Rattle.go_base.specs.Keys.{item_of};
ghost use Rattle.go_model.specs.types.MethodSets.{method_sel, sel_order};
ghost use Rattle.go_type_terms.specs.inner.Gathered.{AreKeyed, Gathers, Notes, NotesAll};

use crate::error::ExprError;
use go_base::list::List;
use go_base::memory::NoMemory;
use go_model::types::names::Sel;
use go_model::types::term::Method;
use go_usability::go_selectors::identity::same_signature;
use std::alloc::Global;
use std::collections::BTreeMap;

fn copied(alloc: Global, method: &Method) -> Result<Method, NoMemory>
    ensures { IfOk result (λ m. m ≡ method.now) }
{
    Ok(Method {
        sel: method.sel.copy(alloc)?,
        signature: method.signature.copy(alloc)?,
    })
}

// The method that is noted under a selector.
fn known<'m>(noted: &'m BTreeMap<Sel, Method>, sel: &Sel) -> Option<&'m Method>
    ensures { item_of result ≡ get sel_order noted.now sel.now }
{
    noted.get(sel)
}

// Notes a method that has no other one of its selector.
fn note_first(
    alloc: Global,
    noted: &mut BTreeMap<Sel, Method>,
    method: &Method,
) -> Result<(), NoMemory>
    requires keyed { AreKeyed noted.old.entries }
    requires none { get sel_order noted.old (method_sel method.now) ≡ None }
    ensures { OnOk result (Notes noted.old.entries noted.new.entries method.now true) }
{
    let sel = method.sel.copy(alloc)?;
    let copy = copied(alloc, method)?;
    noted.insert(sel, copy)?;
    Ok(())
}

// Notes a method; false where another one of its selector is noted.
fn note(alloc: Global, noted: &mut BTreeMap<Sel, Method>, method: &Method) -> Result<bool, NoMemory>
    requires { AreKeyed noted.old.entries }
    ensures { IfOk result (Notes noted.old.entries noted.new.entries method.now) }
{
    match known(noted, &method.sel) {
        Some(other) => Ok(same_signature(&other.signature, &method.signature)),
        None => {
            note_first(alloc, noted, method)?;
            Ok(true)
        }
    }
}

// Notes methods that aren't noted yet; false where two of one selector differ.
fn note_all(
    alloc: Global,
    noted: &mut BTreeMap<Sel, Method>,
    methods: &[Method],
) -> Result<bool, NoMemory>
    requires { AreKeyed noted.old.entries }
    ensures { IfOk result (NotesAll noted.old.entries noted.new.entries methods.now) }
{
    for method in methods {
        if !note(alloc, noted, method)? {
            return Ok(false);
        }
    }
    Ok(true)
}

/// Notes methods that aren't noted yet; `Untyped` exactly where two of one selector differ.
pub(crate) fn gather(
    alloc: Global,
    noted: &mut BTreeMap<Sel, Method>,
    methods: &[Method],
) -> Result<(), ExprError>
    requires { AreKeyed noted.old.entries }
    ensures { Gathers (λ ms. ms ≡ methods.now) noted.old.entries noted.new.entries result }
{
    if note_all(alloc, noted, methods)? {
        Ok(())
    } else {
        Err(ExprError::Untyped)
    }
}

/// The noted methods, moved out in the order of their selectors.
pub(crate) fn listed(alloc: Global, noted: BTreeMap<Sel, Method>) -> Result<List<Method>, NoMemory>
    ensures methods { IfOk result (λ ms. ms ≡ values_of noted.entries) }
    ensures ordered { OnOk result (HasOrder sel_order noted) }
{
    let mut methods = List::with_room(alloc, noted.len())?;
    for method in noted.into_values() {
        methods.push(method)?;
    }
    Ok(methods)
}
