//! What is in order, and what stands once.
ghost use Rattle.std.specs.Prelude.{◌≡◌, ◌≢◌, ◌<◌, ◌+◌, drop, length, map, true};
ghost use Rattle.std.specs.declared.cmp.Ordering.TheVariants.{Less};
ghost use Rattle.go_base.specs.Lists.{Ascending, Before, Each};
ghost use Rattle.go_model.specs.declared.types.names.Sel.{Sel};
ghost use Rattle.go_model.specs.declared.types.term.Method.{out-Method};
ghost use Rattle.go_model.specs.types.Members.{AreDistinct, AreOrdered, field_sel};
ghost use Rattle.go_model.specs.types.MethodSets.{sel_order};
ghost use Rattle.go_model.specs.types.Terms.{IsBlank};

use go_model::types::keyed::Keyed;
use go_model::types::names::Sel;
use go_model::types::package::MethodOf;
use go_model::types::term::{Field, Method};
use std::cmp::Ordering;

// What stands behind an item.
fn behind<T>(items: &[T], at: usize) -> &[T]
    requires { at < length items.now }
    ensures { result.now ≡ drop (at + 1) items.now }
{
    &items[at + 1..]
}

fn is_before(name: &[u8], other: &[u8]) -> bool
    ensures { result ≡ true → Before name.now other.now }
{
    name.cmp(other) == Ordering::Less
}

fn comes_first<K: Keyed>(name: &[u8], items: &[K]) -> bool
    ensures { result ≡ true → Each (λ k. Before name.now (K.key k)) items.now }
{
    for item in items {
        if !is_before(name, item.key()) {
            return false;
        }
    }
    true
}

/// Whether items ascend by their keys.
pub(crate) fn ascend<K: Keyed>(items: &[K]) -> bool
    ensures { result ≡ true → Ascending (map K.key items.now) }
{
    for (at, item) in items.iter().enumerate() {
        if !comes_first(item.key(), behind(items, at)) {
            return false;
        }
    }
    true
}

/// Whether no field has the name of a selector.
pub(crate) fn names_none(sel: &Sel, fields: &[Field]) -> bool
    ensures { result ≡ true → Each (λ f. (field_sel f).name ≢ sel.now.name) fields.now }
{
    for field in fields {
        if field.sel.name == sel.name {
            return false;
        }
    }
    true
}

/// Whether no two fields have the same name.
pub(crate) fn are_distinct(fields: &[Field]) -> bool
    ensures { result ≡ true → AreDistinct (map field_sel fields.now) }
{
    for (at, field) in fields.iter().enumerate() {
        if !names_none(&field.sel, behind(fields, at)) {
            return false;
        }
    }
    true
}

/// What has a selector.
pub(crate) trait Selected {
    ghost sel: { Self → Sel };

    fn sel(&self) -> &Sel
        ensures { result.now ≡ sel self.now };
}

impl Selected for Method {
    ghost sel = { λ m. (out-Method m).sel };

    fn sel(&self) -> &Sel {
        &self.sel
    }
}

impl Selected for MethodOf {
    ghost sel = { λ m. m.sel };

    fn sel(&self) -> &Sel {
        &self.sel
    }
}

fn is_below(sel: &Sel, other: &Sel) -> bool
    ensures { result ≡ true → sel_order sel.now other.now ≡ Less }
{
    sel.cmp(other) == Ordering::Less
}

fn is_named(sel: &Sel) -> bool
    ensures { result ≡ true → IsBlank sel.now → ⊥ }
{
    sel.name.bytes() != b"_".as_slice()
}

fn is_least<M: Selected>(sel: &Sel, methods: &[M]) -> bool
    ensures { result ≡ true → Each (λ m. sel_order sel.now (M.sel m) ≡ Less) methods.now }
{
    for method in methods {
        if !is_below(sel, method.sel()) {
            return false;
        }
    }
    true
}

/// Whether methods are in the order of their selectors, and none is named `_`.
pub(crate) fn are_ordered<M: Selected>(methods: &[M]) -> bool
    ensures { result ≡ true → AreOrdered (map M.sel methods.now) }
{
    for (at, method) in methods.iter().enumerate() {
        let found = method.sel();
        if !is_named(found) {
            return false;
        }
        if !is_least(found, behind(methods, at)) {
            return false;
        }
    }
    true
}
