//! Tables of the fields of a struct type by their selectors, for literals with many keys.
ghost use Rattle.std.specs.Prelude.{◌≡◌, IfOk, OnOk};
ghost use Rattle.go_base.specs.Keys.{item_of};
ghost use Rattle.go_literals.specs.inner.FieldTables.{AreTabled, MayBeTabled, Puts, field_at};

use crate::keys::field_key;
use go_base::memory::NoMemory;
use go_model::types::names::Sel;
use go_model::types::term::Field;
use go_syntax::expression::Element;
use std::alloc::Global;
use std::collections::BTreeMap;

// So many walks over all fields take about as long as a table of them.
const WALKS: usize = 64;

// How many fields stand before the first one of the name.
fn place_of(fields: &[Field], name: &[u8]) -> Option<usize> {
    for at in 0..fields.len() {
        if fields[at].sel.name.bytes() == name {
            return Some(at);
        }
    }
    None
}

// How many fields a walk for the key of an element passes; None where the key names none, and the literal has no type.
fn passed(fields: &[Field], element: &Element) -> Option<usize> {
    match field_key(element) {
        Some(name) => place_of(fields, name.text.bytes()),
        None => None,
    }
}

// Whether walks for the keys of elements take longer than a table: a few keys, or keys of the first fields, don't.
fn are_long(fields: &[Field], elements: &[Element]) -> bool {
    if elements.len() <= WALKS {
        return false;
    }
    let mut left = fields.len().saturating_mul(WALKS);
    for element in elements {
        let many = match passed(fields, element) {
            Some(many) => many,
            None => return false,
        };
        if left < many {
            return true;
        }
        left -= many;
    }
    false
}

/// The field that a table has under a selector.
pub(crate) fn known<'f>(table: &BTreeMap<Sel, &'f Field>, sel: &Sel) -> Option<&'f Field>
    ensures { item_of result ≡ field_at table.now sel.now }
{
    match table.get(sel) {
        Some(field) => Some(*field),
        None => None,
    }
}

fn put<'f>(
    alloc: Global,
    table: &mut BTreeMap<Sel, &'f Field>,
    field: &'f Field,
) -> Result<(), NoMemory>
    ensures { OnOk result (Puts table.old table.new field.now) }
{
    let sel = field.sel.copy(alloc)?;
    table.insert(sel, field)?;
    Ok(())
}

// The table of fields. The last ones are put first, since a later one takes the place of one before.
fn table_of(alloc: Global, fields: &[Field]) -> Result<BTreeMap<Sel, &Field>, NoMemory>
    ensures { IfOk result (AreTabled fields.now) }
{
    let mut table = BTreeMap::new(alloc);
    let mut left = fields.len();
    while left > 0 {
        left -= 1;
        put(alloc, &mut table, &fields[left])?;
    }
    Ok(table)
}

/// The table of fields, where looking the keys of elements up in it is faster than walks.
pub(crate) fn table_for<'f>(
    alloc: Global,
    fields: &'f [Field],
    elements: &[Element],
) -> Result<Option<BTreeMap<Sel, &'f Field>>, NoMemory>
    ensures { IfOk result (MayBeTabled fields.now) }
{
    if !are_long(fields, elements) {
        return Ok(None);
    }
    let table = table_of(alloc, fields)?;
    Ok(Some(table))
}
