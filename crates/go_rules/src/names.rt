//! Tables of names.
ghost use Rattle.std.specs.Prelude.{◌≡◌, ◌↔◌, true, ◌∷◌, ◌++◌, [], OnOk, OnErr, is_some};
ghost use Rattle.go_syntax.specs.go_base.Keys.{item_of};
ghost use Rattle.go_rules.specs.Names.{items_at, value_at, with_value};
ghost use Rattle.go_rules.specs.Scopes.{added_to};

use crate::awaited::Awaited;
use crate::defined_row::DefinedRow;
use crate::env::DeclareError;
use go_model::types::names::Sel;
use go_model::types::package::MethodOf;
use go_syntax::go_base::memory::NoMemory;
use go_syntax::go_base::text::Text;
use std::alloc::Global;
use std::collections::BTreeMap;
use std::collections::btree_map::Entry;
use std::marker::Model;

/// Names in the order of bytes, each once, with what each has.
pub(crate) struct Names<V> {
    entries: BTreeMap<Text, V>,
}

impl<V: Drop> Drop for Names<V> {
    fn drop(self) {
        let Names { entries: _ } = self;
    }
}

impl<V> Model for Names<V> {
    ghost use Rattle.std.specs.Coded.{coded_list, coded×, coded_ℕ};
    ghost use Rattle.go_rules.specs.Names.{Named};

    ghost Value = { Named V };

    ghost coded = { coded_list (coded× (coded_list coded_ℕ) V.code) };

    ghost view = { λ n. n.entries.entries };
}

impl<V> Names<V> {
    /// No name.
    pub(crate) fn new(alloc: Global) -> Names<V>
        ensures { result ≡ [] }
    {
        Names {
            entries: BTreeMap::new(alloc),
        }
    }

    /// What a name has.
    pub(crate) fn get(&self, name: &Text) -> Option<&V>
        ensures { item_of result ≡ value_at self.now name.now }
    {
        self.entries.get(name)
    }
}

impl<V: Drop> Names<V> {
    /// Gives a name a value, in place of one that it had.
    pub(crate) fn put(&mut self, name: Text, value: V) -> Result<(), NoMemory>
        ensures ok { OnOk result (self.new ≡ with_value self.old name value) }
        ensures err { OnErr result (self.new ≡ self.old) }
    {
        self.entries.insert(name, value)?;
        Ok(())
    }

    /// Gives a name a value. `Already` comes exactly where it has one.
    pub(crate) fn add(&mut self, name: Text, value: V) -> Result<(), DeclareError>
        ensures ok { OnOk result (self.new ≡ with_value self.old name value) }
        ensures already { (result ≡ Err DeclareError.Already) ↔ (is_some (value_at self.old name) ≡ true) }
        ensures err { OnErr result (self.new ≡ self.old) }
    {
        match self.entries.entry(name) {
            Ok(Entry::Vacant(place)) => {
                place.insert(value);
                return Ok(());
            }
            Ok(Entry::Occupied(place)) => {
                // Gives the map back, for the proof.
                let _same = place.into_mut();
                return Err(DeclareError::Already);
            }
            Err(_) => return Err(DeclareError::NoMemory),
        }
    }
}

impl Names<Awaited> {
    /// Adds a selector to those that a name has.
    pub(crate) fn push(&mut self, alloc: Global, name: Text, sel: Sel) -> Result<(), NoMemory>
        ensures ok { OnOk result (self.new ≡ with_value self.old name (items_at self.old name ++ sel ∷ [])) }
        ensures err { OnErr result (self.new ≡ self.old) }
    {
        if let Some(awaited) = self.entries.get_mut(&name) {
            return awaited.push(alloc, sel);
        }
        let mut awaited = Awaited::new(alloc);
        awaited.push(alloc, sel)?;
        self.put(name, awaited)
    }
}

impl Names<DefinedRow> {
    /// Adds a method to the defined type of a name, after those that it has; nothing changes where there is no type of that name.
    pub(crate) fn add_method(
        &mut self,
        alloc: Global,
        name: &Text,
        method: MethodOf,
    ) -> Result<(), NoMemory>
        ensures ok { OnOk result (self.new ≡ added_to self.old name.now method (value_at self.old name.now)) }
        ensures err { OnErr result (self.new ≡ self.old) }
    {
        if let Some(row) = self.entries.get_mut(name) {
            return row.add_method(alloc, method);
        }
        Ok(())
    }
}
