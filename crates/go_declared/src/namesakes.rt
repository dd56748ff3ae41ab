//! The methods of defined types by their names.
ghost use Rattle.std.specs.Prelude.{◌≡◌, [], IfOk, OnOk};
ghost use Rattle.go_declarations.specs.Listings.{declarations_of};
ghost use Rattle.go_rules.specs.Names.{with_value};
ghost use Rattle.go_declared.specs.NameTables.{AreDeclared};
ghost use Rattle.go_declared.specs.NamesakeTables.{AreNamesakes, rows_at};
ghost use Rattle.go_declared.specs.inner.AddingMethods.{with_namesake};

use crate::filling::{MethodTable, fill};
use crate::methods::{DeclaredMethods, MethodRow};
use crate::names::DeclaredNames;
use go_base::memory::NoMemory;
use go_base::text::Text;
use go_declarations::listing::Declaration;
use std::alloc::Global;
use std::collections::BTreeMap;
use std::marker::Model;

/// The methods that are declared for each defined type of a package, by their names, blank ones too: those of one name in the
/// order of their declarations.
pub struct Namesakes {
    // By the name of a type the methods by their names.
    entries: BTreeMap<Text, DeclaredMethods>,
}

impl Drop for Namesakes {
    fn drop(self) {
        let Namesakes { entries: _ } = self;
    }
}

impl Model for Namesakes {
    ghost use Rattle.std.specs.Coded.{coded_list, coded×, coded_ℕ};
    ghost use Rattle.std.specs.Prelude.{List as Items};
    ghost use Rattle.go_rules.specs.Names.{Named};
    ghost use Rattle.go_declared.specs.declared.methods.MethodRow as row;
    ghost use Rattle.go_declared.specs.contracts.methods.MethodRow as r;

    ghost Value = { Named (Named (Items row.MethodRow)) };

    ghost coded = { coded_list (coded× (coded_list coded_ℕ) (coded_list (coded× (coded_list coded_ℕ) (coded_list r.the_row.coded)))) };

    ghost view = { λ n. n.entries.entries };
}

impl Namesakes {
    fn new(alloc: Global) -> Namesakes
        ensures { result ≡ [] }
    {
        Namesakes {
            entries: BTreeMap::new(alloc),
        }
    }

    /// The methods of a name that are declared for a defined type of the package.
    pub fn of_name(&self, type_name: &Text, name: &Text) -> &[MethodRow]
        ensures { result.now ≡ rows_at self.now type_name.now name.now }
    {
        match self.entries.get(type_name) {
            None => &[],
            Some(rows) => rows.of_type(name),
        }
    }

    fn put(
        &mut self,
        alloc: Global,
        type_name: &Text,
        rows: DeclaredMethods,
    ) -> Result<(), NoMemory>
        ensures { OnOk result (self.new ≡ with_value self.old type_name.now rows) }
    {
        let key = type_name.copy()?;
        self.entries.insert(key, rows)?;
        Ok(())
    }

    /// The methods that these declarations declare, where `names` tells where they declare names.
    pub fn of(
        alloc: Global,
        declarations: &[Declaration<'_>],
        names: &DeclaredNames,
    ) -> Result<Namesakes, NoMemory>
        requires { AreDeclared (declarations_of declarations.now) names.now }
        ensures { IfOk result (AreNamesakes (declarations_of declarations.now)) }
    {
        let mut namesakes = Namesakes::new(alloc);
        fill(&mut namesakes, alloc, declarations, names)?;
        Ok(namesakes)
    }
}

impl MethodTable for Namesakes {
    ghost with_method = { with_namesake };

    fn push(
        &mut self,
        alloc: Global,
        type_name: &Text,
        name: &Text,
        row: MethodRow,
    ) -> Result<(), NoMemory> {
        if let Some(rows) = self.entries.get_mut(type_name) {
            return rows.push_row(alloc, name, row);
        }
        let mut rows = DeclaredMethods::new(alloc);
        rows.push_row(alloc, name, row)?;
        self.put(alloc, type_name, rows)
    }
}
