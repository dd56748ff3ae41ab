//! The methods that are declared for defined types.
ghost use Rattle.std.specs.Prelude.{◌≡◌, [], IfOk, OnOk};
ghost use Rattle.go_declarations.specs.Listings.{declarations_of};
ghost use Rattle.go_rules.specs.Names.{items_at, with_value};
ghost use Rattle.go_declared.specs.MethodTables.{AreMethods, method_name, name_by};
ghost use Rattle.go_declared.specs.NameTables.{AreDeclared};
ghost use Rattle.go_declarations.specs.Forms.{form_of};
ghost use Rattle.go_declared.specs.inner.AddingMethods.{with_row};

use crate::filling::{MethodTable, fill};
use crate::names::DeclaredNames;
use go_base::list::List;
use go_base::memory::NoMemory;
use go_base::text::Text;
use go_declarations::form::Form;
use go_declarations::listing::Declaration;
use std::alloc::Global;
use std::collections::BTreeMap;
use std::marker::Model;

/// A method as it is declared: the number of its declaration, and whether its receiver is a pointer.
#[derive(Clone, Copy, Debug, PartialEq, Eq)]
pub struct MethodRow {
    pub number: usize,
    pub pointer: bool,
}

/// The methods that are declared for each defined type of a package, blank ones too, in the order of their declarations.
pub struct DeclaredMethods {
    entries: BTreeMap<Text, List<MethodRow>>,
}

impl Drop for DeclaredMethods {
    fn drop(self) {
        let DeclaredMethods { entries: _ } = self;
    }
}

impl Model for DeclaredMethods {
    ghost use Rattle.std.specs.Coded.{coded_list, coded×, coded_ℕ};
    ghost use Rattle.std.specs.Prelude.{List as Items};
    ghost use Rattle.go_rules.specs.Names.{Named};
    ghost use Rattle.go_declared.specs.declared.methods.MethodRow as row;
    ghost use Rattle.go_declared.specs.contracts.methods.MethodRow as r;

    ghost Value = { Named (Items row.MethodRow) };

    ghost coded = { coded_list (coded× (coded_list coded_ℕ) (coded_list r.the_row.coded)) };

    ghost view = { λ n. n.entries.entries };
}

fn name_by<'a>(form: Form<'a>) -> &'a [u8]
    ensures { result.now ≡ name_by (form_of form.entry) }
{
    match form {
        Form::Method(_, func) => func.name.text.bytes(),
        _ => &[],
    }
}

/// The name of the method that the declaration of a number declares; no byte where it declares none.
pub fn method_name<'a>(declarations: &[Declaration<'a>], number: usize) -> &'a [u8]
    ensures { result.now ≡ method_name (declarations_of declarations.now) number }
{
    match declarations.get(number) {
        None => &[],
        Some(declaration) => name_by(declaration.form),
    }
}

impl DeclaredMethods {
    pub(crate) fn new(alloc: Global) -> DeclaredMethods
        ensures { result ≡ [] }
    {
        DeclaredMethods {
            entries: BTreeMap::new(alloc),
        }
    }

    /// The methods that are declared for a defined type of the package, by its name.
    pub fn of_type(&self, name: &Text) -> &[MethodRow]
        ensures { result.now ≡ items_at self.now name.now }
    {
        match self.entries.get(name) {
            None => &[],
            Some(rows) => rows.items(),
        }
    }

    fn put(&mut self, alloc: Global, name: &Text, rows: List<MethodRow>) -> Result<(), NoMemory>
        ensures { OnOk result (self.new ≡ with_value self.old name.now rows) }
    {
        let key = name.copy()?;
        self.entries.insert(key, rows)?;
        Ok(())
    }

    pub(crate) fn push_row(
        &mut self,
        alloc: Global,
        name: &Text,
        row: MethodRow,
    ) -> Result<(), NoMemory>
        ensures { OnOk result (self.new ≡ with_row self.old name.now row) }
    {
        if let Some(rows) = self.entries.get_mut(name) {
            return rows.push(row);
        }
        let mut rows = List::new(alloc);
        rows.push(row)?;
        self.put(alloc, name, rows)
    }

    /// The methods that these declarations declare, where `names` tells where they declare names.
    pub fn of(
        alloc: Global,
        declarations: &[Declaration<'_>],
        names: &DeclaredNames,
    ) -> Result<DeclaredMethods, NoMemory>
        requires { AreDeclared (declarations_of declarations.now) names.now }
        ensures { IfOk result (AreMethods (declarations_of declarations.now)) }
    {
        let mut methods = DeclaredMethods::new(alloc);
        fill(&mut methods, alloc, declarations, names)?;
        Ok(methods)
    }
}

impl MethodTable for DeclaredMethods {
    ghost with_method = { λ t type name row. with_row t type row };

    fn push(
        &mut self,
        alloc: Global,
        type_name: &Text,
        _name: &Text,
        row: MethodRow,
    ) -> Result<(), NoMemory> {
        self.push_row(alloc, type_name, row)
    }
}
