//! The numbers of the methods of defined types, by the names of the types and of the methods.
ghost use Rattle.std.specs.Prelude.{◌≡◌, ◌++◌, ◌∷◌, [], map, IfOk, OnOk};
ghost use Rattle.go_declarations.specs.Forms.{form_of};
ghost use Rattle.go_declarations.specs.Listings.{declarations_of};
ghost use Rattle.go_declared.specs.MethodTables.{method_name, name_by};
ghost use Rattle.go_rules.specs.Names.{items_at, with_value};
ghost use Rattle.go_declaration_graph.specs.inner.MethodNumbers.{numbers_at, table_by, tables_from, tables_of, with_number, with_methods};

use crate::numbers::to_number;
use go_base::list::List;
use go_base::memory::NoMemory;
use go_base::text::Text;
use go_declarations::form::Form;
use go_declarations::listing::Declaration;
use go_declared::methods::{DeclaredMethods, MethodRow};
use go_declared::names::DeclaredNames;
use go_rules::blank::is_blank;
use std::alloc::Global;
use std::collections::BTreeMap;
use std::marker::Model;

/// The numbers of the methods of a type, by their names.
pub(crate) struct MethodNumbers {
    entries: BTreeMap<Text, List<u32>>,
}

impl Drop for MethodNumbers {
    fn drop(self) {
        let MethodNumbers { entries: _ } = self;
    }
}

impl Model for MethodNumbers {
    ghost use Rattle.std.specs.Coded.{coded_list, coded×, coded_ℕ};
    ghost use Rattle.go_declaration_graph.specs.inner.MethodNumbers.{Numbered};

    ghost Value = { Numbered };

    ghost coded = { coded_list (coded× (coded_list coded_ℕ) (coded_list coded_ℕ)) };

    ghost view = { λ n. n.entries.entries };
}

/// The methods of the defined types of a package, by the number of the declaration of the type.
pub(crate) struct MethodIndex {
    tables: List<MethodNumbers>,
}

impl Drop for MethodIndex {
    fn drop(self) {
        let MethodIndex { tables: _ } = self;
    }
}

fn name_of(form: Form<'_>) -> &[u8]
    ensures { result.now ≡ name_by (form_of form.entry) }
{
    match form {
        Form::Method(_, func) => func.name.text.bytes(),
        _ => &[],
    }
}

// The name of the method that the declaration of a number declares.
fn method_name<'a>(declarations: &[Declaration<'a>], number: usize) -> &'a [u8]
    ensures { result.now ≡ method_name (declarations_of declarations.now) number }
{
    match declarations.get(number) {
        Some(declaration) => name_of(declaration.form),
        None => &[],
    }
}

impl MethodNumbers {
    fn new(alloc: Global) -> MethodNumbers
        ensures { result ≡ [] }
    {
        MethodNumbers {
            entries: BTreeMap::new(alloc),
        }
    }

    fn get(&self, name: &Text) -> &[u32]
        ensures { result.now ≡ items_at self.now name.now }
    {
        match self.entries.get(name) {
            None => &[],
            Some(numbers) => numbers.items(),
        }
    }

    fn put(&mut self, name: Text, numbers: List<u32>) -> Result<(), NoMemory>
        ensures { OnOk result (self.new ≡ with_value self.old name numbers) }
    {
        self.entries.insert(name, numbers)?;
        Ok(())
    }

    fn push(&mut self, alloc: Global, name: Text, number: u32) -> Result<(), NoMemory>
        ensures { OnOk result (self.new ≡ with_number self.old name number) }
    {
        if let Some(numbers) = self.entries.get_mut(&name) {
            return numbers.push(number);
        }
        let mut numbers = List::new(alloc);
        numbers.push(number)?;
        self.put(name, numbers)
    }

    fn push_all(
        &mut self,
        alloc: Global,
        declarations: &[Declaration<'_>],
        rows: &[MethodRow],
    ) -> Result<(), NoMemory>
        ensures { OnOk result (self.new ≡ with_methods (declarations_of declarations.now) self.old rows.now) }
    {
        for row in rows {
            let number = to_number(row.number)?;
            let name = Text::of(alloc, method_name(declarations, row.number))?;
            self.push(alloc, name, number)?;
        }
        Ok(())
    }

    fn of(
        alloc: Global,
        declarations: &[Declaration<'_>],
        methods: &DeclaredMethods,
        form: Form<'_>,
    ) -> Result<MethodNumbers, NoMemory>
        ensures { IfOk result (λ table. table ≡ table_by (declarations_of declarations.now) methods.now (form_of form.entry)) }
    {
        let mut table = MethodNumbers::new(alloc);
        if let Form::Definition(spec) = form {
            let rows = methods.of_type(&spec.name.text);
            table.push_all(alloc, declarations, rows)?;
        }
        Ok(table)
    }
}

impl MethodIndex {
    /// The methods of the types that these declarations declare, of which `methods` tells.
    pub(crate) fn of(
        alloc: Global,
        declarations: &[Declaration<'_>],
        methods: &DeclaredMethods,
    ) -> Result<MethodIndex, NoMemory>
        ensures { IfOk result (λ index. index.tables ≡ tables_of (declarations_of declarations.now) methods.now) }
    {
        let mut tables = List::new(alloc);
        for declaration in declarations {
            tables.push(MethodNumbers::of(alloc, declarations, methods, declaration.form)?)?;
        }
        Ok(MethodIndex { tables })
    }

    /// The numbers of the methods of a name that a type has, where a selector can find them. `names` tells where
    /// types are declared.
    pub(crate) fn get(&self, names: &DeclaredNames, type_name: &Text, name: &Text) -> &[u32]
        ensures { result.now ≡ numbers_at self.now.tables names.now type_name.now name.now }
    {
        if is_blank(name.bytes()) {
            return &[];
        }
        match names.get(type_name) {
            None => &[],
            Some(place) => match self.tables.items().get(place.number) {
                None => &[],
                Some(table) => table.get(name),
            },
        }
    }
}
