//! Where names are declared.
ghost use Rattle.std.specs.Prelude.{◌≡◌, ◌≤◌, ◌||◌, length, IfOk, OnOk};
ghost use Rattle.go_base.specs.Lists.{Ascending};
ghost use Rattle.go_declarations.specs.Forms.{form_of};
ghost use Rattle.go_declarations.specs.Listings.{declarations_of};
ghost use Rattle.go_rules.specs.Names.{value_at};
ghost use Rattle.go_declarations.specs.go_typings.Declarations.{is_init, names_of};
ghost use Rattle.go_rules.specs.Expressions.{is_blank};
ghost use Rattle.go_declared.specs.NameTables.{AreDeclared, entries_of, is_first, names_in};
ghost use Rattle.go_declared.specs.inner.Adding.{with_name, with_names};
ghost use Rattle.go_declared.specs.inner.EntryOrder.{AreSorted, IsFirstFrom, Rise, TellSame};

use crate::headed::{Headed, HeadedText};
use go_base::list::List;
use go_base::memory::NoMemory;
use go_base::text::Text;
use go_declarations::form::Form;
use go_declarations::listing::Declaration;
use go_rules::blank::is_blank;
use go_syntax::name::Name;
use std::alloc::Global;
use std::marker::Model;

/// Where a name is declared: the number of the declaration, and the place of the name among those that it declares,
/// both from 0.
#[derive(Clone, Copy, Debug, PartialEq, Eq)]
pub struct NamePlace {
    pub number: usize,
    pub place: usize,
}

/// A declared name, with where it is declared first.
#[derive(Clone, Copy)]
pub struct ListedName<'a> {
    pub name: &'a Text,
    pub place: NamePlace,
}

/// The names that a package declares, but for blank ones and `init`, in the order of bytes, each with where it is
/// declared first.
pub struct DeclaredNames {
    entries: Vec<(HeadedText, NamePlace)>,
}

impl Drop for DeclaredNames {
    fn drop(self) {
        let DeclaredNames { entries: _ } = self;
    }
}

impl Model for DeclaredNames {
    ghost use Rattle.std.specs.Coded.{coded_list, coded×, coded_ℕ};
    ghost use Rattle.go_rules.specs.Names.{Named};
    ghost use Rattle.go_declared.specs.declared.names.NamePlace as place;
    ghost use Rattle.go_declared.specs.contracts.names.NamePlace as p;
    ghost use Rattle.go_declared.specs.inner.EntryOrder.{Rise};

    ghost Value = { Named place.NamePlace };

    ghost coded = { coded_list (coded× (coded_list coded_ℕ) p.the_row.coded) };

    ghost view = { λ n. n.entries.items };

    ghost invariant = { λ n. Rise n.entries.items };
}

fn is_left_out(name: &[u8]) -> bool
    ensures { result ≡ (is_blank name.now || is_init name.now) }
{
    is_blank(name) || name == b"init".as_slice()
}

fn add(
    entries: &mut Vec<(HeadedText, NamePlace)>,
    alloc: Global,
    name: &Text,
    place: NamePlace,
) -> Result<(), NoMemory>
    ensures { OnOk result (entries.new.items ≡ with_name entries.old.items name.now place) }
{
    if is_left_out(name.bytes()) {
        return Ok(());
    }
    entries.push((HeadedText::of(alloc, name)?, place))?;
    Ok(())
}

fn add_names(
    entries: &mut Vec<(HeadedText, NamePlace)>,
    alloc: Global,
    number: usize,
    names: &[Name],
) -> Result<(), NoMemory>
    ensures { OnOk result (entries.new.items ≡ with_names entries.old.items number 0 names.now) }
{
    for place in 0..names.len() {
        add(
            entries,
            alloc,
            &names[place].text,
            NamePlace { number, place },
        )?;
    }
    Ok(())
}

fn add_name(
    entries: &mut Vec<(HeadedText, NamePlace)>,
    alloc: Global,
    number: usize,
    name: &Name,
) -> Result<(), NoMemory>
    ensures { OnOk result (entries.new.items ≡ with_name entries.old.items name.now.text (record { number = number; place = 0 })) }
{
    add(entries, alloc, &name.text, NamePlace { number, place: 0 })
}

fn add_form(
    entries: &mut Vec<(HeadedText, NamePlace)>,
    alloc: Global,
    number: usize,
    form: &Form<'_>,
) -> Result<(), NoMemory>
    ensures { OnOk result (entries.new.items ≡ with_names entries.old.items number 0 (names_of (form_of form.now))) }
{
    match form {
        Form::Constants(constants) => add_names(entries, alloc, number, constants.names),
        Form::Variables(spec) => add_names(entries, alloc, number, spec.names.items()),
        Form::Alias(spec) => add_name(entries, alloc, number, &spec.name),
        Form::Definition(spec) => add_name(entries, alloc, number, &spec.name),
        Form::Function(func) => add_name(entries, alloc, number, &func.name),
        Form::Method(_, _) => Ok(()),
    }
}

// The names in the order of their declarations, each as often as it is declared.
fn collected(
    alloc: Global,
    declarations: &[Declaration<'_>],
) -> Result<Vec<(HeadedText, NamePlace)>, NoMemory>
    ensures { IfOk result (λ entries. AreDeclared (declarations_of declarations.now) entries.items) }
{
    let mut entries = Vec::with_capacity(alloc, declarations.len())?;
    for number in 0..declarations.len() {
        add_form(&mut entries, alloc, number, &declarations[number].form)?;
    }
    Ok(entries)
}

// The entries in the order of their names; of one name the first stays first.
fn sort(entries: &mut Vec<(HeadedText, NamePlace)>) -> Result<(), NoMemory>
    ensures same { OnOk result (TellSame entries.old.items entries.new.items) }
    ensures sorted { OnOk result (AreSorted entries.new.items) }
{
    entries.sort_by(|left, right| left.0.headed().order(&right.0.headed()))?;
    Ok(())
}

// Drops the entries that follow one of the same name.
fn keep_firsts(entries: &mut Vec<(HeadedText, NamePlace)>)
    requires { AreSorted entries.old.items }
    ensures same { TellSame entries.old.items entries.new.items }
    ensures rise { Rise entries.new.items }
{
    entries.dedup_by(|later, first| later.0.headed().order(&first.0.headed()).is_eq());
}

// The place of the first entry whose name isn't before another.
fn first_from(entries: &[(HeadedText, NamePlace)], name: &Headed<'_>) -> usize
    requires { Rise entries.now }
    ensures fits { result ≤ length entries.now }
    ensures point { IsFirstFrom entries.now name.now result }
{
    entries.partition_point(|entry| entry.0.headed().order(name).is_lt())
}

fn found(entries: &[(HeadedText, NamePlace)], name: &Text) -> Option<NamePlace>
    requires { Rise entries.now }
    ensures { result ≡ value_at entries.now name.now }
{
    let headed = Headed::of(name);
    let at = first_from(entries, &headed);
    if at >= entries.len() {
        return None;
    }
    let entry = &entries[at];
    if entry.0.headed().order(&headed).is_eq() {
        return Some(entry.1);
    }
    None
}

// The entries with their names borrowed.
fn listed(
    alloc: Global,
    entries: &[(HeadedText, NamePlace)],
) -> Result<List<ListedName<'_>>, NoMemory>
    ensures { IfOk result (λ names. entries_of names ≡ entries.now) }
{
    let mut names = List::with_room(alloc, entries.len())?;
    for entry in entries {
        names.push(ListedName {
            name: entry.0.text(),
            place: entry.1,
        })?;
    }
    Ok(names)
}

impl DeclaredNames {
    /// Where a name is declared; None where it isn't.
    pub fn get(&self, name: &Text) -> Option<NamePlace>
        ensures { result ≡ value_at self.now name.now }
    {
        found(&self.entries, name)
    }

    /// Whether the declaration of this number is the first that declares a name.
    pub fn is_first(&self, number: usize, name: &Text) -> bool
        ensures { result ≡ is_first self.now number name.now }
    {
        match self.get(name) {
            None => false,
            Some(place) => place.number == number,
        }
    }

    /// The names in the order of bytes, each once, with where they are declared.
    pub fn in_order(&self, alloc: Global) -> Result<List<ListedName<'_>>, NoMemory>
        ensures entries { IfOk result (λ names. entries_of names ≡ self.now) }
        ensures ordered { OnOk result (Ascending (names_in self.now)) }
    {
        listed(alloc, &self.entries)
    }

    /// The names that these declarations declare.
    pub fn of(alloc: Global, declarations: &[Declaration<'_>]) -> Result<DeclaredNames, NoMemory>
        ensures { IfOk result (AreDeclared (declarations_of declarations.now)) }
    {
        let mut entries = collected(alloc, declarations)?;
        sort(&mut entries)?;
        keep_firsts(&mut entries);
        Ok(DeclaredNames { entries })
    }
}
