//! Defined types, taken into the table of their package.
ghost use Rattle.std.specs.Prelude.{◌≡◌, IfOk, OnOk};
ghost use Rattle.go_declarations.specs.Listings.{declarations_of};
ghost use Rattle.go_rules.specs.Names.{items_at, value_at};
ghost use Rattle.go_package_entries.specs.Settings.{setting_of};
ghost use Rattle.go_package_entries.specs.inner.ShownMethods.{shown_of};
ghost use Rattle.go_package_entries.specs.inner.TakenEntries.{entries_of, is_of, with_type};

use crate::grown::Grown;
use crate::methods::shown_methods;
use crate::tables::Tables;
use go_base::memory::NoMemory;
use go_base::text::Text;
use go_declared::names::NamePlace;
use go_model::types::package::Defined;
use go_model::types::term::Term;
use go_rules::env::Env;
use std::alloc::Global;

fn is_of(found: Option<NamePlace>, number: usize) -> bool
    ensures { result ≡ is_of found number }
{
    match found {
        None => false,
        Some(at) => at.number == number,
    }
}

// The defined type of a name, with the methods that are shown.
fn defined(
    env: &Env<'_>,
    alloc: Global,
    tables: &Tables<'_>,
    grown: Grown<'_>,
    name: &Text,
    underlying: &Term,
) -> Result<Defined, NoMemory>
    ensures { IfOk result (λ d. d ≡ record { name = name.now; underlying = underlying.now; methods = shown_of (entries_of grown.entry) (declarations_of tables.now.declarations.now) env.now.path tables.now.namesakes name.now (items_at tables.now.methods.now name.now) }) }
{
    Ok(Defined {
        name: name.copy()?,
        underlying: underlying.copy(alloc)?,
        methods: shown_methods(env, alloc, tables, grown, name)?,
    })
}

/// Puts a defined type into the table with the methods that it shows, where it is the first of its name.
pub(crate) fn take_type(
    env: &mut Env<'_>,
    alloc: Global,
    tables: &Tables<'_>,
    grown: Grown<'_>,
    name: &Text,
    underlying: &Term,
) -> Result<(), NoMemory>
    ensures ok { OnOk result (env.new ≡ with_type env.old (is_of (value_at tables.now.names.now name.now) grown.entry.number) name.now underlying.now (shown_of (entries_of grown.entry) (declarations_of tables.now.declarations.now) env.old.path tables.now.namesakes name.now (items_at tables.now.methods.now name.now))) }
    ensures same { setting_of env.new ≡ setting_of env.old }
{
    if !is_of(tables.names.get(name), grown.number) {
        return Ok(());
    }
    let defined = defined(env, alloc, tables, grown, name, underlying)?;
    env.define(defined)
}
