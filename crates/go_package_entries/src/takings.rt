//! Entries, taken into the scopes of their package.
ghost use Rattle.std.specs.Prelude.{◌≡◌, [], None, Some, OnOk, slice_get};
ghost use Rattle.go_declarations.specs.Forms.{form_of};
ghost use Rattle.go_declarations.specs.Listings.{declaration_of, declarations_of};
ghost use Rattle.go_declared.specs.AliasEnds.{AreEnds};
ghost use Rattle.go_declared.specs.MethodTables.{AreMethods};
ghost use Rattle.go_declared.specs.NameTables.{AreDeclared};
ghost use Rattle.go_declared.specs.NamesakeTables.{AreNamesakes};
ghost use Rattle.go_entries.specs.Entries.{entry_of};
ghost use Rattle.go_entries.specs.HadEntries.{entries_at};
ghost use Rattle.go_model.specs.declared.types.term.Signature.{Signature};
ghost use Rattle.go_package_scopes.specs.KeptScopes.{Keeps};
ghost use Rattle.go_typings.specs.Declarations.{declarations};
ghost use Rattle.go_typings.specs.PackageEnvironments.{signed, underlying};
ghost use Rattle.go_typings.specs.Sources.{PackageSource, Setting};
ghost use Rattle.go_package_entries.specs.Settings.{setting_of};
ghost use Rattle.go_package_entries.specs.inner.TakenEntries.{Fits, entries_of, with_taken};

use crate::grown::Grown;
use crate::methods::take_method;
use crate::objects::take_objects;
use crate::tables::Tables;
use crate::types::take_type;
use go_base::memory::NoMemory;
use go_declarations::form::Form;
use go_declarations::listing::Declaration;
use go_entries::entry::Entry;
use go_model::types::term::Term;
use go_rules::env::Env;
use std::alloc::Global;

// Takes the type underneath a defined type.
fn take_underlying(
    env: &mut Env<'_>,
    alloc: Global,
    tables: &Tables<'_>,
    grown: Grown<'_>,
    form: &Form<'_>,
    term: &Term,
) -> Result<(), NoMemory>
    ensures ok { OnOk result (env.new ≡ with_taken tables.now grown.entry (form_of form.now) (underlying term.now) env.old) }
    ensures same { setting_of env.new ≡ setting_of env.old }
{
    match form {
        Form::Definition(spec) => take_type(env, alloc, tables, grown, &spec.name.text, term),
        _ => Ok(()),
    }
}

// Takes the signature of a method.
fn take_signed(
    env: &mut Env<'_>,
    alloc: Global,
    tables: &Tables<'_>,
    grown: Grown<'_>,
    form: &Form<'_>,
) -> Result<(), NoMemory>
    requires names { AreDeclared (declarations_of tables.now.declarations.now) tables.now.names.now }
    requires ends { AreEnds (declarations_of tables.now.declarations.now) tables.now.ends.items }
    ensures ok { (g : Signature) → OnOk result (env.new ≡ with_taken tables.now grown.entry (form_of form.now) (signed g) env.old) }
    ensures same { setting_of env.new ≡ setting_of env.old }
{
    match form {
        Form::Method(receiver, func) => take_method(env, alloc, tables, grown, receiver, func),
        _ => Ok(()),
    }
}

// Takes the entry that is one more.
fn take_entry(
    env: &mut Env<'_>,
    alloc: Global,
    tables: &Tables<'_>,
    grown: Grown<'_>,
    form: &Form<'_>,
) -> Result<(), NoMemory>
    requires names { AreDeclared (declarations_of tables.now.declarations.now) tables.now.names.now }
    requires ends { AreEnds (declarations_of tables.now.declarations.now) tables.now.ends.items }
    requires opened { env.old.opened ≡ [] }
    ensures ok { OnOk result (env.new ≡ with_taken tables.now grown.entry (form_of form.now) (entry_of grown.entry.entry.now) env.old) }
    ensures same { setting_of env.new ≡ setting_of env.old }
{
    match grown.entry {
        Entry::Objects(objects) => take_objects(
            env,
            alloc,
            tables.names,
            grown.number,
            form,
            objects.items(),
        ),
        Entry::Underlying(term) => take_underlying(env, alloc, tables, grown, form, term),
        Entry::Signed(_) => take_signed(env, alloc, tables, grown, form),
    }
}

/// Takes the entry that is one more into scopes that keep the others: then they keep it too.
pub(crate) fn take(
    env: &mut Env<'_>,
    alloc: Global,
    tables: &Tables<'_>,
    grown: Grown<'_>,
    declaration: &Declaration<'_>,
) -> Result<(), NoMemory>
    requires names { AreDeclared (declarations_of tables.now.declarations.now) tables.now.names.now }
    requires ends { AreEnds (declarations_of tables.now.declarations.now) tables.now.ends.items }
    requires opened { env.old.opened ≡ [] }
    ensures kept { OnOk result ((s : Setting) (u : PackageSource)
        → declarations u ≡ declarations_of tables.now.declarations.now → AreMethods (declarations u) tables.now.methods.now → AreNamesakes (declarations u) tables.now.namesakes
        → Keeps s u (entries_at grown.entry.had.now) env.old → entries_at grown.entry.had.now grown.entry.number ≡ None
        → slice_get (declarations u) grown.entry.number ≡ Some (declaration_of declaration.now) → Fits (form_of declaration.now.form) (entry_of grown.entry.entry.now)
        → Keeps s u (entries_of grown.entry) env.new) }
    ensures same { setting_of env.new ≡ setting_of env.old }
{
    take_entry(env, alloc, tables, grown, &declaration.form)
}
