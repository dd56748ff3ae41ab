//! The declarations of names that aren't those of fields.
ghost use Rattle.std.specs.Prelude.{◌≡◌, IfOk};
ghost use Rattle.std.specs.List.{list_any};
ghost use Rattle.go_base.specs.Gathered.{gather};
ghost use Rattle.go_declarations.specs.Forms.{form_of};
ghost use Rattle.go_rules.specs.Scopes.{env_of};
ghost use Rattle.go_declaration_graph.specs.inner.NamedNumbers.{is_declared_key, named};
ghost use Rattle.go_declaration_graph.specs.inner.Rows.{NamesIn};

use crate::field_keys::field_keys;
use crate::named::{push_all_counted, push_all_named};
use go_base::list::List;
use go_base::memory::NoMemory;
use go_declarations::form::Form;
use go_declared::names::DeclaredNames;
use go_references::references::Reference;
use go_rules::env::Env;
use std::alloc::Global;

fn is_declared_key(names: &DeclaredNames, reference: &Reference<'_>) -> bool
    ensures { result ≡ is_declared_key names.now reference.now }
{
    reference.is_key && names.get(&reference.name.text).is_some()
}

fn has_declared_key(names: &DeclaredNames, references: &[Reference<'_>]) -> bool
    ensures { result ≡ list_any (is_declared_key names.now) references.now }
{
    for reference in references {
        if is_declared_key(names, reference) {
            return true;
        }
    }
    false
}

// Those of all names, where no key is the name of a declaration.
fn named_row(
    alloc: Global,
    names: &DeclaredNames,
    references: &[Reference<'_>],
) -> Result<List<u32>, NoMemory>
    ensures { IfOk result (λ row. row ≡ gather (named names.now) references.now) }
{
    let mut row = List::new(alloc);
    push_all_named(&mut row, names, references)?;
    Ok(row)
}

// The same over the keys of fields that the declaration has.
fn row_by_keys(
    env: &Env<'_>,
    alloc: Global,
    names: &DeclaredNames,
    form: Form<'_>,
    references: &[Reference<'_>],
) -> Result<List<u32>, NoMemory>
    ensures { IfOk result (NamesIn names.now (env_of env.now) (form_of form.entry) references.now) }
{
    let keys = field_keys(env, alloc, form)?;
    let mut row = List::new(alloc);
    push_all_counted(&mut row, names, &keys, references)?;
    Ok(row)
}

/// The declarations that these references of a declaration name in the environment. Which keys are those of fields is found
/// only where one of them is the name of a declaration.
pub(crate) fn counted_row(
    env: &Env<'_>,
    alloc: Global,
    names: &DeclaredNames,
    form: Form<'_>,
    references: &[Reference<'_>],
) -> Result<List<u32>, NoMemory>
    ensures { IfOk result (NamesIn names.now (env_of env.now) (form_of form.entry) references.now) }
{
    if has_declared_key(names, references) {
        return row_by_keys(env, alloc, names, form, references);
    }
    named_row(alloc, names, references)
}
