//! The rows of one declaration.
ghost use Rattle.std.specs.Prelude.{◌≡◌, IfOk};
ghost use Rattle.go_declarations.specs.Forms.{form_of};
ghost use Rattle.go_rules.specs.Scopes.{env_of};
ghost use Rattle.go_typings.specs.DeclarationNodes as nodes;
ghost use Rattle.go_declaration_graph.specs.inner.NamedNumbers.{dependencies};
ghost use Rattle.go_declaration_graph.specs.inner.Rows.{AreRowsIn, LeadsIn, NamesIn, picked};

use crate::counted::counted_row;
use crate::found::push_found_in_each;
use crate::method_index::MethodIndex;
use crate::named::{push_all_named, push_own_methods};
use crate::references::{Kind, all_references, picked_references};
use go_base::list::List;
use go_base::memory::NoMemory;
use go_declarations::form::Form;
use go_declared::methods::DeclaredMethods;
use go_declared::names::DeclaredNames;
use go_nodes::declarations::trees_of;
use go_references::references::Reference;
use go_rules::env::Env;
use std::alloc::Global;

/// The rows of one declaration, one of each kind that a graph of declarations has.
#[derive(Drop)]
pub(crate) struct DeclarationRows {
    pub depends: List<u32>,
    pub leads: List<u32>,
    pub after: List<u32>,
    pub lengths: List<u32>,
}

/// On what a declaration with these references depends.
pub(crate) fn depends_by(
    alloc: Global,
    names: &DeclaredNames,
    methods: &DeclaredMethods,
    form: Form<'_>,
    references: &[Reference<'_>],
) -> Result<List<u32>, NoMemory>
    requires { references.now ≡ nodes.references (form_of form) }
    ensures { IfOk result (λ row. row ≡ dependencies names.now methods.now (form_of form.entry)) }
{
    let mut row = List::new(alloc);
    push_all_named(&mut row, names, references)?;
    push_own_methods(&mut row, methods, form)?;
    Ok(row)
}

// To what steps lead from a declaration with these references.
fn leads_by(
    env: &Env<'_>,
    alloc: Global,
    names: &DeclaredNames,
    index: &MethodIndex,
    form: Form<'_>,
    references: &[Reference<'_>],
) -> Result<List<u32>, NoMemory>
    requires { references.now ≡ nodes.references (form_of form) }
    ensures { IfOk result (LeadsIn names.now index.now.tables (env_of env.now) (form_of form.entry)) }
{
    let mut row = counted_row(env, alloc, names, form, references)?;
    let each = trees_of(alloc, form)?;
    push_found_in_each(env, alloc, &mut row, names, index, each.items())?;
    Ok(row)
}

/// To what steps lead from a declaration in the environment.
pub(crate) fn leads_row(
    env: &Env<'_>,
    alloc: Global,
    names: &DeclaredNames,
    index: &MethodIndex,
    form: Form<'_>,
) -> Result<List<u32>, NoMemory>
    ensures { IfOk result (LeadsIn names.now index.now.tables (env_of env.now) (form_of form.entry)) }
{
    let references = all_references(alloc, form)?;
    leads_by(env, alloc, names, index, form, references.items())
}

/// The declarations that the references of a kind name in a declaration, in the environment.
pub(crate) fn kind_row(
    env: &Env<'_>,
    alloc: Global,
    names: &DeclaredNames,
    kind: Kind,
    form: Form<'_>,
) -> Result<List<u32>, NoMemory>
    ensures { IfOk result (NamesIn names.now (env_of env.now) (form_of form.entry) (picked kind (form_of form.entry))) }
{
    let references = picked_references(alloc, kind, form)?;
    counted_row(env, alloc, names, form, references.items())
}

/// The rows of a declaration in the environment.
pub(crate) fn rows(
    env: &Env<'_>,
    alloc: Global,
    names: &DeclaredNames,
    methods: &DeclaredMethods,
    index: &MethodIndex,
    form: Form<'_>,
) -> Result<DeclarationRows, NoMemory>
    ensures { IfOk result (AreRowsIn names.now methods.now index.now.tables (env_of env.now) (form_of form.entry)) }
{
    let references = all_references(alloc, form)?;
    let depends = depends_by(alloc, names, methods, form, references.items())?;
    let leads = leads_by(env, alloc, names, index, form, references.items())?;
    let after = kind_row(env, alloc, names, Kind::Strong, form)?;
    let lengths = kind_row(env, alloc, names, Kind::InLengths, form)?;
    Ok(DeclarationRows {
        depends,
        leads,
        after,
        lengths,
    })
}
