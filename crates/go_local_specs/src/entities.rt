//! What the names of a spec denote.
ghost use Rattle.std.specs.Prelude.{◌≡◌, IfOk};
ghost use Rattle.go_base.specs.Lists.{Each};
ghost use Rattle.go_declarations.specs.Forms.{form_of};
ghost use Rattle.go_local_specs.specs.LocalForms.{GivesLocal, IsLocal, is_objects, objects_in};
ghost use Rattle.go_rules.specs.Asks.{Meets};
ghost use Rattle.go_selectors.specs.Answers.{Decides};
ghost use Rattle.go_statement_rules.specs.Statements.{fits};
ghost use Rattle.go_type_terms.specs.Answers.{Tells, env_in};
ghost use Rattle.go_typings.specs.DeclarationNodes.{nodes};

use go_base::memory::NoMemory;
use go_declaration_asks::go_asks::meets::meet;
use go_declaration_asks::go_entries::entry::Entry;
use go_declaration_asks::go_entries::given::entry;
use go_declaration_asks::values::values_fit;
use go_declarations::form::Form;
use go_model::types::package::Entity;
use go_nodes::declarations::trees_of;
use go_type_terms::error::ExprError;
use go_type_terms::go_usability::context::Context;
use std::alloc::Global;

// Whether all that is asked in the types and values of a spec is met.
fn nodes_meet(context: &Context<'_>, alloc: Global, form: Form<'_>) -> Result<bool, NoMemory>
    ensures { IfOk result (λ answer. Decides answer (Each (Meets (env_in context.now)) (nodes (form_of form.entry)))) }
{
    let trees = trees_of(alloc, form)?;
    let met = meet(context, alloc, trees)?;
    Ok(met)
}

// Whether the values of variables fit their type.
fn form_fits(context: &Context<'_>, alloc: Global, form: Form<'_>) -> Result<bool, NoMemory>
    ensures { IfOk result (λ answer. Decides answer (fits (env_in context.now) (form_of form.entry))) }
{
    match form {
        Form::Variables(spec) => values_fit(
            context,
            alloc,
            &spec.type_,
            spec.names.items().len(),
            spec.values.items(),
        ),
        _ => Ok(true),
    }
}

fn is_objects(entry: &Entry) -> bool
    ensures { result ≡ is_objects entry.now }
{
    match entry {
        Entry::Objects(_) => true,
        _ => false,
    }
}

/// What names denote, by an entry.
pub fn objects(entry: &Entry) -> &[Entity]
    ensures { result.now ≡ objects_in entry.now }
{
    match entry {
        Entry::Objects(objects) => objects.items(),
        _ => &[],
    }
}

/// The entry of constants or variables: what their names denote, in order. `Untyped` exactly where they aren't typed.
pub fn entities(context: &Context<'_>, alloc: Global, form: Form<'_>) -> Result<Entry, ExprError>
    ensures { IsLocal (form_of form.entry) → Tells (λ x. GivesLocal (env_in context.now) (form_of form.entry) (objects_in x)) result }
{
    let given = entry(context, alloc, false, &form)?;
    // No entry of constants or variables is of another kind.
    if !is_objects(&given) {
        return Err(ExprError::NoMemory);
    }
    if !form_fits(context, alloc, form)? {
        return Err(ExprError::Untyped);
    }
    if !nodes_meet(context, alloc, form)? {
        return Err(ExprError::Untyped);
    }
    Ok(given)
}
