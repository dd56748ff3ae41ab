//! Constants and variables that are declared in functions.
ghost use Rattle.std.specs.Prelude.{◌≡◌, ◌≢◌, ◌++◌, [], map, IfOk, OnOk};
ghost use Rattle.go_declarations.specs.Forms.{form_of};
ghost use Rattle.go_flat_statements.specs.Declaring.{JudgesSpec, JudgesSpecs};
ghost use Rattle.go_flat_statements.specs.Judging.{JudgesStatement};
ghost use Rattle.go_local_scopes.specs.Slots.{names_in};
ghost use Rattle.go_local_scopes.specs.States.{Kept, Reaches};
ghost use Rattle.go_local_specs.specs.LocalForms.{AreLocal, GivesLocal, IsLocal, forms_in, objects_in};
ghost use Rattle.go_rules.specs.Scopes.{env_of};
ghost use Rattle.go_statement_rules.specs.Scopes.{Declares, local_of};
ghost use Rattle.go_statement_rules.specs.Statements.{some_names};
ghost use Rattle.go_syntax.specs.declared.statement.StmtKind.{StmtKind-F};
ghost use Rattle.go_typings.specs.Declarations.{names_of};
ghost use Rattle.go_typings.specs.PackageEnvironments.{iota_of};
ghost use Rattle.go_usability.specs.Answers.{Gives};
ghost use Rattle.go_walks.specs.Below.{RunsBelow};

use go_assignments::go_entries::entry::Entry;
use go_base::list::List;
use go_base::memory::NoMemory;
use go_declarations::form::Form;
use go_declarations::listing::Declaration;
use go_judged::judged::Judged;
use go_local_scopes::declaring::declare_all;
use go_local_scopes::slots::{push_entities, push_names};
use go_local_specs::entities::{entities, objects};
use go_local_specs::listing::{constant_specs, variable_specs};
use go_model::types::package::Entity;
use go_nodes::declarations::trees_of;
use go_rules::env::Env;
use go_syntax::declaration::{ConstSpec, VarSpec};
use go_syntax::name::Name;
use go_usability::context::Context;
use go_walks::answers::found;
use go_walks::frame::Frame;
use go_walks::inner::Inner;
use go_walks::walk::Walk;
use std::alloc::Global;

// What the names of a spec denote, where it is typed.
fn entities_here(
    frame: &Frame<'_>,
    env: &Env<'_>,
    form: Form<'_>,
) -> Result<Option<Entry>, NoMemory>
    ensures { IsLocal (form_of form.entry) → IfOk result (Gives (λ x. GivesLocal (env_of env.now) (form_of form.entry) (objects_in x))) }
{
    let context = Context::new(env, frame.error);
    found(entities(&context, frame.alloc, form))
}

// The same where `iota` has its value.
fn entities_of(
    frame: &Frame<'_>,
    env: &mut Env<'_>,
    form: Form<'_>,
) -> Result<Option<Entry>, NoMemory>
    ensures same { env.new ≡ env.old }
    ensures given { IsLocal (form_of form.entry) → IfOk result (Gives (λ x. GivesLocal (env_of (record env.old { iota = iota_of (form_of form.entry) })) (form_of form.entry) (objects_in x))) }
{
    let before = env.iota();
    env.set_iota(form.iota());
    let given = entities_here(frame, env, form);
    env.set_iota(before);
    given
}

fn push_form<'a>(names: &mut List<Option<&'a Name>>, form: Form<'a>) -> Result<(), NoMemory>
    ensures { IsLocal (form_of form.entry) → OnOk result (names_in names.new ≡ names_in names.old ++ some_names (names_of (form_of form.entry))) }
{
    match form {
        Form::Constants(spec) => push_names(names, spec.names),
        Form::Variables(spec) => push_names(names, spec.names.items()),
        _ => Ok(()),
    }
}

// Declares the names of a spec.
fn declare(
    env: &mut Env<'_>,
    alloc: Global,
    form: Form<'_>,
    objects: &[Entity],
) -> Result<bool, NoMemory>
    requires { env.old.opened ≢ [] }
    ensures kept { Kept env.old env.new }
    ensures declared { IsLocal (form_of form.entry) → IfOk result (λ b. Reaches b (Declares env.old.opened (some_names (names_of (form_of form.entry))) (map local_of objects.now)) env.new.opened) }
{
    let mut names = List::new(alloc);
    push_form(&mut names, form)?;
    let mut meanings = List::new(alloc);
    push_entities(alloc, &mut meanings, objects)?;
    declare_all(env, alloc, names.items(), meanings.items())
}

// A spec of constants or variables.
fn spec<F: Fn(&mut Env<'_>, &Frame<'_>, usize, Inner<'_>) -> Result<Option<u32>, NoMemory>>(
    walk: &Walk<'_, F>,
    env: &mut Env<'_>,
    form: Form<'_>,
) -> Result<Judged, NoMemory>
    requires below { RunsBelow walk.now.height (F.pre walk.now.below) (F.post walk.now.below) }
    requires opened { env.old.opened ≢ [] }
    ensures kept { Kept env.old env.new }
    ensures judged { IsLocal (form_of form.entry) → JudgesSpec walk.now.frame.now env.old (form_of form.entry) env.new result }
{
    let trees = trees_of(walk.frame.alloc, form)?;
    let literals = walk.literals(env, trees)?;
    let given = entities_of(walk.frame, env, form)?;
    let untyped = literals.with_test(false);
    let entry = match given {
        Some(entry) => entry,
        None => return Ok(untyped),
    };
    let declared = declare(env, walk.frame.alloc, form, objects(&entry))?;
    let judged = literals.with_test(declared);
    Ok(judged)
}

// Specs one after another.
fn specs<F: Fn(&mut Env<'_>, &Frame<'_>, usize, Inner<'_>) -> Result<Option<u32>, NoMemory>>(
    walk: &Walk<'_, F>,
    env: &mut Env<'_>,
    listed: &[Declaration<'_>],
) -> Result<Judged, NoMemory>
    requires below { RunsBelow walk.now.height (F.pre walk.now.below) (F.post walk.now.below) }
    requires opened { env.old.opened ≢ [] }
    ensures kept { Kept env.old env.new }
    ensures judged { AreLocal (forms_in listed.now) → JudgesSpecs walk.now.frame.now env.old (forms_in listed.now) env.new result }
{
    for declaration in listed {
        let one = spec(walk, env, declaration.form)?;
        let typed = one.typed;
        if !typed {
            return Ok(one);
        }
    }
    Ok(Judged::tested(true))
}

/// A declaration of constants.
pub fn constants<
    F: Fn(&mut Env<'_>, &Frame<'_>, usize, Inner<'_>) -> Result<Option<u32>, NoMemory>,
>(walk: &Walk<'_, F>, env: &mut Env<'_>, group: &[ConstSpec]) -> Result<Judged, NoMemory>
    requires below { RunsBelow walk.now.height (F.pre walk.now.below) (F.post walk.now.below) }
    requires opened { env.old.opened ≢ [] }
    ensures kept { Kept env.old env.new }
    ensures judged { JudgesStatement walk.now.frame.now env.old (StmtKind-F.Const group.now) env.new result }
{
    let listed = constant_specs(walk.frame.alloc, group)?;
    specs(walk, env, listed.items())
}

/// A declaration of variables.
pub fn variables<
    F: Fn(&mut Env<'_>, &Frame<'_>, usize, Inner<'_>) -> Result<Option<u32>, NoMemory>,
>(walk: &Walk<'_, F>, env: &mut Env<'_>, group: &[VarSpec]) -> Result<Judged, NoMemory>
    requires below { RunsBelow walk.now.height (F.pre walk.now.below) (F.post walk.now.below) }
    requires opened { env.old.opened ≢ [] }
    ensures kept { Kept env.old env.new }
    ensures judged { JudgesStatement walk.now.frame.now env.old (StmtKind-F.Var group.now) env.new result }
{
    let listed = variable_specs(walk.frame.alloc, group)?;
    specs(walk, env, listed.items())
}
