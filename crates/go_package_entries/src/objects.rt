//! Objects of declarations, taken into the scope of their package.
ghost use Rattle.std.specs.Prelude.{◌≡◌, [], OnOk, Some};
ghost use Rattle.go_base.specs.Keys.{item_of};
ghost use Rattle.go_declarations.specs.Forms.{form_of};
ghost use Rattle.go_rules.specs.Names.{value_at};
ghost use Rattle.go_typings.specs.Declarations.{names_of};
ghost use Rattle.go_typings.specs.PackageEnvironments.{as_object};
ghost use Rattle.go_package_entries.specs.Settings.{setting_of};
ghost use Rattle.go_package_entries.specs.inner.GivenObjects.{is_at, object_at, with_new, with_objects};

use go_base::memory::NoMemory;
use go_base::text::Text;
use go_declarations::form::Form;
use go_declared::names::{DeclaredNames, NamePlace};
use go_model::types::package::Entity;
use go_rules::env::{DeclareError, Env};
use go_rules::seen::Seen;
use go_syntax::name::Name;
use std::alloc::Global;

fn is_at(found: Option<NamePlace>, number: usize, place: usize) -> bool
    ensures { result ≡ is_at found number place }
{
    match found {
        None => false,
        Some(at) => at.number == number && at.place == place,
    }
}

// The object of a name at a place of a declaration, where the name is declared first there.
fn object_at<'b>(
    names: &DeclaredNames,
    number: usize,
    objects: &'b [Entity],
    place: usize,
    name: &Text,
) -> Option<&'b Entity>
    ensures { as_object (item_of result) ≡ object_at names.now number objects.now place name.now }
{
    if !is_at(names.get(name), number, place) {
        return None;
    }
    objects.get(place)
}

// Gives a name that has no meaning this one.
fn declare(env: &mut Env<'_>, alloc: Global, name: &Text, object: &Entity) -> Result<(), NoMemory>
    requires { env.old.opened ≡ [] }
    ensures ok { OnOk result (env.new ≡ record env.old { declared = with_new env.old.declared name.now (as_object (Some object.now)) }) }
    ensures same { setting_of env.new ≡ setting_of env.old }
{
    let name = name.copy()?;
    let seen = Seen::Object(object.copy(alloc)?);
    match env.declare(name, seen) {
        Err(DeclareError::NoMemory) => Err(NoMemory),
        _ => Ok(()),
    }
}

// Gives the name at a place of a declaration its object.
fn declare_at(
    env: &mut Env<'_>,
    alloc: Global,
    names: &DeclaredNames,
    number: usize,
    objects: &[Entity],
    place: usize,
    name: &Text,
) -> Result<(), NoMemory>
    requires { env.old.opened ≡ [] }
    ensures ok { OnOk result (env.new ≡ record env.old { declared = with_new env.old.declared name.now (object_at names.now number objects.now place name.now) }) }
    ensures same { setting_of env.new ≡ setting_of env.old }
{
    match object_at(names, number, objects, place, name) {
        None => Ok(()),
        Some(object) => declare(env, alloc, name, object),
    }
}

// Gives the names of a declaration their objects.
fn declare_all(
    env: &mut Env<'_>,
    alloc: Global,
    names: &DeclaredNames,
    number: usize,
    objects: &[Entity],
    written: &[Name],
) -> Result<(), NoMemory>
    requires { env.old.opened ≡ [] }
    ensures ok { OnOk result (env.new ≡ record env.old { declared = with_objects names.now number objects.now 0 written.now env.old.declared }) }
    ensures same { setting_of env.new ≡ setting_of env.old }
{
    for place in 0..written.len() {
        declare_at(
            env,
            alloc,
            names,
            number,
            objects,
            place,
            &written[place].text,
        )?;
    }
    Ok(())
}

/// Gives the names of a declaration their objects, by their places, where it declares them first and they mean nothing yet.
pub(crate) fn take_objects(
    env: &mut Env<'_>,
    alloc: Global,
    names: &DeclaredNames,
    number: usize,
    form: &Form<'_>,
    objects: &[Entity],
) -> Result<(), NoMemory>
    requires { env.old.opened ≡ [] }
    ensures ok { OnOk result (env.new ≡ record env.old { declared = with_objects names.now number objects.now 0 (names_of (form_of form.now)) env.old.declared }) }
    ensures same { setting_of env.new ≡ setting_of env.old }
{
    match form {
        Form::Constants(spec) => declare_all(env, alloc, names, number, objects, spec.names),
        Form::Variables(spec) => {
            declare_all(env, alloc, names, number, objects, spec.names.items())
        }
        Form::Alias(spec) => { declare_at(env, alloc, names, number, objects, 0, &spec.name.text) }
        Form::Definition(spec) => {
            declare_at(env, alloc, names, number, objects, 0, &spec.name.text)
        }
        Form::Function(func) => {
            declare_at(env, alloc, names, number, objects, 0, &func.name.text)
        }
        Form::Method(_, _) => Ok(()),
    }
}
