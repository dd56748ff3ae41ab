//! The defined types of a package, as objects.
ghost use Rattle.std.specs.Prelude.{◌≡◌, [], IfOk, OnOk};
ghost use Rattle.go_declarations.specs.Forms.{form_of};
ghost use Rattle.go_declarations.specs.Listings.{declarations_of};
ghost use Rattle.go_new_scopes.specs.inner.OwnTypes.{type_object, with_declarations, with_form, with_type};

use go_base::memory::NoMemory;
use go_base::text::Text;
use go_declarations::form::Form;
use go_declarations::listing::Declaration;
use go_declared::names::DeclaredNames;
use go_model::types::names::TypeName;
use go_model::types::package::Entity;
use go_model::types::term::Term;
use go_rules::env::{DeclareError, Env};
use go_rules::seen::Seen;
use std::alloc::Global;

fn type_object(alloc: Global, path: &[u8], name: &Text) -> Result<Seen, NoMemory>
    ensures { IfOk result (λ seen. seen ≡ type_object path.now name.now) }
{
    let own = TypeName {
        path: Text::of(alloc, path)?,
        name: name.copy()?,
    };
    Ok(Seen::Object(Entity::TypeOf(Term::Named(own))))
}

// Declares a type of the package, unless its name means something already.
fn declare_type(env: &mut Env<'_>, alloc: Global, name: &Text) -> Result<(), NoMemory>
    requires { env.old.opened ≡ [] }
    ensures { OnOk result (env.new ≡ record env.old { declared = with_type env.old.path env.old.declared name.now }) }
{
    let object = type_object(alloc, env.path(), name)?;
    let name = name.copy()?;
    match env.declare(name, object) {
        Ok(()) => Ok(()),
        Err(DeclareError::Already) => Ok(()),
        Err(DeclareError::NoMemory) => Err(NoMemory),
    }
}

fn declare_form(
    env: &mut Env<'_>,
    alloc: Global,
    names: &DeclaredNames,
    number: usize,
    form: Form<'_>,
) -> Result<(), NoMemory>
    requires { env.old.opened ≡ [] }
    ensures { OnOk result (env.new ≡ record env.old { declared = with_form env.old.path names.now env.old.declared number (form_of form.entry) }) }
{
    match form {
        Form::Definition(spec) => {
            if !names.is_first(number, &spec.name.text) {
                return Ok(());
            }
            declare_type(env, alloc, &spec.name.text)
        }
        _ => Ok(()),
    }
}

/// Declares the defined types that these declarations declare first under their names.
pub(crate) fn declare_types(
    env: &mut Env<'_>,
    alloc: Global,
    names: &DeclaredNames,
    declarations: &[Declaration<'_>],
) -> Result<(), NoMemory>
    requires { env.old.opened ≡ [] }
    ensures { OnOk result (env.new ≡ record env.old { declared = with_declarations env.old.path names.now env.old.declared 0 (declarations_of declarations.now) }) }
{
    for number in 0..declarations.len() {
        declare_form(env, alloc, names, number, declarations[number].form)?;
    }
    Ok(())
}
