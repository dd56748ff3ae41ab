//! The methods that the defined types of a package are known to have.
ghost use Rattle.std.specs.Prelude.{◌≡◌, OnOk};
ghost use Rattle.go_declarations.specs.Forms.{form_of};
ghost use Rattle.go_declarations.specs.Listings.{declarations_of};
ghost use Rattle.go_new_scopes.specs.inner.AwaitedMethods.{with_declarations, with_form, with_method, with_rows};

use go_base::memory::NoMemory;
use go_base::text::Text;
use go_declarations::form::Form;
use go_declarations::listing::Declaration;
use go_declared::methods::{DeclaredMethods, MethodRow, method_name};
use go_declared::names::DeclaredNames;
use go_rules::blank::is_blank;
use go_rules::env::Env;

// Awaits a method of a type, unless its name is blank.
fn await_method(env: &mut Env<'_>, type_name: &Text, name: &[u8]) -> Result<(), NoMemory>
    ensures { OnOk result (env.new ≡ record env.old { awaited = with_method env.old.path type_name.now env.old.awaited name.now }) }
{
    if is_blank(name) {
        return Ok(());
    }
    let sel = env.selector(name)?;
    let type_name = type_name.copy()?;
    env.await_method(type_name, sel)
}

fn await_rows(
    env: &mut Env<'_>,
    declarations: &[Declaration<'_>],
    type_name: &Text,
    rows: &[MethodRow],
) -> Result<(), NoMemory>
    ensures { OnOk result (env.new ≡ record env.old { awaited = with_rows (declarations_of declarations.now) env.old.path type_name.now env.old.awaited rows.now }) }
{
    for row in rows {
        let name = method_name(declarations, row.number);
        await_method(env, type_name, name)?;
    }
    Ok(())
}

// Awaits the methods of the type that a declaration declares, where it is the first of its name.
fn await_form(
    env: &mut Env<'_>,
    names: &DeclaredNames,
    methods: &DeclaredMethods,
    declarations: &[Declaration<'_>],
    number: usize,
    form: Form<'_>,
) -> Result<(), NoMemory>
    ensures { OnOk result (env.new ≡ record env.old { awaited = with_form (declarations_of declarations.now) env.old.path names.now methods.now env.old.awaited number (form_of form.entry) }) }
{
    match form {
        Form::Definition(spec) => {
            let name = &spec.name.text;
            if !names.is_first(number, name) {
                return Ok(());
            }
            await_rows(env, declarations, name, methods.of_type(name))
        }
        _ => Ok(()),
    }
}

/// Awaits the methods of the defined types that these declarations declare first under their names, each in the order of
/// its declarations.
pub(crate) fn await_methods(
    env: &mut Env<'_>,
    names: &DeclaredNames,
    methods: &DeclaredMethods,
    declarations: &[Declaration<'_>],
) -> Result<(), NoMemory>
    ensures { OnOk result (env.new ≡ record env.old { awaited = with_declarations (declarations_of declarations.now) env.old.path names.now methods.now env.old.awaited 0 (declarations_of declarations.now) }) }
{
    for number in 0..declarations.len() {
        let form = declarations[number].form;
        await_form(env, names, methods, declarations, number, form)?;
    }
    Ok(())
}
