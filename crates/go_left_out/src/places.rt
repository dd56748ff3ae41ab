//! Where declarations stand.
ghost use Rattle.std.specs.Prelude.{◌≡◌};
ghost use Rattle.go_declarations.specs.Forms.{form_of};
ghost use Rattle.go_declarations.specs.Listings.{declaration_of};
ghost use Rattle.go_typings.specs.Refusals.{first_offset, offset_of, place_of};

use go_declarations::form::Form;
use go_declarations::listing::Declaration;
use go_syntax::name::{Name, Place};

fn first_offset(names: &[Name]) -> u32
    ensures { result ≡ first_offset names.now }
{
    match names.first() {
        Some(name) => name.place,
        None => 0,
    }
}

fn offset_of(form: &Form<'_>) -> u32
    ensures { result ≡ offset_of (form_of form.now) }
{
    match form {
        Form::Constants(constants) => first_offset(constants.names),
        Form::Variables(spec) => first_offset(spec.names.items()),
        Form::Alias(spec) => spec.name.place,
        Form::Definition(spec) => spec.name.place,
        Form::Function(func) => func.name.place,
        Form::Method(_, func) => func.name.place,
    }
}

/// A declaration stands where its first name does.
pub fn place_of(declaration: &Declaration<'_>) -> Place
    ensures { result ≡ place_of (declaration_of declaration.now) }
{
    Place {
        file: declaration.file,
        offset: offset_of(&declaration.form),
    }
}
