//! What the declarations of a package say before any is settled.
ghost use Rattle.std.specs.Prelude.{◌≡◌};
ghost use Rattle.go_declarations.specs.Listings.{declarations_of};
ghost use Rattle.go_declarations.specs.Forms.{form_of};
ghost use Rattle.go_declared.specs.MethodTables.{method_name, name_by};

use go_declarations::form::Form;
use go_declarations::listing::Declaration;
use go_declared::methods::DeclaredMethods;
use go_declared::names::DeclaredNames;
use go_declared::namesakes::Namesakes;
use go_syntax::name::QualifiedName;

/// The declarations of a package, where they declare names, what these are after its aliases, and the methods of its types.
pub struct Tables<'a> {
    pub declarations: &'a [Declaration<'a>],
    pub names: &'a DeclaredNames,
    pub ends: Vec<Option<&'a QualifiedName>>,
    pub methods: &'a DeclaredMethods,
    pub namesakes: Namesakes,
}

impl Drop for Tables<'_> {
    fn drop(self) {
        let Tables {
            declarations: _,
            names: _,
            ends: _,
            methods: _,
            namesakes: _,
        } = self;
    }
}

fn name_by<'a>(form: Form<'a>) -> &'a [u8]
    ensures { result.now ≡ name_by (form_of form.entry) }
{
    match form {
        Form::Method(_, func) => func.name.text.bytes(),
        _ => &[],
    }
}

/// The name of the method that the declaration of a number declares.
pub(crate) fn method_name<'a>(declarations: &[Declaration<'a>], number: usize) -> &'a [u8]
    ensures { result.now ≡ method_name (declarations_of declarations.now) number }
{
    if number < declarations.len() {
        name_by(declarations[number].form)
    } else {
        &[]
    }
}
