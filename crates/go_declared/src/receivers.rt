//! The types for which methods are declared.
ghost use Rattle.std.specs.Prelude.{◌≡◌};
ghost use Rattle.go_base.specs.Keys.{item_of};
ghost use Rattle.go_declarations.specs.Forms.{form_of as declared_form};
ghost use Rattle.go_declarations.specs.go_typings.Receivers.{aliased_by, definition_name, form_text, is_pointer_form, name_form, pointer_form, receiver_form, receiver_name, written_name};
ghost use Rattle.go_declared.specs.ReceiverNames.{form_of, text_of};

use go_base::text::Text;
use go_declarations::form::Form;
use go_syntax::name::QualifiedName;
use go_syntax::types::{ParameterDecl, Type};

/// The name of a type, and whether `*` stands before it.
#[derive(Clone, Copy)]
pub struct WrittenName<'a> {
    pub pointer: bool,
    pub name: &'a QualifiedName,
}

fn pointer_form<'a>(base: Option<WrittenName<'a>>) -> Option<WrittenName<'a>>
    ensures { form_of result ≡ pointer_form (form_of base.entry) }
{
    match base {
        None => None,
        Some(base) => {
            if base.pointer {
                return None;
            }
            Some(WrittenName {
                pointer: true,
                name: base.name,
            })
        }
    }
}

/// A type that is written as a name or as a pointer to one, parentheses aside; None where it is neither.
pub fn name_form<'a>(type_: &'a Type) -> Option<WrittenName<'a>>
    ensures { form_of result ≡ name_form type_.now }
{
    match type_ {
        Type::Named(name) => Some(WrittenName {
            pointer: false,
            name,
        }),
        Type::Paren(inner) => name_form(inner.value()),
        Type::Pointer(base) => pointer_form(name_form(base.value())),
        _ => None,
    }
}

fn form_text<'a>(form: Option<WrittenName<'a>>) -> Option<&'a Text>
    ensures { text_of result ≡ form_text (form_of form.entry) }
{
    match form {
        None => None,
        Some(form) => match &form.name.qualifier {
            Some(_) => None,
            None => Some(&form.name.name.text),
        },
    }
}

/// The name by which the type of a receiver is written, or the type that it points to; None where it's no name of its
/// own package.
pub fn receiver_name(receiver: &ParameterDecl) -> Option<&Text>
    ensures { text_of result ≡ receiver_name receiver.now }
{
    form_text(name_form(&receiver.type_))
}

/// Whether a receiver's type is written as a pointer to a name.
pub fn is_pointer(receiver: &ParameterDecl) -> bool
    ensures { result ≡ is_pointer_form (receiver_form receiver.now) }
{
    match name_form(&receiver.type_) {
        None => false,
        Some(form) => form.pointer,
    }
}

pub(crate) fn written_name<'a>(form: Option<WrittenName<'a>>) -> Option<&'a QualifiedName>
    ensures { item_of result ≡ written_name (form_of form.entry) }
{
    match form {
        None => None,
        Some(form) => {
            if form.pointer {
                return None;
            }
            Some(form.name)
        }
    }
}

pub(crate) fn aliased_by<'a>(form: Form<'a>) -> Option<&'a QualifiedName>
    ensures { item_of result ≡ aliased_by (declared_form form.entry) }
{
    match form {
        Form::Alias(spec) => written_name(name_form(&spec.type_)),
        _ => None,
    }
}

pub(crate) fn definition_name<'a>(form: Form<'a>) -> Option<&'a Text>
    ensures { text_of result ≡ definition_name (declared_form form.entry) }
{
    match form {
        Form::Definition(spec) => Some(&spec.name.text),
        _ => None,
    }
}
