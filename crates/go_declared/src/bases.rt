//! The defined types for which methods are declared, after the aliases of the package.
ghost use Rattle.std.specs.Prelude.{◌≡◌, ℕ, List, Some};
ghost use Rattle.go_declarations.specs.Listings.{declarations_of};
ghost use Rattle.go_declarations.specs.go_typings.DeclarationRules.{is_qualified};
ghost use Rattle.go_declarations.specs.go_typings.Receivers.{after_aliases, base, base_in, defined_name, name_form as form_by, named_definition, written_name as name_by};
ghost use Rattle.go_declarations.specs.go_typings.Declarations.{declared, Declaration as Declared};
ghost use Rattle.go_declared.specs.AliasEnds.{AreEnds};
ghost use Rattle.go_declared.specs.NameTables.{AreDeclared, declared_form, found_form, place_of};
ghost use Rattle.go_declared.specs.inner.FormsAt.{FormAt};
ghost use Rattle.go_declared.specs.ReceiverNames.{form_of, text_of};

use crate::aliases::name_at;
use crate::names::{DeclaredNames, NamePlace};
use crate::receivers::{WrittenName, definition_name, name_form, written_name};
use go_base::text::Text;
use go_declarations::form::Form;
use go_declarations::listing::Declaration;
use go_syntax::name::QualifiedName;
use go_syntax::types::{ParameterDecl, Type};

fn form_at<'a>(declarations: &[Declaration<'a>], number: usize) -> Option<Form<'a>>
    ensures { FormAt declarations.now number result }
{
    if number < declarations.len() {
        Some(declarations[number].form)
    } else {
        None
    }
}

/// The form of the declaration that declares a name; None where there is none.
pub fn declared_form<'a>(
    declarations: &[Declaration<'a>],
    names: &DeclaredNames,
    name: &Text,
) -> Option<Form<'a>>
    requires { AreDeclared (declarations_of declarations.now) names.now }
    ensures { found_form result ≡ declared_form (declared (declarations_of declarations.now) name.now) }
{
    match names.get(name) {
        None => None,
        Some(place) => form_at(declarations, place.number),
    }
}

/// The form of the declaration at a place where names are declared.
pub fn form_there<'a>(declarations: &[Declaration<'a>], place: NamePlace) -> Option<Form<'a>>
    ensures { (name : List ℕ) → place_of (declared (declarations_of declarations.now) name) ≡ Some place → found_form result ≡ declared_form (declared (declarations_of declarations.now) name) }
{
    form_at(declarations, place.number)
}

// The defined type of the package for which a name stands.
fn definition<'a>(
    declarations: &[Declaration<'a>],
    names: &DeclaredNames,
    name: &'a QualifiedName,
) -> Option<&'a Text>
    requires { AreDeclared (declarations_of declarations.now) names.now }
    ensures { text_of result ≡ named_definition (declarations_of declarations.now) name.now }
{
    if name.qualifier.is_some() {
        return None;
    }
    match declared_form(declarations, names, &name.name.text) {
        None => None,
        Some(form) => definition_name(form),
    }
}

// The name that a name is after the aliases of the package.
fn after_aliases<'a>(
    names: &DeclaredNames,
    ends: &[Option<&'a QualifiedName>],
    name: &'a QualifiedName,
) -> &'a QualifiedName
    ensures { (ds : List Declared) → AreDeclared ds names.now → AreEnds ds ends.now → result.now ≡ after_aliases ds name.now }
{
    if name.qualifier.is_some() {
        return name;
    }
    match names.get(&name.name.text) {
        None => name,
        Some(place) => match name_at(ends, place.number) {
            None => name,
            Some(end) => end,
        },
    }
}

// The defined type of the package that is declared at a place where names are declared.
fn definition_there<'a>(declarations: &[Declaration<'a>], place: NamePlace) -> Option<&'a Text>
    ensures { (name : List ℕ) → place_of (declared (declarations_of declarations.now) name) ≡ Some place → text_of result ≡ defined_name (declared (declarations_of declarations.now) name) }
{
    match form_there(declarations, place) {
        None => None,
        Some(form) => definition_name(form),
    }
}

// The defined type of the package for which a name stands after the aliases of the package.
fn definition_after<'a>(
    declarations: &[Declaration<'a>],
    names: &DeclaredNames,
    ends: &[Option<&'a QualifiedName>],
    name: &'a QualifiedName,
) -> Option<&'a Text>
    requires names { AreDeclared (declarations_of declarations.now) names.now }
    requires ends { AreEnds (declarations_of declarations.now) ends.now }
    ensures { text_of result ≡ named_definition (declarations_of declarations.now) (after_aliases (declarations_of declarations.now) name.now) }
{
    if name.qualifier.is_some() {
        return None;
    }
    match names.get(&name.name.text) {
        None => None,
        Some(place) => match name_at(ends, place.number) {
            None => definition_there(declarations, place),
            Some(end) => definition(declarations, names, end),
        },
    }
}

fn base_of<'a>(
    declarations: &[Declaration<'a>],
    names: &DeclaredNames,
    ends: &[Option<&'a QualifiedName>],
    form: Option<WrittenName<'a>>,
) -> Option<&'a Text>
    requires names { AreDeclared (declarations_of declarations.now) names.now }
    requires ends { AreEnds (declarations_of declarations.now) ends.now }
    ensures { text_of result ≡ base_in (declarations_of declarations.now) (form_of form.entry) }
{
    match form {
        None => None,
        Some(form) => definition_after(declarations, names, ends, form.name),
    }
}

/// The defined type of the package of which a receiver is, or to which it points, after the aliases of the package; None
/// where there is none.
pub fn base<'a>(
    declarations: &[Declaration<'a>],
    names: &DeclaredNames,
    ends: &[Option<&'a QualifiedName>],
    receiver: &'a ParameterDecl,
) -> Option<&'a Text>
    requires names { AreDeclared (declarations_of declarations.now) names.now }
    requires ends { AreEnds (declarations_of declarations.now) ends.now }
    ensures { text_of result ≡ base (declarations_of declarations.now) receiver.now }
{
    base_of(declarations, names, ends, name_form(&receiver.type_))
}

/// Whether a type is written as a name that after the aliases of the package is one of another package.
pub fn is_qualified(names: &DeclaredNames, ends: &[Option<&QualifiedName>], type_: &Type) -> bool
    ensures { (ds : List Declared) → AreDeclared ds names.now → AreEnds ds ends.now → result ≡ is_qualified ds (name_by (form_by type_.now)) }
{
    match written_name(name_form(type_)) {
        None => false,
        Some(name) => after_aliases(names, ends, name).qualifier.is_some(),
    }
}
