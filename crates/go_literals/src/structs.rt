//! Elements of literals of struct types.
ghost use Rattle.std.specs.Prelude.{◌≡◌};
ghost use Rattle.go_literals.specs.Structs.{AreKeyed, AreUnkeyed, MayBeUnkeyed, StructFits, names_fields};
ghost use Rattle.go_model.specs.types.Imports.{is_imported_struct};
ghost use Rattle.go_rules.specs.Nodes.{element_parts};
ghost use Rattle.go_selectors.specs.Answers.{Decides};
ghost use Rattle.go_operations.specs.go_type_terms.Answers.{Holds, TypesBelow, env_in};

use crate::once::are_keyed_once;
use crate::values::Literals;
use go_elements::go_usability::context::Context;
use go_model::types::names::is_imported;
use go_model::types::term::{Field, Term};
use go_operations::go_type_terms::error::ExprError;
use go_operations::go_type_terms::part::{Answer, Part};
use go_syntax::expression::Element;
use std::alloc::Global;

// Whether a type is a defined struct of another package than the client's.
fn is_imported_struct(context: &Context<'_>, term: &Term) -> bool
    ensures { result ≡ is_imported_struct (env_in context.now).table term.now }
{
    match term {
        Term::Named(name) => match context.under(term) {
            Term::Struct(_) => is_imported(name),
            _ => false,
        },
        _ => false,
    }
}

// Whether a literal of the type may have elements without keys.
fn may_be_unkeyed(context: &Context<'_>, term: &Term) -> bool
    ensures { Decides result (MayBeUnkeyed (env_in context.now) term.now) }
{
    if !context.is_entered(term) {
        return false;
    }
    if !context.env.is_profile() {
        return true;
    }
    !is_imported_struct(context, term)
}

// Whether elements begin with a key, or there are none.
fn names_fields(elements: &[Element]) -> bool
    ensures { result ≡ names_fields elements.now }
{
    match elements.first() {
        Some(element) => element.key.is_some(),
        None => true,
    }
}

impl<'a, F: Fn(&Context<'_>, Global, usize, Part<'_>) -> Result<Answer, ExprError>> Literals<
    'a,
    F,
> {
    // Whether elements are values of fields by their names.
    fn all_keyed(&self, fields: &[Field], elements: &[Element]) -> Result<bool, ExprError>
        requires { TypesBelow self.now.operations.typing.context.now self.now.operations.typing.height (F.pre self.now.operations.typing.below) (F.post self.now.operations.typing.below) }
        ensures { Holds (env_in self.now.operations.typing.context.now) (AreKeyed (env_in self.now.operations.typing.context.now) fields.now elements.now) (element_parts elements.now) result }
    {
        if !are_keyed_once(self.operations.typing.alloc, elements)? {
            return Err(ExprError::Untyped);
        }
        self.keyed(fields, elements)
    }

    // Whether there is a value for each field in order, and there may be.
    fn all_unkeyed(
        &self,
        term: &Term,
        fields: &[Field],
        elements: &[Element],
    ) -> Result<bool, ExprError>
        requires { TypesBelow self.now.operations.typing.context.now self.now.operations.typing.height (F.pre self.now.operations.typing.below) (F.post self.now.operations.typing.below) }
        ensures { Holds (env_in self.now.operations.typing.context.now) (AreUnkeyed (env_in self.now.operations.typing.context.now) term.now fields.now elements.now) (element_parts elements.now) result }
    {
        if !may_be_unkeyed(self.operations.typing.context, term) {
            return Err(ExprError::Untyped);
        }
        self.unkeyed(fields, elements)
    }

    /// Whether elements are those of a literal of a struct type with these fields.
    pub(crate) fn of_struct(
        &self,
        term: &Term,
        fields: &[Field],
        elements: &[Element],
    ) -> Result<bool, ExprError>
        requires { TypesBelow self.now.operations.typing.context.now self.now.operations.typing.height (F.pre self.now.operations.typing.below) (F.post self.now.operations.typing.below) }
        ensures { Holds (env_in self.now.operations.typing.context.now) (StructFits (env_in self.now.operations.typing.context.now) term.now fields.now elements.now) (element_parts elements.now) result }
    {
        if names_fields(elements) {
            self.all_keyed(fields, elements)
        } else {
            self.all_unkeyed(term, fields, elements)
        }
    }
}
