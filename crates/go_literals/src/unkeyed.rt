//! Values of fields in order.
ghost use Rattle.std.specs.Prelude.{◌≡◌};
ghost use Rattle.go_literals.specs.Elements.{UnkeyedFits, parts_of};
ghost use Rattle.go_model.specs.declared.types.term.Field.{out-Field};
ghost use Rattle.go_rules.specs.Expressions.{HasUnkeyed, IsReachable};
ghost use Rattle.go_rules.specs.Nodes.{element_parts};
ghost use Rattle.go_selectors.specs.Answers.{Decides};
ghost use Rattle.go_operations.specs.go_type_terms.Answers.{Holds, TypesBelow, env_in};

use crate::keys::{expr_alone, is_without_key};
use crate::values::Literals;
use go_elements::go_usability::context::Context;
use go_model::types::term::Field;
use go_operations::go_type_terms::error::ExprError;
use go_operations::go_type_terms::loud::either;
use go_operations::go_type_terms::part::{Answer, Part};
use go_syntax::expression::Element;
use std::alloc::Global;

// Whether a literal without keys may give the field a value.
fn is_reachable(context: &Context<'_>, field: &Field) -> bool
    ensures { Decides result (IsReachable (env_in context.now) field.now) }
{
    if field.sel.package.bytes() == b"".as_slice() {
        return true;
    }
    field.sel.package.bytes() == context.env.path()
}

impl<'a, F: Fn(&Context<'_>, Global, usize, Part<'_>) -> Result<Answer, ExprError>> Literals<
    'a,
    F,
> {
    // Whether an element, without a key, is a value of the field.
    fn unkeyed_fits(&self, field: &Field, element: &Element) -> Result<bool, ExprError>
        requires { TypesBelow self.now.operations.typing.context.now self.now.operations.typing.height (F.pre self.now.operations.typing.below) (F.post self.now.operations.typing.below) }
        ensures { Holds (env_in self.now.operations.typing.context.now) (UnkeyedFits (env_in self.now.operations.typing.context.now) field.now element.now) (parts_of element.now) result }
    {
        if !is_without_key(element) {
            return Err(ExprError::Untyped);
        }
        if !is_reachable(self.operations.typing.context, field) {
            return Err(ExprError::Untyped);
        }
        let expr = match expr_alone(&element.value) {
            Some(expr) => expr,
            None => return Err(ExprError::Untyped),
        };
        self.expr_fits(&field.term, expr)
    }

    /// Whether there is a value for each field in order.
    pub(crate) fn unkeyed(&self, fields: &[Field], elements: &[Element]) -> Result<bool, ExprError>
        requires { TypesBelow self.now.operations.typing.context.now self.now.operations.typing.height (F.pre self.now.operations.typing.below) (F.post self.now.operations.typing.below) }
        ensures { Holds (env_in self.now.operations.typing.context.now) (HasUnkeyed (env_in self.now.operations.typing.context.now) fields.now elements.now) (element_parts elements.now) result }
    {
        if fields.len() != elements.len() {
            return Err(ExprError::Untyped);
        }
        let mut loud = false;
        for at in 0..elements.len() {
            let louder = self.unkeyed_fits(&fields[at], &elements[at])?;
            loud = either(loud, louder);
        }
        Ok(loud)
    }
}
