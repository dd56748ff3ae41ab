//! Keys and values of composite literals.
ghost use Rattle.std.specs.Prelude.{◌∷◌, []};
ghost use Rattle.go_literals.specs.Elements.{BareFits, ExprFits};
ghost use Rattle.go_model.specs.types.Underlying.{under};
ghost use Rattle.go_rules.specs.Expressions.{ElementFits};
ghost use Rattle.go_rules.specs.Nodes.{element_parts, expression, value as value_node};
ghost use Rattle.go_operations.specs.go_type_terms.Answers.{Holds, TypesBelow, env_in};

use go_elements::go_usability::context::Context;
use go_elements::go_usability::usable::usable;
use go_model::types::term::Term;
use go_operations::go_type_terms::error::ExprError;
use go_operations::go_type_terms::part::{Answer, Part};
use go_operations::operations::Operations;
use go_syntax::expression::{Element, ElementValue, Expr};
use std::alloc::Global;

/// What types composite literals, over what types their parts.
#[derive(Clone, Copy)]
pub struct Literals<'a, F> {
    pub operations: Operations<'a, F>,
}

impl<'a, F: Fn(&Context<'_>, Global, usize, Part<'_>) -> Result<Answer, ExprError>> Literals<
    'a,
    F,
> {
    /// Whether an expression is usable as a value of the type.
    pub(crate) fn expr_fits(&self, term: &Term, expr: &Expr) -> Result<bool, ExprError>
        requires { TypesBelow self.now.operations.typing.context.now self.now.operations.typing.height (F.pre self.now.operations.typing.below) (F.post self.now.operations.typing.below) }
        ensures { Holds (env_in self.now.operations.typing.context.now) (ExprFits (env_in self.now.operations.typing.context.now) term.now expr.now) (expression expr.now ∷ []) result }
    {
        let (operand, loud) = self.operations.typing.expr_below(expr)?;
        if !usable(
            self.operations.typing.context,
            self.operations.typing.alloc,
            &operand,
            term,
        )? {
            return Err(ExprError::Untyped);
        }
        Ok(loud)
    }

    // Whether elements in braces are those of a value of the type, or of the base to which it points.
    fn bare_fits(&self, term: &Term, elements: &[Element]) -> Result<bool, ExprError>
        requires { TypesBelow self.now.operations.typing.context.now self.now.operations.typing.height (F.pre self.now.operations.typing.below) (F.post self.now.operations.typing.below) }
        ensures { Holds (env_in self.now.operations.typing.context.now) (BareFits (env_in self.now.operations.typing.context.now) term.now (under (env_in self.now.operations.typing.context.now).table term.now) elements.now) (element_parts elements.now) result }
    {
        match self.operations.typing.context.under(term) {
            Term::Pointer(base) => self
                .operations
                .typing
                .elements_below(base.value(), elements),
            _ => self.operations.typing.elements_below(term, elements),
        }
    }

    /// Whether a key or a value is a value of the type.
    pub(crate) fn element_fits(&self, term: &Term, value: &ElementValue) -> Result<bool, ExprError>
        requires { TypesBelow self.now.operations.typing.context.now self.now.operations.typing.height (F.pre self.now.operations.typing.below) (F.post self.now.operations.typing.below) }
        ensures { Holds (env_in self.now.operations.typing.context.now) (ElementFits (env_in self.now.operations.typing.context.now) term.now value.now) (value_node value.now ∷ []) result }
    {
        match value {
            ElementValue::Value(expr) => self.expr_fits(term, expr),
            ElementValue::Literal(elements) => self.bare_fits(term, elements.items()),
        }
    }
}
