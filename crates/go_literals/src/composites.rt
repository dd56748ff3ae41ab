//! Composite literals.
ghost use Rattle.std.specs.Prelude.{◌∷◌, None, Some};
ghost use Rattle.go_literals.specs.Elements.{AreIndexed};
ghost use Rattle.go_rules.specs.Expressions.{HasElements, HasForm};
ghost use Rattle.go_rules.specs.Nodes.{element_parts, type as type_node};
ghost use Rattle.go_syntax.specs.declared.expression.Expr.{Expr-F};
ghost use Rattle.go_operations.specs.go_type_terms.Answers.{Holds, Types, TypesBelow, env_in};

use crate::values::Literals;
use go_elements::go_operators::operands::plain;
use go_elements::go_usability::context::Context;
use go_model::types::term::Term;
use go_operations::go_type_terms::error::ExprError;
use go_operations::go_type_terms::loud::either;
use go_operations::go_type_terms::part::{Answer, Part};
use go_rules::operand::Operand;
use go_syntax::expression::Element;
use go_syntax::types::Type;
use std::alloc::Global;

impl<'a, F: Fn(&Context<'_>, Global, usize, Part<'_>) -> Result<Answer, ExprError>> Literals<
    'a,
    F,
> {
    // Whether elements are those of a literal of an array type of the length.
    fn of_array(&self, length: u64, term: &Term, elements: &[Element]) -> Result<bool, ExprError>
        requires { TypesBelow self.now.operations.typing.context.now self.now.operations.typing.height (F.pre self.now.operations.typing.below) (F.post self.now.operations.typing.below) }
        ensures { Holds (env_in self.now.operations.typing.context.now) (AreIndexed (env_in self.now.operations.typing.context.now) term.now (Some length) elements.now) (element_parts elements.now) result }
    {
        let (_, loud) = self.indexed(term, Some(length), elements)?;
        Ok(loud)
    }

    // Whether elements are those of a literal of a slice type.
    fn of_slice(&self, term: &Term, elements: &[Element]) -> Result<bool, ExprError>
        requires { TypesBelow self.now.operations.typing.context.now self.now.operations.typing.height (F.pre self.now.operations.typing.below) (F.post self.now.operations.typing.below) }
        ensures { Holds (env_in self.now.operations.typing.context.now) (AreIndexed (env_in self.now.operations.typing.context.now) term.now None elements.now) (element_parts elements.now) result }
    {
        let (_, loud) = self.indexed(term, None, elements)?;
        Ok(loud)
    }

    /// Whether elements are those of a literal of the type. `Untyped` where it is no struct, array, slice or map,
    /// or one of its elements isn't one of that type.
    pub fn elements(&self, term: &Term, elements: &[Element]) -> Result<bool, ExprError>
        requires { TypesBelow self.now.operations.typing.context.now self.now.operations.typing.height (F.pre self.now.operations.typing.below) (F.post self.now.operations.typing.below) }
        ensures { Holds (env_in self.now.operations.typing.context.now) (HasElements (env_in self.now.operations.typing.context.now) term.now elements.now) (element_parts elements.now) result }
    {
        match self.operations.typing.context.under(term) {
            Term::Struct(fields) => self.of_struct(term, fields.items(), elements),
            Term::Array(length, element) => self.of_array(*length, element.value(), elements),
            Term::Slice(element) => self.of_slice(element.value(), elements),
            Term::Map(key, element) => self.pairs(key.value(), element.value(), elements),
            _ => Err(ExprError::Untyped),
        }
    }

    /// A composite literal of a type.
    pub fn composite(&self, form: &Type, elements: &[Element]) -> Result<(Operand, bool), ExprError>
        requires { TypesBelow self.now.operations.typing.context.now self.now.operations.typing.height (F.pre self.now.operations.typing.below) (F.post self.now.operations.typing.below) }
        ensures { Types (env_in self.now.operations.typing.context.now) (HasForm (env_in self.now.operations.typing.context.now) (Expr-F.Composite form.now elements.now)) (type_node form.now ∷ element_parts elements.now) result }
    {
        let (term, loud) = self.operations.typing.type_below(form)?;
        let louder = self.elements(&term, elements)?;
        Ok((plain(term), either(loud, louder)))
    }

    /// A composite literal of an array type whose length is that of its elements.
    pub fn composite_array(
        &self,
        form: &Type,
        elements: &[Element],
    ) -> Result<(Operand, bool), ExprError>
        requires { TypesBelow self.now.operations.typing.context.now self.now.operations.typing.height (F.pre self.now.operations.typing.below) (F.post self.now.operations.typing.below) }
        ensures { Types (env_in self.now.operations.typing.context.now) (HasForm (env_in self.now.operations.typing.context.now) (Expr-F.CompositeArray form.now elements.now)) (type_node form.now ∷ element_parts elements.now) result }
    {
        let (element, loud) = self.operations.typing.boxed_below(form)?;
        let (length, louder) = self.indexed(element.value(), None, elements)?;
        Ok((plain(Term::Array(length, element)), either(loud, louder)))
    }
}
