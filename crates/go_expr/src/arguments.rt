//! The arguments of calls.
ghost use Rattle.std.specs.Prelude.{◌∷◌, [], map};
ghost use Rattle.go_expr.specs.Arguments.{HasEachAfter, receive_type};
ghost use Rattle.go_rules.specs.Expressions.{Has, HasEach};
ghost use Rattle.go_rules.specs.Nodes.{expression, type as type_node};
ghost use Rattle.go_literals.specs.go_type_terms.Answers.{Types, TypesBelow, env_in};

use crate::exprs::Exprs;
use go_base::list::List;
use go_calls::go_operators::operands::type_name;
use go_calls::go_usability::context::Context;
use go_literals::go_type_terms::error::ExprError;
use go_literals::go_type_terms::loud::either;
use go_literals::go_type_terms::part::{Answer, Part};
use go_model::types::bounds::is_within_bounds;
use go_model::types::term::Direction;
use go_rules::operand::Operand;
use go_syntax::expression::Expr;
use go_syntax::types::Type;
use std::alloc::Global;

impl<'a, F: Fn(&Context<'_>, Global, usize, Part<'_>) -> Result<Answer, ExprError>> Exprs<'a, F> {
    // What each expression is, after some operands.
    fn each_after(
        &self,
        before: List<Operand>,
        exprs: &[Expr],
    ) -> Result<(List<Operand>, bool), ExprError>
        requires { TypesBelow self.now.literals.operations.typing.context.now self.now.literals.operations.typing.height (F.pre self.now.literals.operations.typing.below) (F.post self.now.literals.operations.typing.below) }
        ensures { Types (env_in self.now.literals.operations.typing.context.now) (HasEachAfter (env_in self.now.literals.operations.typing.context.now) before exprs.now) (map expression exprs.now) result }
    {
        let mut operands = before;
        let mut loud = false;
        for expr in exprs {
            let (operand, louder) = self.literals.operations.typing.expr_below(expr)?;
            operands.push(operand)?;
            loud = either(loud, louder);
        }
        Ok((operands, loud))
    }

    // The type of channels of an element type that can only be received from, as an argument.
    fn receive_type(&self, element: &Type) -> Result<(Operand, bool), ExprError>
        requires { TypesBelow self.now.literals.operations.typing.context.now self.now.literals.operations.typing.height (F.pre self.now.literals.operations.typing.below) (F.post self.now.literals.operations.typing.below) }
        ensures { Types (env_in self.now.literals.operations.typing.context.now) (Has (env_in self.now.literals.operations.typing.context.now) (receive_type element.now)) (type_node element.now ∷ []) result }
    {
        let (term, loud) = self
            .literals
            .operations
            .typing
            .channel(Direction::ReceiveOnly, element)?;
        if !is_within_bounds(&term) {
            return Err(ExprError::Untyped);
        }
        Ok((type_name(term), loud))
    }

    /// What each argument is.
    pub(crate) fn arguments(&self, exprs: &[Expr]) -> Result<(List<Operand>, bool), ExprError>
        requires { TypesBelow self.now.literals.operations.typing.context.now self.now.literals.operations.typing.height (F.pre self.now.literals.operations.typing.below) (F.post self.now.literals.operations.typing.below) }
        ensures { Types (env_in self.now.literals.operations.typing.context.now) (HasEach (env_in self.now.literals.operations.typing.context.now) exprs.now) (map expression exprs.now) result }
    {
        self.each_after(List::new(self.literals.operations.typing.alloc), exprs)
    }

    /// What each argument is, where the first one is a channel type.
    pub(crate) fn arguments_after_type(
        &self,
        element: &Type,
        exprs: &[Expr],
    ) -> Result<(List<Operand>, bool), ExprError>
        requires { TypesBelow self.now.literals.operations.typing.context.now self.now.literals.operations.typing.height (F.pre self.now.literals.operations.typing.below) (F.post self.now.literals.operations.typing.below) }
        ensures { Types (env_in self.now.literals.operations.typing.context.now) (HasEach (env_in self.now.literals.operations.typing.context.now) (receive_type element.now ∷ exprs.now)) (type_node element.now ∷ map expression exprs.now) result }
    {
        let (first, loud) = self.receive_type(element)?;
        let mut before = List::new(self.literals.operations.typing.alloc);
        before.push(first)?;
        let (operands, louder) = self.each_after(before, exprs)?;
        Ok((operands, either(loud, louder)))
    }
}
