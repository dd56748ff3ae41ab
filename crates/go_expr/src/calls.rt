//! Calls after an operand.
ghost use Rattle.std.specs.Prelude.{◌∷◌, map};
ghost use Rattle.go_calls.specs.Calls.{Calls};
ghost use Rattle.go_rules.specs.Expressions.{HasPost};
ghost use Rattle.go_rules.specs.Nodes.{expression, type as type_node};
ghost use Rattle.go_syntax.specs.declared.expression.Post.{Post-F};
ghost use Rattle.go_literals.specs.go_type_terms.Answers.{Tells, Types, TypesBelow, env_in};

use crate::exprs::Exprs;
use go_calls::calls::call;
use go_calls::go_usability::context::Context;
use go_literals::go_type_terms::error::ExprError;
use go_literals::go_type_terms::part::{Answer, Part};
use go_rules::operand::Operand;
use go_syntax::expression::Expr;
use go_syntax::types::Type;
use std::alloc::Global;

// What a call of an operand with these arguments is.
fn called(
    context: &Context<'_>,
    alloc: Global,
    loud: bool,
    operand: &Operand,
    operands: &[Operand],
    dots: bool,
) -> Result<Operand, ExprError>
    ensures { Tells (λ r. Calls (env_in context.now) loud operand.now operands.now dots r) result }
{
    match call(context, alloc, loud, operand, operands, dots)? {
        Some(result) => Ok(result),
        None => Err(ExprError::Untyped),
    }
}

impl<'a, F: Fn(&Context<'_>, Global, usize, Part<'_>) -> Result<Answer, ExprError>> Exprs<'a, F> {
    /// A call with arguments.
    #[inline(never)]
    pub(crate) fn call(
        &self,
        operand: &Operand,
        exprs: &[Expr],
        dots: bool,
    ) -> Result<(Operand, bool), ExprError>
        requires { TypesBelow self.now.literals.operations.typing.context.now self.now.literals.operations.typing.height (F.pre self.now.literals.operations.typing.below) (F.post self.now.literals.operations.typing.below) }
        ensures { Types (env_in self.now.literals.operations.typing.context.now) (HasPost (env_in self.now.literals.operations.typing.context.now) operand.now (Post-F.Call exprs.now dots)) (map expression exprs.now) result }
    {
        let (operands, loud) = self.arguments(exprs)?;
        let result = called(
            self.literals.operations.typing.context,
            self.literals.operations.typing.alloc,
            loud,
            operand,
            operands.items(),
            dots,
        )?;
        Ok((result, loud))
    }

    /// A call whose first argument is the type of channels of an element type that can only be received from.
    #[inline(never)]
    pub(crate) fn call_with_type(
        &self,
        operand: &Operand,
        element: &Type,
        exprs: &[Expr],
        dots: bool,
    ) -> Result<(Operand, bool), ExprError>
        requires { TypesBelow self.now.literals.operations.typing.context.now self.now.literals.operations.typing.height (F.pre self.now.literals.operations.typing.below) (F.post self.now.literals.operations.typing.below) }
        ensures { Types (env_in self.now.literals.operations.typing.context.now) (HasPost (env_in self.now.literals.operations.typing.context.now) operand.now (Post-F.CallReceiveChan element.now exprs.now dots)) (type_node element.now ∷ map expression exprs.now) result }
    {
        let (operands, loud) = self.arguments_after_type(element, exprs)?;
        let result = called(
            self.literals.operations.typing.context,
            self.literals.operations.typing.alloc,
            loud,
            operand,
            operands.items(),
            dots,
        )?;
        Ok((result, loud))
    }
}
