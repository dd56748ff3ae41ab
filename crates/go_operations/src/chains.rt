//! Chains of operators, from left to right.
ghost use Rattle.std.specs.Prelude.{◌∷◌, [], length, map};
ghost use Rattle.go_operations.specs.Chains.{Chains, ChainsFrom, Steps, operators_of};
ghost use Rattle.go_rules.specs.Nodes.{expression};
ghost use Rattle.go_type_terms.specs.Answers.{Types, TypesBelow, env_in};

use crate::operations::Operations;
use crate::operators::{Operator, Operators, combine};
use go_operators::go_usability::context::Context;
use go_rules::operand::Operand;
use go_syntax::expression::Expr;
use go_type_terms::error::ExprError;
use go_type_terms::loud::either;
use go_type_terms::part::{Answer, Part};
use std::alloc::Global;

impl<'a, F: Fn(&Context<'_>, Global, usize, Part<'_>) -> Result<Answer, ExprError>> Operations<
    'a,
    F,
> {
    // What an operator makes of an operand and the expression behind it.
    fn step(
        &self,
        operator: Option<Operator>,
        left: &Operand,
        other: &Expr,
    ) -> Result<(Operand, bool), ExprError>
        requires { TypesBelow self.now.typing.context.now self.now.typing.height (F.pre self.now.typing.below) (F.post self.now.typing.below) }
        ensures { Types (env_in self.now.typing.context.now) (Steps (env_in self.now.typing.context.now) operator left.now other.now) (expression other.now ∷ []) result }
    {
        let operator = match operator {
            Some(operator) => operator,
            None => return Err(ExprError::Untyped),
        };
        let (right, loud) = self.typing.expr_below(other)?;
        match combine(
            self.typing.context,
            self.typing.alloc,
            operator,
            left,
            &right,
        )? {
            Some(operand) => Ok((operand, loud)),
            None => Err(ExprError::Untyped),
        }
    }

    // A chain of operators after an operand.
    fn chain_after(
        &self,
        first: Operand,
        operators: &Operators<'_>,
        others: &[Expr],
    ) -> Result<(Operand, bool), ExprError>
        requires { TypesBelow self.now.typing.context.now self.now.typing.height (F.pre self.now.typing.below) (F.post self.now.typing.below) }
        ensures { Types (env_in self.now.typing.context.now) (Chains (env_in self.now.typing.context.now) (operators_of operators.now (length others.now)) first others.now) (map expression others.now) result }
    {
        let mut left = first;
        let mut loud = false;
        for at in 0..others.len() {
            let (next, louder) = self.step(operators.at(at), &left, &others[at])?;
            left = next;
            loud = either(loud, louder);
        }
        if !operators.end_by(others.len()) {
            return Err(ExprError::Untyped);
        }
        Ok((left, loud))
    }

    /// A chain of operators.
    pub fn chain(
        &self,
        first: &Expr,
        operators: Operators<'_>,
        others: &[Expr],
    ) -> Result<(Operand, bool), ExprError>
        requires { TypesBelow self.now.typing.context.now self.now.typing.height (F.pre self.now.typing.below) (F.post self.now.typing.below) }
        ensures { Types (env_in self.now.typing.context.now) (ChainsFrom (env_in self.now.typing.context.now) (operators_of operators.entry (length others.now)) first.now others.now) (expression first.now ∷ map expression others.now) result }
    {
        let (left, loud) = self.typing.expr_below(first)?;
        let (operand, louder) = self.chain_after(left, &operators, others)?;
        Ok((operand, either(loud, louder)))
    }
}
