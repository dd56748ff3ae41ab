//! The typing of trees up to a height.
ghost use Rattle.go_expr.specs.Posts.{StepTyped};
ghost use Rattle.go_literals.specs.go_type_terms.Answers.{TypesBelow, TypesPart, env_in};

use crate::exprs::Exprs;
use go_calls::go_usability::context::Context;
use go_literals::go_operations::operations::Operations;
use go_literals::go_type_terms::error::ExprError;
use go_literals::go_type_terms::part::{Answer, Part};
use go_literals::go_type_terms::typing::Typing;
use go_literals::values::Literals;
use go_rules::operand::Operand;
use go_syntax::expression::Post;
use std::alloc::Global;

impl<'a, F: Fn(&Context<'_>, Global, usize, Part<'_>) -> Result<Answer, ExprError>> Exprs<'a, F> {
    // A part whose own parts are of lower heights.
    fn part(&self, part: Part<'_>) -> Result<Answer, ExprError>
        requires { TypesBelow self.now.literals.operations.typing.context.now self.now.literals.operations.typing.height (F.pre self.now.literals.operations.typing.below) (F.post self.now.literals.operations.typing.below) }
        ensures { TypesPart (env_in self.now.literals.operations.typing.context.now) part.entry result }
    {
        match part {
            Part::Expr(expr) => {
                let (operand, loud) = self.expr(expr)?;
                Ok(Answer::Operand(operand, loud))
            }
            Part::Type(form) => {
                let (term, loud) = self.literals.operations.typing.type_(form)?;
                Ok(Answer::Type(term, loud))
            }
            Part::Elements(term, elements) => {
                let loud = self.literals.elements(term, elements)?;
                Ok(Answer::Elements(loud))
            }
        }
    }
}

/// What a part of a height below this is.
pub(crate) fn below(
    context: &Context<'_>,
    alloc: Global,
    height: usize,
    part: Part<'_>,
) -> Result<Answer, ExprError>
    ensures { TypesPart (env_in context.now) part.entry result }
{
    if height == 0 {
        return Err(ExprError::NoMemory);
    }
    let typing = Typing {
        context: &*context,
        alloc,
        height: height - 1,
        below,
    };
    let literals = Literals {
        operations: Operations { typing },
    };
    Exprs { literals }.part(part)
}

/// What one post makes of an operand, where its parts are of heights below this.
pub(crate) fn step_below(
    context: &Context<'_>,
    alloc: Global,
    height: usize,
    operand: &Operand,
    post: &Post,
) -> Result<(Operand, bool), ExprError>
    ensures { StepTyped (env_in context.now) operand.now post.now result }
{
    let typing = Typing {
        context: &*context,
        alloc,
        height,
        below,
    };
    let literals = Literals {
        operations: Operations { typing },
    };
    Exprs { literals }.step(operand, post)
}
