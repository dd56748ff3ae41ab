//! Operands that are types or function literals.
ghost use Rattle.std.specs.Prelude.{◌∷◌, []};
ghost use Rattle.go_rules.specs.Expressions.{HasForm};
ghost use Rattle.go_rules.specs.Nodes.{signature as signature_node, type as type_node};
ghost use Rattle.go_syntax.specs.declared.body.BodyRange.{BodyRange};
ghost use Rattle.go_syntax.specs.declared.expression.Expr.{Expr-F};
ghost use Rattle.go_type_terms.specs.Answers.{Types, TypesBelow, env_in};

use crate::operations::Operations;
use go_model::types::term::{Direction, Term};
use go_operators::go_usability::context::Context;
use go_operators::operands::{plain, type_name};
use go_rules::operand::Operand;
use go_syntax::types::{Signature, Type};
use go_type_terms::error::ExprError;
use go_type_terms::part::{Answer, Part};
use std::alloc::Global;

impl<'a, F: Fn(&Context<'_>, Global, usize, Part<'_>) -> Result<Answer, ExprError>> Operations<
    'a,
    F,
> {
    /// A type.
    pub fn type_operand(&self, form: &Type) -> Result<(Operand, bool), ExprError>
        requires { TypesBelow self.now.typing.context.now self.now.typing.height (F.pre self.now.typing.below) (F.post self.now.typing.below) }
        ensures { Types (env_in self.now.typing.context.now) (HasForm (env_in self.now.typing.context.now) (Expr-F.«Expr::Type» form.now)) (type_node form.now ∷ []) result }
    {
        let (term, loud) = self.typing.type_below(form)?;
        Ok((type_name(term), loud))
    }

    /// The type of channels of an element type that can only be received from, in parentheses.
    pub fn channel_operand(&self, element: &Type) -> Result<(Operand, bool), ExprError>
        requires { TypesBelow self.now.typing.context.now self.now.typing.height (F.pre self.now.typing.below) (F.post self.now.typing.below) }
        ensures { Types (env_in self.now.typing.context.now) (HasForm (env_in self.now.typing.context.now) (Expr-F.ParenReceiveChan element.now)) (type_node element.now ∷ []) result }
    {
        let (term, loud) = self.typing.channel(Direction::ReceiveOnly, element)?;
        Ok((type_name(term), loud))
    }

    /// A function literal.
    pub fn function(&self, signature: &Signature) -> Result<(Operand, bool), ExprError>
        requires { TypesBelow self.now.typing.context.now self.now.typing.height (F.pre self.now.typing.below) (F.post self.now.typing.below) }
        ensures { (body : BodyRange) → Types (env_in self.now.typing.context.now) (HasForm (env_in self.now.typing.context.now) (Expr-F.FuncLit signature.now body)) (signature_node signature.now ∷ []) result }
    {
        let (signed, loud) = self.typing.signature(signature)?;
        Ok((plain(Term::Func(signed)), loud))
    }
}
