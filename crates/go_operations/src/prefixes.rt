//! An operator before an operand.
ghost use Rattle.std.specs.Prelude.{◌≡◌, ◌∷◌, []};
ghost use Rattle.go_operations.specs.Prefixes.{is_receive_operator};
ghost use Rattle.go_rules.specs.Expressions.{HasForm, IsComposite};
ghost use Rattle.go_rules.specs.Nodes.{expression};
ghost use Rattle.go_operators.specs.go_selectors.Answers.{Decides};
ghost use Rattle.go_syntax.specs.declared.expression.Expr.{Expr-F};
ghost use Rattle.go_type_terms.specs.Answers.{Types, TypesBelow, env_in};

use crate::operations::Operations;
use go_base::operator::PrefixOperator;
use go_operators::go_usability::context::Context;
use go_operators::prefixes::prefix;
use go_rules::operand::Operand;
use go_syntax::expression::Expr;
use go_type_terms::error::ExprError;
use go_type_terms::part::{Answer, Part};
use std::alloc::Global;

// Whether an expression is a composite literal, parentheses aside.
#[cycle(is_composite)]
fn is_composite(expr: &Expr) -> bool
    ensures { Decides result (IsComposite expr.now) }
{
    match expr {
        Expr::Composite(_, _) => true,
        Expr::CompositeArray(_, _) => true,
        Expr::Paren(inner) => is_composite(inner.value()),
        _ => false,
    }
}

/// Whether an operator is `<-`.
pub fn is_receive(operator: PrefixOperator) -> bool
    ensures { result ≡ is_receive_operator operator }
{
    matches!(operator, PrefixOperator::Receive)
}

impl<'a, F: Fn(&Context<'_>, Global, usize, Part<'_>) -> Result<Answer, ExprError>> Operations<
    'a,
    F,
> {
    /// An operator and the operand behind it. The flag is that of the operand.
    pub fn prefixed(
        &self,
        operator: PrefixOperator,
        expr: &Expr,
    ) -> Result<(Operand, bool), ExprError>
        requires { TypesBelow self.now.typing.context.now self.now.typing.height (F.pre self.now.typing.below) (F.post self.now.typing.below) }
        ensures { Types (env_in self.now.typing.context.now) (HasForm (env_in self.now.typing.context.now) (Expr-F.Prefix operator expr.now)) (expression expr.now ∷ []) result }
    {
        let (operand, loud) = self.typing.expr_below(expr)?;
        let composite = is_composite(expr);
        match prefix(
            self.typing.context,
            self.typing.alloc,
            operator,
            composite,
            &operand,
        )? {
            Some(result) => Ok((result, loud)),
            None => Err(ExprError::Untyped),
        }
    }
}
