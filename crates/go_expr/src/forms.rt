//! Each form of an expression.
ghost use Rattle.std.specs.Prelude.{◌≡◌, ◌∷◌, []};
ghost use Rattle.go_rules.specs.Expressions.{Has, HasForm};
ghost use Rattle.go_rules.specs.Nodes.{expression};
ghost use Rattle.go_syntax.specs.declared.expression.Expr.{Expr, Expr-F, out-Expr};
ghost use Rattle.go_literals.specs.go_type_terms.Answers.{Types, TypesBelow, env_in};

use crate::bounds::is_within;
use crate::exprs::Exprs;
use go_base::operator::PrefixOperator;
use go_calls::go_usability::context::Context;
use go_literals::go_operations::literals::literal;
use go_literals::go_operations::names::named;
use go_literals::go_operations::operators::Operators;
use go_literals::go_operations::prefixes::is_receive;
use go_literals::go_type_terms::error::ExprError;
use go_literals::go_type_terms::loud::either;
use go_literals::go_type_terms::part::{Answer, Part};
use go_model::constants::value::BinaryOp;
use go_rules::operand::Operand;
use go_syntax::expression::Expr;
use std::alloc::Global;

impl<'a, F: Fn(&Context<'_>, Global, usize, Part<'_>) -> Result<Answer, ExprError>> Exprs<'a, F> {
    // A prefix operator and its operand; the flag tells also of a receive.
    fn prefixed(
        &self,
        operator: PrefixOperator,
        operand: &Expr,
    ) -> Result<(Operand, bool), ExprError>
        requires { TypesBelow self.now.literals.operations.typing.context.now self.now.literals.operations.typing.height (F.pre self.now.literals.operations.typing.below) (F.post self.now.literals.operations.typing.below) }
        ensures { (e : Expr) → out-Expr e ≡ Expr-F.Prefix operator operand.now → Types (env_in self.now.literals.operations.typing.context.now) (HasForm (env_in self.now.literals.operations.typing.context.now) (Expr-F.Prefix operator operand.now)) (expression e ∷ []) result }
    {
        let (result, loud) = self.literals.operations.prefixed(operator, operand)?;
        Ok((result, either(loud, is_receive(operator))))
    }

    // What an expression is by its form.
    fn form(&self, expr: &Expr) -> Result<(Operand, bool), ExprError>
        requires { TypesBelow self.now.literals.operations.typing.context.now self.now.literals.operations.typing.height (F.pre self.now.literals.operations.typing.below) (F.post self.now.literals.operations.typing.below) }
        ensures { Types (env_in self.now.literals.operations.typing.context.now) (HasForm (env_in self.now.literals.operations.typing.context.now) (out-Expr expr.now)) (expression expr.now ∷ []) result }
    {
        match expr {
            Expr::Or(first, others) => self.literals.operations.chain(
                first.value(),
                Operators::Logical(BinaryOp::LogicalOr),
                others.items(),
            ),
            Expr::And(first, others) => self.literals.operations.chain(
                first.value(),
                Operators::Logical(BinaryOp::LogicalAnd),
                others.items(),
            ),
            Expr::Compare(first, operators, others) => self.literals.operations.chain(
                first.value(),
                Operators::Compare(operators.items()),
                others.items(),
            ),
            Expr::Sum(first, operators, others) => self.literals.operations.chain(
                first.value(),
                Operators::Sum(operators.items()),
                others.items(),
            ),
            Expr::Product(first, operators, others) => self.literals.operations.chain(
                first.value(),
                Operators::Product(operators.items()),
                others.items(),
            ),
            Expr::Prefix(operator, operand) => self.prefixed(*operator, operand.value()),
            Expr::Primary(operand, posts) => self.primary(operand.value(), posts.items()),
            Expr::Literal(token) => {
                let operand = literal(self.literals.operations.typing.alloc, token)?;
                Ok((operand, false))
            }
            Expr::Name(name) => {
                let operand = named(
                    self.literals.operations.typing.context,
                    self.literals.operations.typing.alloc,
                    name,
                )?;
                Ok((operand, false))
            }
            Expr::FuncLit(signature, _) => self.literals.operations.function(signature.value()),
            Expr::Composite(form, elements) => {
                self.literals.composite(form.value(), elements.items())
            }
            Expr::CompositeArray(form, elements) => {
                self.literals
                    .composite_array(form.value(), elements.items())
            }
            Expr::Type(form) => self.literals.operations.type_operand(form.value()),
            Expr::Paren(inner) => self.literals.operations.typing.expr_below(inner.value()),
            Expr::ParenReceiveChan(element) => {
                self.literals.operations.channel_operand(element.value())
            }
        }
    }

    /// What an expression is.
    pub(crate) fn expr(&self, expr: &Expr) -> Result<(Operand, bool), ExprError>
        requires { TypesBelow self.now.literals.operations.typing.context.now self.now.literals.operations.typing.height (F.pre self.now.literals.operations.typing.below) (F.post self.now.literals.operations.typing.below) }
        ensures { Types (env_in self.now.literals.operations.typing.context.now) (Has (env_in self.now.literals.operations.typing.context.now) expr.now) (expression expr.now ∷ []) result }
    {
        let (operand, loud) = self.form(expr)?;
        if !is_within(&operand) {
            return Err(ExprError::Untyped);
        }
        Ok((operand, loud))
    }
}
