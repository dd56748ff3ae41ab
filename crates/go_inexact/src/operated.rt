//! Expressions that are made of others by operators or parentheses.
ghost use Rattle.std.specs.Prelude.{◌≡◌, is_some};
ghost use Rattle.go_inexact.specs.Maybe.{is_operated};
ghost use Rattle.go_rules.specs.Expressions.{unary_operator};
ghost use Rattle.go_syntax.specs.declared.expression.Expr.{out-Expr};

use go_base::operator::PrefixOperator;
use go_syntax::expression::Expr;

// Whether it is an operator on values: plus, minus, not or complement.
fn is_unary(operator: PrefixOperator) -> bool
    ensures { result ≡ is_some (unary_operator operator) }
{
    match operator {
        PrefixOperator::Plus => true,
        PrefixOperator::Minus => true,
        PrefixOperator::Not => true,
        PrefixOperator::Xor => true,
        _ => false,
    }
}

/// Whether an expression is made of others by operators or parentheses.
pub(crate) fn is_operated(expr: &Expr) -> bool
    ensures { result ≡ is_operated (out-Expr expr.now) }
{
    match expr {
        Expr::Or(_, _) => true,
        Expr::And(_, _) => true,
        Expr::Compare(_, _, _) => true,
        Expr::Sum(_, _, _) => true,
        Expr::Product(_, _, _) => true,
        Expr::Prefix(operator, _) => is_unary(*operator),
        Expr::Paren(_) => true,
        _ => false,
    }
}
