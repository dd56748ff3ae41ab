//! The operators of simple statements.
ghost use Rattle.std.specs.Prelude.{◌≡◌};
ghost use Rattle.go_descent.specs.Rules as rules;
ghost use Rattle.go_syntax.specs.grammar.Statements as grammar;

use go_base::operator::{AssignOperator, ProductOperator, StepOperator, SumOperator};
use go_syntax::token::TokenKind;

/// The `++` or `--` that is next.
pub(crate) fn step_operator(sign: Option<TokenKind>) -> Option<StepOperator>
    ensures { result ≡ rules.operator_at grammar.step_operator sign }
{
    match sign {
        Some(TokenKind::Increment) => Some(StepOperator::Increment),
        Some(TokenKind::Decrement) => Some(StepOperator::Decrement),
        _ => None,
    }
}

// The operator of an assignment that this token is.
fn assign_operator_of(sign: TokenKind) -> Option<AssignOperator>
    ensures { result ≡ grammar.assign_operator sign }
{
    match sign {
        TokenKind::AddAssign => Some(AssignOperator::Sum(SumOperator::Add)),
        TokenKind::SubtractAssign => Some(AssignOperator::Sum(SumOperator::Subtract)),
        TokenKind::OrAssign => Some(AssignOperator::Sum(SumOperator::Or)),
        TokenKind::XorAssign => Some(AssignOperator::Sum(SumOperator::Xor)),
        TokenKind::MultiplyAssign => Some(AssignOperator::Product(ProductOperator::Multiply)),
        TokenKind::DivideAssign => Some(AssignOperator::Product(ProductOperator::Divide)),
        TokenKind::RemainderAssign => Some(AssignOperator::Product(ProductOperator::Remainder)),
        TokenKind::ShiftLeftAssign => Some(AssignOperator::Product(ProductOperator::ShiftLeft)),
        TokenKind::ShiftRightAssign => Some(AssignOperator::Product(ProductOperator::ShiftRight)),
        TokenKind::AndAssign => Some(AssignOperator::Product(ProductOperator::And)),
        TokenKind::AndNotAssign => Some(AssignOperator::Product(ProductOperator::AndNot)),
        _ => None,
    }
}

/// The operator of an assignment that is next.
pub(crate) fn assign_operator(sign: Option<TokenKind>) -> Option<AssignOperator>
    ensures { result ≡ rules.operator_at grammar.assign_operator sign }
{
    match sign {
        None => None,
        Some(sign) => assign_operator_of(sign),
    }
}
