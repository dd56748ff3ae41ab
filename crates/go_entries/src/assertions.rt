//! Expressions that also tell whether there was a value.
ghost use Rattle.std.specs.Prelude.{◌≡◌};
ghost use Rattle.go_selectors.specs.Answers.{Decides};
ghost use Rattle.go_entries.specs.inner.Values.{EndsInAssertion};
ghost use Rattle.go_typings.specs.Initializers.{IsAssertionOrReceive};

use go_base::operator::PrefixOperator;
use go_syntax::expression::{Expr, Post};

// Whether a type assertion is the last of what follows an operand.
fn ends_in_assertion(posts: &[Post]) -> bool
    ensures { Decides result (EndsInAssertion posts.now) }
{
    match posts.last() {
        Some(Post::TypeAssertion(_)) => true,
        _ => false,
    }
}

// Whether an operator is `<-`.
fn is_receive(operator: PrefixOperator) -> bool
    ensures { Decides result (operator ≡ PrefixOperator.Receive) }
{
    matches!(operator, PrefixOperator::Receive)
}

/// Whether an expression is a type assertion or a receive, parentheses aside.
#[cycle(is_assertion_or_receive)]
pub(crate) fn is_assertion_or_receive(expr: &Expr) -> bool
    ensures { Decides result (IsAssertionOrReceive expr.now) }
{
    match expr {
        Expr::Prefix(operator, _) => is_receive(*operator),
        Expr::Primary(_, posts) => ends_in_assertion(posts.items()),
        Expr::Paren(inner) => is_assertion_or_receive(inner.value()),
        _ => false,
    }
}
