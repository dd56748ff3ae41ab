//! Expressions, over the readers of their operands.
ghost use Rattle.std.specs.Prelude.{◌≡◌, IfOk};
ghost use Rattle.go_syntax.specs.grammar.Grammar as grammar;
ghost use Rattle.go_syntax.specs.grammar.Terminals.{terminals};
ghost use Rattle.go_descent.specs.go_cursor.Reads.{Reads};
ghost use Rattle.go_descent.specs.Levels.{levels};
ghost use Rattle.go_descent.specs.Parts.{ReadsBelow};
ghost use Rattle.go_descent.specs.Rules as rules;

use go_descent::go_cursor::cursor::Cursor;
use go_descent::go_cursor::error::ParseError;
use go_descent::grammar::{Grammar, Part, PartTree};
use go_operand_exprs::operands::OperandExprs;
use go_operator_exprs::operators::OperatorExprs;
use go_posts::posts::Posts;
use go_syntax::expression::Expr;
use go_syntax::go_base::memory::NoMemory;
use go_syntax::held::expression::{HeldExpr, HeldPosts, boxed_expr};
use std::alloc::Global;

/// An operand and what follows it.
fn primary_of(alloc: Global, operand: Expr, posts: HeldPosts) -> Result<Expr, NoMemory>
    ensures { IfOk result (λ x. x ≡ grammar.primary_of operand posts) }
{
    if posts.len() == 0 {
        return Ok(operand);
    }
    Ok(Expr::Primary(boxed_expr(alloc, operand)?, posts.take()))
}

/// An operand and what follows it, whose parts are of lower heights.
#[tactic(auto, unfolding(go_descent::specs::Rules::primary_expr))]
pub(crate) fn primary_expr<
    F: Fn(Global, &mut Cursor<'_>, usize, Part) -> Result<PartTree, ParseError>,
>(grammar: &Grammar<F>, composite: bool, tokens: &mut Cursor<'_>) -> Result<Expr, ParseError>
    requires { ReadsBelow grammar.now.height (F.pre grammar.now.below) (F.post grammar.now.below) }
    ensures { Reads (rules.primary_expr composite (levels grammar.now.height) (terminals tokens.old)) result tokens.new }
{
    let operand = HeldExpr::new(OperandExprs { grammar }.operand(composite, tokens)?);
    let posts = Posts { grammar }.posts(tokens)?;
    Ok(primary_of(grammar.alloc, operand.take(), posts)?)
}

/// An expression whose parts are of lower heights.
pub(crate) fn expr<F: Fn(Global, &mut Cursor<'_>, usize, Part) -> Result<PartTree, ParseError>>(
    grammar: &Grammar<F>,
    composite: bool,
    tokens: &mut Cursor<'_>,
) -> Result<Expr, ParseError>
    requires { ReadsBelow grammar.now.height (F.pre grammar.now.below) (F.post grammar.now.below) }
    ensures { Reads (rules.expr_of composite (levels grammar.now.height) (terminals tokens.old)) result tokens.new }
{
    let operators = OperatorExprs {
        grammar,
        primary: |composite: bool, tokens: &mut Cursor<'_>| primary_expr(
            grammar, composite, tokens,
        ),
    };
    operators.expr(composite, tokens)
}

/// The same of the operand of a prefix operator.
pub(crate) fn unary_expr<
    F: Fn(Global, &mut Cursor<'_>, usize, Part) -> Result<PartTree, ParseError>,
>(grammar: &Grammar<F>, composite: bool, tokens: &mut Cursor<'_>) -> Result<Expr, ParseError>
    requires { ReadsBelow grammar.now.height (F.pre grammar.now.below) (F.post grammar.now.below) }
    ensures { Reads (rules.unary_expr composite (levels grammar.now.height) (terminals tokens.old)) result tokens.new }
{
    let operators = OperatorExprs {
        grammar,
        primary: |composite: bool, tokens: &mut Cursor<'_>| primary_expr(
            grammar, composite, tokens,
        ),
    };
    operators.unary_expr(composite, tokens)
}
