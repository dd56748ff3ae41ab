//! The values that names are given.
ghost use Rattle.go_entries.specs.inner.Values.{GivesSeveral};
ghost use Rattle.go_rules.specs.Expressions.{HasEach};
ghost use Rattle.go_type_terms.specs.Answers.{Tells, env_in};
ghost use Rattle.go_typings.specs.Initializers.{Initialize};

use crate::assertions::is_assertion_or_receive;
use crate::several::several;
use go_base::list::List;
use go_expr::go_usability::context::Context;
use go_expr::typing::type_expr;
use go_rules::operand::Operand;
use go_syntax::expression::Expr;
use go_type_terms::error::ExprError;
use std::alloc::Global;

// What each expression is.
fn each(context: &Context<'_>, alloc: Global, exprs: &[Expr]) -> Result<List<Operand>, ExprError>
    ensures { Tells (HasEach (env_in context.now) exprs.now) result }
{
    let mut operands = List::new(alloc);
    for expr in exprs {
        let operand = type_expr(context, alloc, expr)?;
        operands.push(operand)?;
    }
    Ok(operands)
}

// The values that one expression gives so many names.
fn by_one(
    context: &Context<'_>,
    alloc: Global,
    count: usize,
    expr: &Expr,
) -> Result<List<Operand>, ExprError>
    ensures { Tells (GivesSeveral (env_in context.now) count expr.now) result }
{
    let operand = type_expr(context, alloc, expr)?;
    several(alloc, count, is_assertion_or_receive(expr), &operand)
}

/// The values that expressions give so many names: each its own, the results of one call, or a value and whether there
/// was one. `Untyped` exactly where they give them none.
pub fn initialize(
    context: &Context<'_>,
    alloc: Global,
    count: usize,
    exprs: &[Expr],
) -> Result<List<Operand>, ExprError>
    ensures { Tells (Initialize (env_in context.now) count exprs.now) result }
{
    if exprs.len() == count {
        return each(context, alloc, exprs);
    }
    match exprs {
        [expr] => by_one(context, alloc, count, expr),
        _ => Err(ExprError::Untyped),
    }
}
