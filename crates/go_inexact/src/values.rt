//! Values of constants of inexact types.
ghost use Rattle.std.specs.Prelude.{◌≡◌, IfOk};
ghost use Rattle.go_base.specs.Lists.{Each};
ghost use Rattle.go_exposed.specs.BeyondProfile.{IsInexact, IsValue, IsValueOf};
ghost use Rattle.go_inexact.specs.Values.{IsInexactValue, OneIsInexact};
ghost use Rattle.go_base.specs.Keys.{item_of};
ghost use Rattle.go_rules.specs.Operands.{plain};
ghost use Rattle.go_selectors.specs.Answers.{Decides};
ghost use Rattle.go_usability.specs.Answers.{Gives};
ghost use Rattle.go_type_terms.specs.Answers.{env_in};

use crate::maybe::may_be_constant;
use go_base::memory::NoMemory;
use go_expr::go_operators::levels::basic_under;
use go_expr::go_operators::values::is_usable;
use go_expr::typing::type_expr;
use go_model::types::term::Term;
use go_rules::operand::{Mode, Operand, Shape};
use go_syntax::expression::Expr;
use go_type_terms::error::ExprError;
use go_usability::context::Context;
use std::alloc::Global;

/// Whether a type is inexact underneath: a floating-point or complex one.
pub(crate) fn is_inexact(context: &Context<'_>, term: &Term) -> bool
    ensures { Decides result (IsInexact (env_in context.now) term.now) }
{
    match basic_under(context, term) {
        Some(basic) => basic.class().is_inexact(),
        None => false,
    }
}

// Whether an expression may be a value of a constant of the type.
fn is_value_of(
    context: &Context<'_>,
    alloc: Global,
    term: &Term,
    expr: &Expr,
) -> Result<bool, NoMemory>
    ensures { IfOk result (λ answer. Decides answer (IsValueOf (env_in context.now) term.now expr.now)) }
{
    match type_expr(context, alloc, expr) {
        Err(ExprError::Untyped) => Ok(false),
        Err(ExprError::NoMemory) => Err(NoMemory),
        Ok(operand) => {
            let fits = is_usable(context, alloc, &operand, term)?;
            if !fits {
                return Ok(false);
            }
            may_be_constant(context, alloc, expr)
        }
    }
}

/// Whether each of the expressions may be a value of a constant of the type.
pub(crate) fn are_values_of(
    context: &Context<'_>,
    alloc: Global,
    term: &Term,
    exprs: &[Expr],
) -> Result<bool, NoMemory>
    ensures { IfOk result (λ answer. Decides answer (Each (IsValueOf (env_in context.now) term.now) exprs.now)) }
{
    for expr in exprs {
        let holds = is_value_of(context, alloc, term, expr)?;
        if !holds {
            return Ok(false);
        }
    }
    Ok(true)
}

// Whether an expression has an operand, and may be a constant.
fn is_value(context: &Context<'_>, alloc: Global, expr: &Expr) -> Result<bool, NoMemory>
    ensures { IfOk result (λ answer. Decides answer (IsValue (env_in context.now) expr.now)) }
{
    match type_expr(context, alloc, expr) {
        Err(ExprError::Untyped) => Ok(false),
        Err(ExprError::NoMemory) => Err(NoMemory),
        Ok(_operand) => may_be_constant(context, alloc, expr),
    }
}

/// Whether each of the expressions may be a value of a constant.
pub(crate) fn are_values(
    context: &Context<'_>,
    alloc: Global,
    exprs: &[Expr],
) -> Result<bool, NoMemory>
    ensures { IfOk result (λ answer. Decides answer (Each (IsValue (env_in context.now)) exprs.now)) }
{
    for expr in exprs {
        let holds = is_value(context, alloc, expr)?;
        if !holds {
            return Ok(false);
        }
    }
    Ok(true)
}

// The type of a value that is neither constant nor addressable nor an element of a map.
fn plain_type(operand: &Operand) -> Option<&Term>
    ensures { Gives (λ t. operand.now ≡ plain t) (item_of result) }
{
    match (operand.mode, &operand.shape) {
        (Mode::Plain, Shape::Of(term)) => Some(term),
        _ => None,
    }
}

fn is_inexact_value(context: &Context<'_>, alloc: Global, expr: &Expr) -> Result<bool, NoMemory>
    ensures { IfOk result (λ answer. Decides answer (IsInexactValue (env_in context.now) expr.now)) }
{
    match type_expr(context, alloc, expr) {
        Err(ExprError::Untyped) => Ok(false),
        Err(ExprError::NoMemory) => Err(NoMemory),
        Ok(operand) => match plain_type(&operand) {
            Some(term) => Ok(is_inexact(context, term)),
            None => Ok(false),
        },
    }
}

/// Whether one of the expressions is a value of an inexact type, and no constant here.
pub(crate) fn one_is_inexact(
    context: &Context<'_>,
    alloc: Global,
    exprs: &[Expr],
) -> Result<bool, NoMemory>
    ensures { IfOk result (λ answer. Decides answer (OneIsInexact (env_in context.now) exprs.now)) }
{
    for expr in exprs {
        let holds = is_inexact_value(context, alloc, expr)?;
        if holds {
            return Ok(true);
        }
    }
    Ok(false)
}
