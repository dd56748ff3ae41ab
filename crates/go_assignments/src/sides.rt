//! The left sides of assignments.
ghost use Rattle.std.specs.Prelude.{◌≡◌, IfOk};
ghost use Rattle.go_assignments.specs.Simple.{AreMet};
ghost use Rattle.go_assignments.specs.inner.Sides.{IsGiven, Takes, TakesBlank, TakesOperand};
ghost use Rattle.go_base.specs.Keys.{item_of};
ghost use Rattle.go_selectors.specs.Answers.{Decides};
ghost use Rattle.go_statement_rules.specs.Assignments.{AreAssigned, IsAssigned, IsBlankSide, is_assignable};
ghost use Rattle.go_type_terms.specs.Answers.{env_in};
ghost use Rattle.go_usability.specs.Answers.{Gives};

use crate::values::has_type;
use go_asks::go_expr::typing::type_expr;
use go_asks::meets::meets;
use go_base::memory::NoMemory;
use go_model::types::term::Term;
use go_nodes::tree::Tree;
use go_operators::values::is_usable;
use go_rules::blank::is_blank;
use go_rules::operand::{Mode, Operand, Shape};
use go_syntax::expression::Expr;
use go_type_terms::error::ExprError;
use go_usability::context::Context;
use std::alloc::Global;

fn is_assignable(mode: Mode) -> bool
    ensures { result ≡ is_assignable mode }
{
    matches!(mode, Mode::Variable | Mode::MapElement)
}

/// The type of the values that an operand is assigned.
pub(crate) fn assigned_type(operand: &Operand) -> Option<&Term>
    ensures { Gives (IsAssigned operand.now) (item_of result) }
{
    match &operand.shape {
        Shape::Of(term) => {
            if is_assignable(operand.mode) {
                Some(term)
            } else {
                None
            }
        }
        _ => None,
    }
}

// Whether an expression is the blank name, parentheses aside.
#[cycle(is_blank_side)]
fn is_blank_side(expr: &Expr) -> bool
    ensures { Decides result (IsBlankSide expr.now) }
{
    match expr {
        Expr::Name(name) => is_blank(name.text.bytes()),
        Expr::Paren(inner) => is_blank_side(inner.value()),
        _ => false,
    }
}

// Whether an operand may be assigned a value.
fn is_given(
    context: &Context<'_>,
    alloc: Global,
    side: &Operand,
    value: &Operand,
) -> Result<bool, NoMemory>
    ensures { IfOk result (λ answer. Decides answer (IsGiven (env_in context.now) side.now value.now)) }
{
    match assigned_type(side) {
        Some(term) => is_usable(context, alloc, value, term),
        None => Ok(false),
    }
}

// Whether an expression is what may be assigned a value.
fn takes_operand(
    context: &Context<'_>,
    alloc: Global,
    side: &Expr,
    value: &Operand,
) -> Result<bool, NoMemory>
    ensures { IfOk result (λ answer. Decides answer (TakesOperand (env_in context.now) side.now value.now)) }
{
    match type_expr(context, alloc, side) {
        Ok(operand) => is_given(context, alloc, &operand, value),
        Err(ExprError::Untyped) => Ok(false),
        Err(ExprError::NoMemory) => Err(NoMemory),
    }
}

// Whether an expression is the blank name, and the value has a type.
fn takes_blank(
    context: &Context<'_>,
    alloc: Global,
    side: &Expr,
    value: &Operand,
) -> Result<bool, NoMemory>
    ensures { IfOk result (λ answer. Decides answer (TakesBlank (env_in context.now) side.now value.now)) }
{
    if !is_blank_side(side) {
        return Ok(false);
    }
    let typed = has_type(context, alloc, value)?;
    Ok(typed)
}

// Whether a side may be assigned a value.
fn takes(
    context: &Context<'_>,
    alloc: Global,
    side: &Expr,
    value: &Operand,
) -> Result<bool, NoMemory>
    ensures { IfOk result (λ answer. Decides answer (Takes (env_in context.now) side.now value.now)) }
{
    if takes_blank(context, alloc, side, value)? {
        return Ok(true);
    }
    let takes = takes_operand(context, alloc, side, value)?;
    Ok(takes)
}

/// Whether each side may be assigned the value in its place.
pub fn are_assigned(
    context: &Context<'_>,
    alloc: Global,
    sides: &[Expr],
    values: &[Operand],
) -> Result<bool, NoMemory>
    ensures { IfOk result (λ answer. Decides answer (AreAssigned (env_in context.now) sides.now values.now)) }
{
    let same = sides.len() == values.len();
    if !same {
        return Ok(false);
    }
    for (at, side) in sides.iter().enumerate() {
        let fits = takes(context, alloc, side, &values[at])?;
        if !fits {
            return Ok(false);
        }
    }
    Ok(true)
}

/// Whether all that is asked in these expressions is met.
pub fn are_met(context: &Context<'_>, alloc: Global, exprs: &[Expr]) -> Result<bool, NoMemory>
    ensures { IfOk result (λ answer. Decides answer (AreMet (env_in context.now) exprs.now)) }
{
    for expr in exprs {
        if !meets(context, alloc, Tree::Expr(expr))? {
            return Ok(false);
        }
    }
    Ok(true)
}
