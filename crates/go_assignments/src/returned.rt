//! The values of `return` statements.
ghost use Rattle.std.specs.Prelude.{◌≡◌, ◌∷◌, [], map, IfOk};
ghost use Rattle.go_assignments.specs.Simple.{GivesResults};
ghost use Rattle.go_assignments.specs.inner.Results.{GivesEach, IsAlone, IsResult};
ghost use Rattle.go_base.specs.Keys.{item_of};
ghost use Rattle.go_rules.specs.Operands.{plain, tuple};
ghost use Rattle.go_selectors.specs.Answers.{Decides};
ghost use Rattle.go_statement_rules.specs.Assignments.{AreResults, Returns};
ghost use Rattle.go_type_terms.specs.Answers.{Tells, env_in};
ghost use Rattle.go_usability.specs.Answers.{Gives};

use crate::sides::are_met;
use go_asks::go_expr::typing::type_expr;
use go_base::list::List;
use go_base::memory::NoMemory;
use go_entries::initializers::initialize;
use go_model::types::term::Term;
use go_operators::operands::plain_like;
use go_operators::values::is_usable;
use go_rules::operand::{Mode, Operand, Shape};
use go_syntax::expression::Expr;
use go_type_terms::error::ExprError;
use go_usability::context::Context;
use std::alloc::Global;

// The types of the results of a call with several.
fn several(operand: &Operand) -> Option<&List<Term>>
    ensures { Gives (λ ts. operand.now ≡ tuple ts) (item_of result) }
{
    match &operand.shape {
        Shape::Many(terms) => match operand.mode {
            Mode::Tuple => Some(terms),
            _ => None,
        },
        _ => None,
    }
}

// Whether each operand may be used as the result in its place.
fn are_results(
    context: &Context<'_>,
    alloc: Global,
    operands: &[Operand],
    results: &[Term],
) -> Result<bool, NoMemory>
    ensures { IfOk result (λ answer. Decides answer (AreResults (env_in context.now) operands.now results.now)) }
{
    let same = operands.len() == results.len();
    if !same {
        return Ok(false);
    }
    for (at, operand) in operands.iter().enumerate() {
        let fits = is_usable(context, alloc, operand, &results[at])?;
        if !fits {
            return Ok(false);
        }
    }
    Ok(true)
}

// Whether a value of a type may be used as a result.
fn is_result(
    context: &Context<'_>,
    alloc: Global,
    term: &Term,
    as_result: &Term,
) -> Result<bool, NoMemory>
    ensures { IfOk result (λ answer. Decides answer (IsResult (env_in context.now) term.now as_result.now)) }
{
    let value = plain_like(alloc, term)?;
    let fits = is_usable(context, alloc, &value, as_result)?;
    Ok(fits)
}

// Whether values of each type may be used as the result in its place.
fn are_results_of(
    context: &Context<'_>,
    alloc: Global,
    terms: &[Term],
    results: &[Term],
) -> Result<bool, NoMemory>
    ensures { IfOk result (λ answer. Decides answer (AreResults (env_in context.now) (map plain terms.now) results.now)) }
{
    let same = terms.len() == results.len();
    if !same {
        return Ok(false);
    }
    for (at, term) in terms.iter().enumerate() {
        let fits = is_result(context, alloc, term, &results[at])?;
        if !fits {
            return Ok(false);
        }
    }
    Ok(true)
}

// Whether the values of expressions may be used as the results in their places.
fn gives_each(
    context: &Context<'_>,
    alloc: Global,
    results: &[Term],
    exprs: &[Expr],
) -> Result<(), ExprError>
    ensures { Tells (λ _. GivesEach (env_in context.now) results.now exprs.now) result }
{
    let values = initialize(context, alloc, exprs.len(), exprs)?;
    if !are_results(context, alloc, values.items(), results)? {
        return Err(ExprError::Untyped);
    }
    Ok(())
}

// Whether the results of a call may be used as the results in their places.
fn gives_all(
    context: &Context<'_>,
    alloc: Global,
    terms: &[Term],
    results: &[Term],
) -> Result<(), ExprError>
    ensures { Tells (λ _. AreResults (env_in context.now) (map plain terms.now) results.now) result }
{
    let given = are_results_of(context, alloc, terms, results)?;
    if !given {
        return Err(ExprError::Untyped);
    }
    Ok(())
}

// Whether the one expression that is this operand gives the results: all of them as those of a call, or one as its value.
fn gives_operand(
    context: &Context<'_>,
    alloc: Global,
    operand: &Operand,
    results: &[Term],
    exprs: &[Expr],
) -> Result<(), ExprError>
    requires { IsAlone (env_in context.now) exprs.now operand.now }
    ensures { Tells (λ _. Returns (env_in context.now) results.now exprs.now) result }
{
    match several(operand) {
        Some(terms) => gives_all(context, alloc, terms.items(), results),
        None => gives_each(context, alloc, results, exprs),
    }
}

// Whether one expression gives the results.
fn gives_by_one(
    context: &Context<'_>,
    alloc: Global,
    results: &[Term],
    exprs: &[Expr],
    expr: &Expr,
) -> Result<(), ExprError>
    requires { exprs.now ≡ expr.now ∷ [] }
    ensures { Tells (λ _. Returns (env_in context.now) results.now exprs.now) result }
{
    let operand = type_expr(context, alloc, expr)?;
    gives_operand(context, alloc, &operand, results, exprs)
}

// Whether expressions give the results, whatever else is asked in them.
fn gives(
    context: &Context<'_>,
    alloc: Global,
    results: &[Term],
    exprs: &[Expr],
) -> Result<(), ExprError>
    ensures { Tells (λ _. Returns (env_in context.now) results.now exprs.now) result }
{
    match exprs {
        [] => Ok(()),
        [expr] => gives_by_one(context, alloc, results, exprs, expr),
        _ => gives_each(context, alloc, results, exprs),
    }
}

/// The values that a `return` gives a function with these results: none, each its own, or all by one call. `Untyped`
/// exactly where they aren't its results. That results without names are given none isn't looked at.
pub fn results(
    context: &Context<'_>,
    alloc: Global,
    results: &[Term],
    exprs: &[Expr],
) -> Result<(), ExprError>
    ensures { Tells (λ _. GivesResults (env_in context.now) results.now exprs.now) result }
{
    gives(context, alloc, results, exprs)?;
    if !are_met(context, alloc, exprs)? {
        return Err(ExprError::Untyped);
    }
    Ok(())
}
