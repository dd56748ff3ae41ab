//! Tags of switches, and the values of their clauses.
ghost use Rattle.std.specs.Prelude.{IfOk};
ghost use Rattle.go_base.specs.Lists.{Each};
ghost use Rattle.go_clauses.specs.Clauses.{AreCasesOf, IsTagOf};
ghost use Rattle.go_clauses.specs.inner.Tags.{ComparesWith, HasValueType};
ghost use Rattle.go_selectors.specs.Answers.{Decides};
ghost use Rattle.go_statement_rules.specs.Clauses.{IsCase};
ghost use Rattle.go_type_terms.specs.Answers.{Tells, env_in};

use go_assignments::go_asks::operands::operand;
use go_assignments::go_expr::typing::type_expr;
use go_assignments::sides::are_met;
use go_assignments::values::value_type;
use go_base::memory::NoMemory;
use go_base::operator::CompareOp;
use go_model::constants::value::Basic;
use go_model::types::term::Term;
use go_operators::comparisons::compare;
use go_operators::operands::plain_like;
use go_rules::operand::Operand;
use go_syntax::expression::Expr;
use go_type_terms::error::ExprError;
use go_usability::context::Context;
use std::alloc::Global;

// The type of a variable that is given the value of an expression.
fn type_of_value(context: &Context<'_>, alloc: Global, expr: &Expr) -> Result<Term, ExprError>
    ensures { Tells (HasValueType (env_in context.now) expr.now) result }
{
    let value = operand(context, alloc, expr)?;
    value_type(context, alloc, &value)
}

/// The type with whose values those of the clauses are compared: that of the tag, or `bool` where there is none. `Untyped`
/// exactly where the tag has none.
pub fn tag(context: &Context<'_>, alloc: Global, tag: &Option<Expr>) -> Result<Term, ExprError>
    ensures { Tells (IsTagOf (env_in context.now) tag.now) result }
{
    match tag {
        Some(expr) => type_of_value(context, alloc, expr),
        None => Ok(Term::Plain(Basic::Bool)),
    }
}

// Whether a value can be compared with those of a type.
fn compares_with(
    context: &Context<'_>,
    alloc: Global,
    term: &Term,
    value: &Operand,
) -> Result<bool, NoMemory>
    ensures { IfOk result (λ answer. Decides answer (ComparesWith (env_in context.now) term.now value.now)) }
{
    let left = plain_like(alloc, term)?;
    let compared = compare(context, alloc, CompareOp::Equal, &left, value)?;
    Ok(compared.is_some())
}

// Whether an expression's value can be compared with those of a type.
fn is_case(context: &Context<'_>, alloc: Global, term: &Term, expr: &Expr) -> Result<bool, NoMemory>
    ensures { IfOk result (λ answer. Decides answer (IsCase (env_in context.now) term.now expr.now)) }
{
    match type_expr(context, alloc, expr) {
        Ok(value) => compares_with(context, alloc, term, &value),
        Err(ExprError::Untyped) => Ok(false),
        Err(ExprError::NoMemory) => Err(NoMemory),
    }
}

// Whether the value of each expression can be compared with those of a type.
fn are_cases(
    context: &Context<'_>,
    alloc: Global,
    term: &Term,
    exprs: &[Expr],
) -> Result<bool, NoMemory>
    ensures { IfOk result (λ answer. Decides answer (Each (IsCase (env_in context.now) term.now) exprs.now)) }
{
    for expr in exprs {
        if !is_case(context, alloc, term, expr)? {
            return Ok(false);
        }
    }
    Ok(true)
}

/// Whether the values of a clause can be compared with those of a type.
pub fn cases(
    context: &Context<'_>,
    alloc: Global,
    term: &Term,
    exprs: &[Expr],
) -> Result<bool, NoMemory>
    ensures { IfOk result (λ answer. Decides answer (AreCasesOf (env_in context.now) term.now exprs.now)) }
{
    let compared = are_cases(context, alloc, term, exprs)?;
    if !compared {
        return Ok(false);
    }
    let met = are_met(context, alloc, exprs)?;
    Ok(met)
}
