//! Values of variables of a type.
ghost use Rattle.std.specs.Prelude.{◌≡◌, [], IfOk};
ghost use Rattle.go_base.specs.Lists.{Each};
ghost use Rattle.go_rules.specs.Usability.{UsableAs};
ghost use Rattle.go_selectors.specs.Answers.{Decides};
ghost use Rattle.go_type_terms.specs.Answers.{Tells, env_in};
ghost use Rattle.go_typings.specs.DeclarationAsks.{AreUsable, ValuesFit};
ghost use Rattle.go_declaration_asks.specs.inner.Values.{GivesValues};

use go_asks::go_expr::typing::type_of;
use go_base::list::List;
use go_base::memory::NoMemory;
use go_entries::initializers::initialize;
use go_model::types::term::Term;
use go_rules::operand::Operand;
use go_syntax::expression::Expr;
use go_syntax::types::Type;
use go_type_terms::error::ExprError;
use go_type_terms::go_usability::context::Context;
use go_type_terms::go_usability::usable::usable;
use std::alloc::Global;

// Whether each operand may be used as a value of a type.
fn are_usable(
    context: &Context<'_>,
    alloc: Global,
    operands: &[Operand],
    term: &Term,
) -> Result<bool, NoMemory>
    ensures { IfOk result (λ answer. Decides answer (Each (λ o. UsableAs (env_in context.now) o term.now) operands.now)) }
{
    for operand in operands {
        if !usable(context, alloc, operand, term)? {
            return Ok(false);
        }
    }
    Ok(true)
}

// The type of variables, and the values that they are given.
fn type_and_values(
    context: &Context<'_>,
    alloc: Global,
    form: &Type,
    count: usize,
    values: &[Expr],
) -> Result<(Term, List<Operand>), ExprError>
    ensures { Tells (GivesValues (env_in context.now) form.now count values.now) result }
{
    let term = type_of(context, alloc, form)?;
    let operands = initialize(context, alloc, count, values)?;
    Ok((term, operands))
}

fn has_none(values: &[Expr]) -> bool
    ensures { Decides result (values.now ≡ []) }
{
    values.is_empty()
}

// Whether the values of so many variables of a type may be used as values of it, where there are any.
fn are_usable_as(
    context: &Context<'_>,
    alloc: Global,
    form: &Type,
    count: usize,
    values: &[Expr],
) -> Result<bool, NoMemory>
    ensures { IfOk result (λ answer. Decides answer (AreUsable (env_in context.now) form.now count values.now)) }
{
    if has_none(values) {
        return Ok(true);
    }
    match type_and_values(context, alloc, form, count, values) {
        Ok((term, operands)) => {
            let answer = are_usable(context, alloc, operands.items(), &term)?;
            Ok(answer)
        }
        Err(ExprError::Untyped) => Ok(false),
        Err(ExprError::NoMemory) => Err(NoMemory),
    }
}

/// Whether the values of so many variables fit their type, where they have one.
pub fn values_fit(
    context: &Context<'_>,
    alloc: Global,
    form: &Option<Type>,
    count: usize,
    values: &[Expr],
) -> Result<bool, NoMemory>
    ensures { IfOk result (λ answer. Decides answer (ValuesFit (env_in context.now) form.now count values.now)) }
{
    match form {
        Some(form) => are_usable_as(context, alloc, form, count, values),
        None => Ok(true),
    }
}
