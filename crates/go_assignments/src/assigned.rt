//! Assignments of values.
ghost use Rattle.go_assignments.specs.Simple.{Assigns, MayAssign};
ghost use Rattle.go_type_terms.specs.Answers.{Tells, env_in};

use crate::sides::{are_assigned, are_met};
use go_entries::initializers::initialize;
use go_syntax::expression::Expr;
use go_type_terms::error::ExprError;
use go_usability::context::Context;
use std::alloc::Global;

// Whether the values of expressions may be assigned to sides, whatever else is asked in them.
fn may_assign(
    context: &Context<'_>,
    alloc: Global,
    sides: &[Expr],
    exprs: &[Expr],
) -> Result<(), ExprError>
    ensures { Tells (λ _. MayAssign (env_in context.now) sides.now exprs.now) result }
{
    let values = initialize(context, alloc, sides.len(), exprs)?;
    if !are_assigned(context, alloc, sides, values.items())? {
        return Err(ExprError::Untyped);
    }
    Ok(())
}

/// An assignment of the values of expressions to as many sides: each its own, the results of one call, or a value and
/// whether there was one. `Untyped` exactly where it isn't typed.
pub fn assign(
    context: &Context<'_>,
    alloc: Global,
    sides: &[Expr],
    exprs: &[Expr],
) -> Result<(), ExprError>
    ensures { Tells (λ _. Assigns (env_in context.now) sides.now exprs.now) result }
{
    may_assign(context, alloc, sides, exprs)?;
    if !are_met(context, alloc, sides)? {
        return Err(ExprError::Untyped);
    }
    if !are_met(context, alloc, exprs)? {
        return Err(ExprError::Untyped);
    }
    Ok(())
}
