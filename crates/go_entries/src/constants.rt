//! The constants of a spec.
ghost use Rattle.std.specs.Prelude.{Some};
ghost use Rattle.std.specs.List.{AllZip};
ghost use Rattle.go_base.specs.Keys.{item_of};
ghost use Rattle.go_declarations.specs.Forms.{spec_of};
ghost use Rattle.go_entries.specs.inner.Constants.{AreConstantsOf, HoldsConstants, IsConstant, IsConstantLike, IsOwnConstant, IsTypeOfConstants, IsTypedConstant};
ghost use Rattle.go_selectors.specs.Answers.{Decides};
ghost use Rattle.go_type_terms.specs.Answers.{Tells, env_in};
ghost use Rattle.go_typings.specs.DeclarationRules.{AreConstants};

use go_base::list::List;
use go_declarations::form::Constants;
use go_expr::go_operators::values::constant_of;
use go_expr::go_usability::context::Context;
use go_expr::go_usability::usable::usable;
use go_expr::typing::{type_expr, type_of};
use go_model::types::package::{ConstTerm, Entity};
use go_model::types::term::Term;
use go_rules::operand::Operand;
use go_syntax::expression::Expr;
use go_syntax::types::Type;
use go_type_terms::error::ExprError;
use std::alloc::Global;

// The constant that an operand is.
fn own_constant(alloc: Global, operand: &Operand) -> Result<Entity, ExprError>
    ensures { Tells (IsOwnConstant operand.now) result }
{
    match constant_of(operand) {
        Some((of, value)) => Ok(Entity::Const(of.copy(alloc)?, value.copy(alloc)?)),
        None => Err(ExprError::Untyped),
    }
}

// The constant of a type, where an operand can be used as a value of it.
fn constant_like(alloc: Global, term: &Term, operand: &Operand) -> Result<Entity, ExprError>
    ensures { Tells (IsConstantLike term.now operand.now) result }
{
    match constant_of(operand) {
        Some((_, value)) => Ok(Entity::Const(
            ConstTerm::OfTerm(term.copy(alloc)?),
            value.copy(alloc)?,
        )),
        None => Err(ExprError::Untyped),
    }
}

// The constant of this type that an operand is.
fn typed_constant(
    context: &Context<'_>,
    alloc: Global,
    term: &Term,
    operand: &Operand,
) -> Result<Entity, ExprError>
    ensures { Tells (IsTypedConstant (env_in context.now) term.now operand.now) result }
{
    if !usable(context, alloc, operand, term)? {
        return Err(ExprError::Untyped);
    }
    constant_like(alloc, term, operand)
}

// The constant whose value is an expression, of the type that is given, where there is one.
fn constant(
    context: &Context<'_>,
    alloc: Global,
    given: Option<&Term>,
    value: &Expr,
) -> Result<Entity, ExprError>
    ensures { Tells (IsConstant (env_in context.now) (item_of given.entry) value.now) result }
{
    let operand = type_expr(context, alloc, value)?;
    match given {
        Some(term) => typed_constant(context, alloc, term, &operand),
        None => own_constant(alloc, &operand),
    }
}

// The constants whose values are these expressions.
fn each_constant(
    context: &Context<'_>,
    alloc: Global,
    given: Option<&Term>,
    values: &[Expr],
) -> Result<List<Entity>, ExprError>
    ensures { Tells (AllZip (IsConstant (env_in context.now) (item_of given.entry)) values.now) result }
{
    let mut constants = List::new(alloc);
    for value in values {
        let constant = constant(context, alloc, given, value)?;
        constants.push(constant)?;
    }
    Ok(constants)
}

// Whether constants can be of a type.
fn holds_constants(context: &Context<'_>, term: &Term) -> bool
    ensures { Decides result (HoldsConstants (env_in context.now) term.now) }
{
    match context.under(term) {
        Term::Plain(basic) => !basic.class().is_inexact(),
        _ => false,
    }
}

// The type of constants that a type form stands for.
fn type_of_constants(context: &Context<'_>, alloc: Global, form: &Type) -> Result<Term, ExprError>
    ensures { Tells (IsTypeOfConstants (env_in context.now) form.now) result }
{
    let term = type_of(context, alloc, form)?;
    if !holds_constants(context, &term) {
        return Err(ExprError::Untyped);
    }
    Ok(term)
}

// The constants whose values are these expressions, of the type that a form stands for.
fn typed_constants(
    context: &Context<'_>,
    alloc: Global,
    form: &Type,
    values: &[Expr],
) -> Result<List<Entity>, ExprError>
    ensures { Tells (AreConstants (env_in context.now) (Some form.now) values.now) result }
{
    if values.is_empty() {
        return Ok(List::new(alloc));
    }
    let term = type_of_constants(context, alloc, form)?;
    each_constant(context, alloc, Some(&term), values)
}

// The constants whose values are these expressions, of the type that a form stands for, where there is one.
fn constants_of(
    context: &Context<'_>,
    alloc: Global,
    form: Option<&Type>,
    values: &[Expr],
) -> Result<List<Entity>, ExprError>
    ensures { Tells (AreConstants (env_in context.now) (item_of form.entry) values.now) result }
{
    match form {
        Some(form) => typed_constants(context, alloc, form, values),
        None => each_constant(context, alloc, None, values),
    }
}

/// The constants of a spec; `Untyped` exactly where it has none.
pub(crate) fn constants(
    context: &Context<'_>,
    alloc: Global,
    spec: &Constants<'_>,
) -> Result<List<Entity>, ExprError>
    ensures { Tells (AreConstantsOf (env_in context.now) (spec_of spec.now)) result }
{
    if spec.names.len() != spec.values.len() {
        return Err(ExprError::Untyped);
    }
    constants_of(context, alloc, spec.type_, spec.values)
}
