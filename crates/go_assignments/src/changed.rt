//! Assignments of what an operator makes of a variable.
ghost use Rattle.std.specs.Prelude.{◌≡◌, IfOk};
ghost use Rattle.go_assignments.specs.Simple.{MayOperate, MayStep, OperatesOn, Steps};
ghost use Rattle.go_assignments.specs.inner.Changes.{ResultFits, StepFits};
ghost use Rattle.go_rules.specs.Expressions.{ProductComputes, product_operator, sum_operator};
ghost use Rattle.go_selectors.specs.Answers.{Decides};
ghost use Rattle.go_statement_rules.specs.Assignments.{Operates, one, step_operator};
ghost use Rattle.go_type_terms.specs.Answers.{Tells, env_in};
ghost use Rattle.go_usability.specs.Answers.{Gives};

use crate::sides::assigned_type;
use go_asks::operands::operand;
use go_base::memory::NoMemory;
use go_base::operator::{AssignOperator, ProductOperator, StepOperator, SumOperator};
use go_model::constants::value::{BinaryOp, Untyped, Value};
use go_model::types::package::ConstTerm;
use go_model::types::term::Term;
use go_operators::arithmetic::binary;
use go_operators::operands::constant;
use go_operators::shifts::shift;
use go_operators::values::is_usable;
use go_rules::operand::Operand;
use go_syntax::expression::Expr;
use go_type_terms::error::ExprError;
use go_usability::context::Context;
use std::alloc::Global;

fn step_operator(op: StepOperator) -> BinaryOp
    ensures { result ≡ step_operator op }
{
    match op {
        StepOperator::Increment => BinaryOp::Add,
        StepOperator::Decrement => BinaryOp::Subtract,
    }
}

// The untyped constant 1.
fn one() -> Operand
    ensures { result ≡ one }
{
    constant(ConstTerm::OfKind(Untyped::IntKind), Value::Int(1))
}

fn sum_operator(op: SumOperator) -> BinaryOp
    ensures { result ≡ sum_operator op }
{
    match op {
        SumOperator::Add => BinaryOp::Add,
        SumOperator::Subtract => BinaryOp::Subtract,
        SumOperator::Or => BinaryOp::Or,
        SumOperator::Xor => BinaryOp::Xor,
    }
}

fn product(
    context: &Context<'_>,
    alloc: Global,
    op: ProductOperator,
    left: &Operand,
    right: &Operand,
) -> Result<Option<Operand>, NoMemory>
    ensures { IfOk result (Gives (ProductComputes (env_in context.now) (product_operator op) left.now right.now)) }
{
    match op {
        ProductOperator::Multiply => binary(context, alloc, BinaryOp::Multiply, left, right),
        ProductOperator::Divide => binary(context, alloc, BinaryOp::Divide, left, right),
        ProductOperator::Remainder => binary(context, alloc, BinaryOp::Remainder, left, right),
        ProductOperator::ShiftLeft => shift(context, alloc, true, left, right),
        ProductOperator::ShiftRight => shift(context, alloc, false, left, right),
        ProductOperator::And => binary(context, alloc, BinaryOp::And, left, right),
        ProductOperator::AndNot => binary(context, alloc, BinaryOp::AndNot, left, right),
    }
}

// What the operator of an assignment makes of two operands.
fn combine(
    context: &Context<'_>,
    alloc: Global,
    op: AssignOperator,
    left: &Operand,
    right: &Operand,
) -> Result<Option<Operand>, NoMemory>
    ensures { IfOk result (Gives (Operates (env_in context.now) op left.now right.now)) }
{
    match op {
        AssignOperator::Sum(op) => binary(context, alloc, sum_operator(op), left, right),
        AssignOperator::Product(op) => product(context, alloc, op, left, right),
    }
}

// Whether what one more, or one less, makes of an operand may be used as a value of a type.
fn step_fits(
    context: &Context<'_>,
    alloc: Global,
    op: StepOperator,
    side: &Operand,
    term: &Term,
) -> Result<bool, NoMemory>
    ensures { IfOk result (λ answer. Decides answer (StepFits (env_in context.now) op side.now term.now)) }
{
    let unit = one();
    match binary(context, alloc, step_operator(op), side, &unit)? {
        Some(value) => is_usable(context, alloc, &value, term),
        None => Ok(false),
    }
}

// Whether one may be added to an operand, or taken from it.
fn may_step(
    context: &Context<'_>,
    alloc: Global,
    op: StepOperator,
    side: &Operand,
) -> Result<bool, NoMemory>
    ensures { IfOk result (λ answer. Decides answer (MayStep (env_in context.now) op side.now)) }
{
    match assigned_type(side) {
        Some(term) => step_fits(context, alloc, op, side, term),
        None => Ok(false),
    }
}

// Whether what an operator makes of two operands may be used as a value of a type.
fn result_fits(
    context: &Context<'_>,
    alloc: Global,
    op: AssignOperator,
    side: &Operand,
    right: &Operand,
    term: &Term,
) -> Result<bool, NoMemory>
    ensures { IfOk result (λ answer. Decides answer (ResultFits (env_in context.now) op side.now right.now term.now)) }
{
    match combine(context, alloc, op, side, right)? {
        Some(value) => is_usable(context, alloc, &value, term),
        None => Ok(false),
    }
}

// Whether an operand may be given the result of an operator between it and another one.
fn may_operate(
    context: &Context<'_>,
    alloc: Global,
    op: AssignOperator,
    side: &Operand,
    right: &Operand,
) -> Result<bool, NoMemory>
    ensures { IfOk result (λ answer. Decides answer (MayOperate (env_in context.now) op side.now right.now)) }
{
    match assigned_type(side) {
        Some(term) => result_fits(context, alloc, op, side, right, term),
        None => Ok(false),
    }
}

/// `++` or `--` behind an expression. `Untyped` exactly where it isn't typed.
pub fn step(
    context: &Context<'_>,
    alloc: Global,
    side: &Expr,
    op: StepOperator,
) -> Result<(), ExprError>
    ensures { Tells (λ _. Steps (env_in context.now) op side.now) result }
{
    let changed = operand(context, alloc, side)?;
    if !may_step(context, alloc, op, &changed)? {
        return Err(ExprError::Untyped);
    }
    Ok(())
}

/// An assignment with an operator. `Untyped` exactly where it isn't typed.
pub fn operate(
    context: &Context<'_>,
    alloc: Global,
    side: &Expr,
    op: AssignOperator,
    value: &Expr,
) -> Result<(), ExprError>
    ensures { Tells (λ _. OperatesOn (env_in context.now) op side.now value.now) result }
{
    let changed = operand(context, alloc, side)?;
    let right = operand(context, alloc, value)?;
    if !may_operate(context, alloc, op, &changed, &right)? {
        return Err(ExprError::Untyped);
    }
    Ok(())
}
