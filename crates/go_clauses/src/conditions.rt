//! Conditions.
ghost use Rattle.std.specs.Prelude.{◌≡◌};
ghost use Rattle.go_clauses.specs.Clauses.{IsConditionOf};
ghost use Rattle.go_model.specs.declared.constants.value.Basic.TheVariants as basic;
ghost use Rattle.go_model.specs.declared.constants.value.Untyped.TheVariants as untyped;
ghost use Rattle.go_model.specs.declared.types.term.Term.{Term-F};
ghost use Rattle.go_model.specs.types.Underlying.{under};
ghost use Rattle.go_rules.specs.Operands.{IsUntyped};
ghost use Rattle.go_selectors.specs.Answers.{Decides};
ghost use Rattle.go_statement_rules.specs.Statements.{IsTruth};
ghost use Rattle.go_type_terms.specs.Answers.{Tells, env_in};

use go_assignments::go_asks::operands::operand;
use go_model::constants::value::{Basic, Untyped};
use go_model::types::term::Term;
use go_operators::levels::basic_under;
use go_operators::values::{type_of, untyped_of};
use go_rules::operand::Operand;
use go_syntax::expression::Expr;
use go_type_terms::error::ExprError;
use go_usability::context::Context;
use std::alloc::Global;

// Whether there is `bool` underneath a type.
fn is_bool(context: &Context<'_>, term: &Term) -> bool
    ensures { Decides result (under (env_in context.now).table term.now ≡ Term-F.Plain basic.Bool) }
{
    matches!(basic_under(context, term), Some(Basic::Bool))
}

// Whether it is the kind of truth values.
fn is_truth_kind(kind: Untyped) -> bool
    ensures { Decides result (kind ≡ untyped.BoolKind) }
{
    matches!(kind, Untyped::BoolKind)
}

// Whether it is an untyped truth value.
fn is_untyped_truth(operand: &Operand) -> bool
    ensures { Decides result (IsUntyped operand.now untyped.BoolKind) }
{
    match untyped_of(operand) {
        Some(kind) => is_truth_kind(kind),
        None => false,
    }
}

// Whether it is a truth value.
fn is_truth(context: &Context<'_>, operand: &Operand) -> bool
    ensures { Decides result (IsTruth (env_in context.now) operand.now) }
{
    match type_of(operand) {
        Some(term) => is_bool(context, term),
        None => is_untyped_truth(operand),
    }
}

/// A condition: an expression that is a truth value. `Untyped` exactly where it is none.
pub fn condition(context: &Context<'_>, alloc: Global, expr: &Expr) -> Result<(), ExprError>
    ensures { Tells (λ _. IsConditionOf (env_in context.now) expr.now) result }
{
    let tested = operand(context, alloc, expr)?;
    if !is_truth(context, &tested) {
        return Err(ExprError::Untyped);
    }
    Ok(())
}
