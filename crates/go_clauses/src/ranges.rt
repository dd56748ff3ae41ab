//! What ranges give.
ghost use Rattle.std.specs.Prelude.{◌≡◌, ◌∷◌, [], true, IfOk};
ghost use Rattle.go_clauses.specs.Clauses.{RangesOver};
ghost use Rattle.go_clauses.specs.inner.Levels.{RangesArray, RangesLevel, RangesValue};
ghost use Rattle.go_model.specs.declared.constants.value.Basic.TheVariants as basic;
ghost use Rattle.go_model.specs.declared.types.term.Term.{out-Term};
ghost use Rattle.go_model.specs.types.Underlying.{under};
ghost use Rattle.go_rules.specs.Expressions.{receives};
ghost use Rattle.go_rules.specs.Operands.{basic_term};
ghost use Rattle.go_statement_rules.specs.Clauses.{Ranges};
ghost use Rattle.go_type_terms.specs.Answers.{Tells, env_in};

use go_assignments::go_asks::operands::operand;
use go_base::list::List;
use go_base::memory::NoMemory;
use go_elements::strings::string_length;
use go_model::constants::value::Basic;
use go_model::types::term::{Direction, Term};
use go_operators::values::type_of;
use go_rules::operand::Operand;
use go_syntax::expression::Expr;
use go_type_terms::error::ExprError;
use go_usability::context::Context;
use std::alloc::Global;

fn receives(direction: Direction) -> bool
    ensures { result ≡ receives direction }
{
    matches!(direction, Direction::Both | Direction::ReceiveOnly)
}

// Two types.
fn two(alloc: Global, key: Term, element: Term) -> Result<List<Term>, NoMemory>
    ensures { IfOk result (λ terms. terms ≡ key ∷ element ∷ []) }
{
    let mut terms = List::new(alloc);
    terms.push(key)?;
    terms.push(element)?;
    Ok(terms)
}

// `int`, and an equal type.
fn int_and(alloc: Global, element: &Term) -> Result<List<Term>, NoMemory>
    ensures { IfOk result (λ terms. terms ≡ basic_term basic.Int ∷ element.now ∷ []) }
{
    two(alloc, Term::Plain(Basic::Int), element.copy(alloc)?)
}

// Two equal types.
fn key_and(alloc: Global, key: &Term, element: &Term) -> Result<List<Term>, NoMemory>
    ensures { IfOk result (λ terms. terms ≡ key.now ∷ element.now ∷ []) }
{
    two(alloc, key.copy(alloc)?, element.copy(alloc)?)
}

// An equal type alone.
fn alone(alloc: Global, element: &Term) -> Result<List<Term>, NoMemory>
    ensures { IfOk result (λ terms. terms ≡ element.now ∷ []) }
{
    let mut terms = List::new(alloc);
    terms.push(element.copy(alloc)?)?;
    Ok(terms)
}

// What a range over an array gives.
fn ranged_array(alloc: Global, level: &Term) -> Result<List<Term>, ExprError>
    ensures { Tells (RangesArray (out-Term level.now)) result }
{
    match level {
        Term::Array(_, element) => Ok(int_and(alloc, element.value())?),
        _ => Err(ExprError::Untyped),
    }
}

// What a range over a channel gives.
fn ranged_channel(
    alloc: Global,
    direction: Direction,
    element: &Term,
) -> Result<List<Term>, ExprError>
    ensures { Tells (λ terms. (receives direction ≡ true) × (terms ≡ element.now ∷ [])) result }
{
    if !receives(direction) {
        return Err(ExprError::Untyped);
    }
    Ok(alone(alloc, element)?)
}

// What a range over values with this level underneath gives, where it isn't a string's.
fn ranged_level(context: &Context<'_>, alloc: Global, level: &Term) -> Result<List<Term>, ExprError>
    ensures { Tells (RangesLevel (env_in context.now) (out-Term level.now)) result }
{
    match level {
        Term::Array(_, element) => Ok(int_and(alloc, element.value())?),
        Term::Pointer(base) => ranged_array(alloc, context.under(base.value())),
        Term::Slice(element) => Ok(int_and(alloc, element.value())?),
        Term::Map(key, element) => Ok(key_and(alloc, key.value(), element.value())?),
        Term::Chan(direction, element) => ranged_channel(alloc, *direction, element.value()),
        _ => Err(ExprError::Untyped),
    }
}

// What a range over values of a type gives, where it isn't a string's.
fn ranged_type(context: &Context<'_>, alloc: Global, term: &Term) -> Result<List<Term>, ExprError>
    ensures { Tells (RangesLevel (env_in context.now) (under (env_in context.now).table term.now)) result }
{
    ranged_level(context, alloc, context.under(term))
}

// What a range over a value that is no string gives.
fn ranged_value(
    context: &Context<'_>,
    alloc: Global,
    operand: &Operand,
) -> Result<List<Term>, ExprError>
    ensures { Tells (RangesValue (env_in context.now) operand.now) result }
{
    match type_of(operand) {
        Some(term) => ranged_type(context, alloc, term),
        None => Err(ExprError::Untyped),
    }
}

// The types of the key and the element of a string.
fn of_string(alloc: Global) -> Result<List<Term>, NoMemory>
    ensures { IfOk result (λ terms. terms ≡ basic_term basic.Int ∷ basic_term basic.Int32 ∷ []) }
{
    two(alloc, Term::Plain(Basic::Int), Term::Plain(Basic::Int32))
}

// What a range over a value gives.
fn ranged(context: &Context<'_>, alloc: Global, operand: &Operand) -> Result<List<Term>, ExprError>
    ensures { Tells (Ranges (env_in context.now) operand.now) result }
{
    match string_length(context, operand) {
        Some(_) => Ok(of_string(alloc)?),
        None => ranged_value(context, alloc, operand),
    }
}

/// The types of what a range over an expression gives: of the key and of the element, or of the element of a channel alone.
/// `Untyped` exactly where there is no range over it.
pub fn range(context: &Context<'_>, alloc: Global, expr: &Expr) -> Result<List<Term>, ExprError>
    ensures { Tells (RangesOver (env_in context.now) expr.now) result }
{
    let over = operand(context, alloc, expr)?;
    ranged(context, alloc, &over)
}
