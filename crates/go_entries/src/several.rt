//! The values that one expression gives several names.
ghost use Rattle.std.specs.Prelude.{◌≡◌, map, IfOk};
ghost use Rattle.go_base.specs.Keys.{item_of};
ghost use Rattle.go_entries.specs.inner.Values.{AreResults, AreTwo, AreValuesOf, IsTuple, IsWithTruth, value_and_truth};
ghost use Rattle.go_rules.specs.Operands.{plain};
ghost use Rattle.go_type_terms.specs.Answers.{Tells};
ghost use Rattle.go_expr.specs.go_usability.Answers.{Gives, term_of};

use go_base::list::List;
use go_base::memory::NoMemory;
use go_expr::go_operators::operands::{loose, plain_like};
use go_model::constants::value::Untyped;
use go_model::types::term::Term;
use go_rules::operand::{Mode, Operand, Shape};
use go_type_terms::error::ExprError;
use std::alloc::Global;

// The types of the results of a call with several.
fn results(operand: &Operand) -> Option<&List<Term>>
    ensures { Gives (IsTuple operand.now) (item_of result) }
{
    match &operand.shape {
        Shape::Many(terms) => match operand.mode {
            Mode::Tuple => Some(terms),
            _ => None,
        },
        _ => None,
    }
}

// The type of a value that may come with a truth value: an element of a map, and, where it is told, a value of a type
// assertion or a receive.
fn with_truth(told: bool, operand: &Operand) -> Option<&Term>
    ensures { Gives (IsWithTruth told operand.now) (term_of result) }
{
    match &operand.shape {
        Shape::Of(term) => match operand.mode {
            Mode::MapElement => Some(term),
            Mode::Plain => { if told { Some(term) } else { None } }
            _ => None,
        },
        _ => None,
    }
}

// Values of these types.
fn values_of(alloc: Global, terms: &[Term]) -> Result<List<Operand>, NoMemory>
    ensures { IfOk result (λ values. values ≡ map plain terms.now) }
{
    let mut values = List::new(alloc);
    for term in terms {
        let value = plain_like(alloc, term)?;
        values.push(value)?;
    }
    Ok(values)
}

// A value of a type, and a truth value.
fn value_and_truth(alloc: Global, term: &Term) -> Result<List<Operand>, NoMemory>
    ensures { IfOk result (λ values. values ≡ value_and_truth term.now) }
{
    let mut values = List::new(alloc);
    values.push(plain_like(alloc, term)?)?;
    values.push(loose(Untyped::BoolKind))?;
    Ok(values)
}

// The values of so many names that the results of a call are.
fn by_results(alloc: Global, count: usize, terms: &[Term]) -> Result<List<Operand>, ExprError>
    ensures { Tells (AreResults count terms.now) result }
{
    if count < 2 {
        return Err(ExprError::Untyped);
    }
    if terms.len() != count {
        return Err(ExprError::Untyped);
    }
    let values = values_of(alloc, terms)?;
    Ok(values)
}

// The values of so many names that an operand and whether there was one are.
fn by_truth(
    alloc: Global,
    count: usize,
    told: bool,
    operand: &Operand,
) -> Result<List<Operand>, ExprError>
    ensures { Tells (AreTwo count told operand.now) result }
{
    if count != 2 {
        return Err(ExprError::Untyped);
    }
    let term = match with_truth(told, operand) {
        Some(term) => term,
        None => return Err(ExprError::Untyped),
    };
    let values = value_and_truth(alloc, term)?;
    Ok(values)
}

/// The values of so many names that one operand is; it is told whether it is that of a type assertion or a receive.
pub(crate) fn several(
    alloc: Global,
    count: usize,
    told: bool,
    operand: &Operand,
) -> Result<List<Operand>, ExprError>
    ensures { Tells (AreValuesOf count told operand.now) result }
{
    match results(operand) {
        Some(terms) => by_results(alloc, count, terms.items()),
        None => by_truth(alloc, count, told, operand),
    }
}
