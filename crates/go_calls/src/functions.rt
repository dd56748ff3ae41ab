//! Calls of functions.
ghost use Rattle.std.specs.Prelude.{◌≡◌, ◌∷◌, [], IfOk, MatchOption, List, false, map};
ghost use Rattle.go_model.specs.declared.types.term.Term.{Term};
ghost use Rattle.go_rules.specs.Expressions.{results_of};
ghost use Rattle.go_rules.specs.Operands.{plain, tuple};
ghost use Rattle.go_rules.specs.Scopes.{env_of};
ghost use Rattle.go_elements.specs.go_usability.Answers.{Gives};
ghost use Rattle.go_calls.specs.Functions.{CallsFunction};
ghost use Rattle.go_calls.specs.inner.Arguments.{CallsSignature, CallsWith};

use crate::arguments::{arguments_fit, sole};
use go_base::list::List;
use go_base::memory::NoMemory;
use go_elements::go_operators::levels::function_under;
use go_elements::go_operators::operands::{no_value, plain_like};
use go_elements::go_operators::values::type_of;
use go_elements::go_usability::context::Context;
use go_model::types::term::{Signature, Term};
use go_rules::operand::{Mode, Operand, Shape};
use std::alloc::Global;

// Equal types.
fn copy_terms(alloc: Global, terms: &[Term]) -> Result<List<Term>, NoMemory>
    ensures { IfOk result (λ copied. copied ≡ terms.now) }
{
    let mut copied = List::new(alloc);
    for term in terms {
        copied.push(term.copy(alloc)?)?;
    }
    Ok(copied)
}

fn tuple(terms: List<Term>) -> Operand
    ensures { result ≡ tuple terms }
{
    Operand {
        mode: Mode::Tuple,
        shape: Shape::Many(terms),
    }
}

// What a call of a function with these results is.
fn results_of(alloc: Global, results: &[Term]) -> Result<Operand, NoMemory>
    ensures { IfOk result (λ operand. operand ≡ results_of results.now) }
{
    match results.split_first() {
        Some((term, rest)) => {
            if rest.is_empty() {
                let value = plain_like(alloc, term)?;
                return Ok(value);
            }
            let copied = copy_terms(alloc, results)?;
            Ok(tuple(copied))
        }
        None => Ok(no_value()),
    }
}

// A call of a function with these arguments, none of which stands for several.
fn call_signature(
    context: &Context<'_>,
    alloc: Global,
    signature: &Signature,
    operands: &[Operand],
    dots: bool,
) -> Result<Option<Operand>, NoMemory>
    ensures { IfOk result (Gives (CallsSignature (env_of context.now.env.now) dots signature.now operands.now)) }
{
    let fits = arguments_fit(
        context,
        alloc,
        signature.variadic,
        dots,
        signature.params.items(),
        operands,
    )?;
    if !fits {
        return Ok(None);
    }
    let results = results_of(alloc, signature.results.items())?;
    Ok(Some(results))
}

// The types of several results.
fn tuple_in(operand: &Operand) -> Option<&[Term]>
    ensures { MatchOption result ((ts : List Term) → operand.now ≡ tuple ts → ⊥) (λ ts. operand.now ≡ tuple ts.now) }
{
    match (operand.mode, &operand.shape) {
        (Mode::Tuple, Shape::Many(terms)) => Some(terms.items()),
        _ => None,
    }
}

// The types of the results of a call that stand for the arguments.
fn sole_tuple(operands: &[Operand], dots: bool) -> Option<&[Term]>
    ensures { MatchOption result ((ts : List Term) → dots ≡ false → operands.now ≡ tuple ts ∷ [] → ⊥) (λ ts. (dots ≡ false) × (operands.now ≡ tuple ts.now ∷ [])) }
{
    if dots {
        return None;
    }
    match sole(operands) {
        Some(operand) => match tuple_in(operand) {
            Some(terms) => Some(terms),
            None => None,
        },
        None => None,
    }
}

// A plain value of each type.
fn plain_each(alloc: Global, terms: &[Term]) -> Result<List<Operand>, NoMemory>
    ensures { IfOk result (λ operands. operands ≡ map plain terms.now) }
{
    let mut operands = List::new(alloc);
    for term in terms {
        operands.push(plain_like(alloc, term)?)?;
    }
    Ok(operands)
}

// A call of a function with the results of another call.
fn call_spread(
    context: &Context<'_>,
    alloc: Global,
    signature: &Signature,
    terms: &[Term],
) -> Result<Option<Operand>, NoMemory>
    ensures { IfOk result (Gives (CallsSignature (env_of context.now.env.now) false signature.now (map plain terms.now))) }
{
    let spread = plain_each(alloc, terms)?;
    let answer = call_signature(context, alloc, signature, spread.items(), false)?;
    Ok(answer)
}

// A call of a function with these arguments.
fn call_with(
    context: &Context<'_>,
    alloc: Global,
    signature: &Signature,
    operands: &[Operand],
    dots: bool,
) -> Result<Option<Operand>, NoMemory>
    ensures { IfOk result (Gives (CallsWith (env_of context.now.env.now) dots signature.now operands.now)) }
{
    match sole_tuple(operands, dots) {
        Some(terms) => {
            let spread = call_spread(context, alloc, signature, terms)?;
            Ok(spread)
        }
        None => {
            let answer = call_signature(context, alloc, signature, operands, dots)?;
            Ok(answer)
        }
    }
}

/// What a call of an operand with these arguments is, the last of which stands before `...` or not; the
/// results of another call may stand for the arguments. It is None exactly where the operand is no function
/// or they don't fit its parameters.
pub fn call_function(
    context: &Context<'_>,
    alloc: Global,
    operand: &Operand,
    operands: &[Operand],
    dots: bool,
) -> Result<Option<Operand>, NoMemory>
    ensures { IfOk result (Gives (CallsFunction (env_of context.now.env.now) dots operand.now operands.now)) }
{
    let term = match type_of(operand) {
        Some(term) => term,
        None => return Ok(None),
    };
    match function_under(context, term) {
        Some(signature) => {
            let answer = call_with(context, alloc, signature, operands, dots)?;
            Ok(answer)
        }
        None => Ok(None),
    }
}
