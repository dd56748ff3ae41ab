//! `make` and `new`.
ghost use Rattle.std.specs.Prelude.{◌≡◌, ◌⊎◌, ◌∷◌, [], IfOk, length};
ghost use Rattle.go_model.specs.declared.types.term.Term.{out-Term};
ghost use Rattle.go_rules.specs.Expressions.{Makes, UpTo};
ghost use Rattle.go_rules.specs.Scopes.{env_of};
ghost use Rattle.go_selectors.specs.Answers.{Decides};
ghost use Rattle.go_elements.specs.go_usability.Answers.{Gives};
ghost use Rattle.go_calls.specs.Builtins.{MakesOf, News};
ghost use Rattle.go_calls.specs.inner.Made.{FitSizes};

use go_base::memory::NoMemory;
use go_elements::go_operators::operands::{plain, plain_where};
use go_elements::go_operators::values::type_in;
use go_elements::go_usability::context::Context;
use go_elements::indices::index_of;
use go_model::types::term::{Term, pointer_to};
use go_rules::operand::Operand;
use std::alloc::Global;

// Whether the first constant value isn't above the second.
fn is_up_to(number: Option<u64>, limit: Option<u64>) -> bool
    ensures { Decides result (UpTo number limit) }
{
    match (number, limit) {
        (Some(number), Some(limit)) => number <= limit,
        _ => true,
    }
}

fn is_one_of(number: usize, first: usize, second: usize) -> bool
    ensures { Decides result ((number ≡ first) ⊎ (number ≡ second)) }
{
    if number == first {
        return true;
    }
    number == second
}

// Whether an underlying type takes so many sizes.
fn takes_sizes(under: &Term, count: usize) -> bool
    ensures { Decides result (Makes (out-Term under.now) count) }
{
    match under {
        Term::Slice(_) => is_one_of(count, 1, 2),
        Term::Map(_, _) => is_one_of(count, 0, 1),
        Term::Chan(_, _) => is_one_of(count, 0, 1),
        _ => false,
    }
}

// Whether an operand is a size.
fn fits_one(context: &Context<'_>, size: &Operand) -> bool
    ensures { Decides result (FitSizes (env_of context.now.env.now) (size.now ∷ [])) }
{
    match index_of(context, size) {
        Some(_) => true,
        None => false,
    }
}

// Whether two operands are sizes, of which no constant first is above a constant second.
fn fit_two(context: &Context<'_>, size: &Operand, capacity: &Operand) -> bool
    ensures { Decides result (FitSizes (env_of context.now.env.now) (size.now ∷ capacity.now ∷ [])) }
{
    let number = match index_of(context, size) {
        Some(number) => number,
        None => return false,
    };
    match index_of(context, capacity) {
        Some(limit) => is_up_to(number, limit),
        None => false,
    }
}

// The same of one operand and others.
fn fit_more(context: &Context<'_>, size: &Operand, operands: &[Operand]) -> bool
    ensures { Decides result (FitSizes (env_of context.now.env.now) (size.now ∷ operands.now)) }
{
    match operands.split_first() {
        Some((capacity, more)) => {
            if !more.is_empty() {
                return false;
            }
            fit_two(context, size, capacity)
        }
        None => fits_one(context, size),
    }
}

// Whether operands are sizes, of which no constant first is above a constant second.
fn fit_sizes(context: &Context<'_>, operands: &[Operand]) -> bool
    ensures { Decides result (FitSizes (env_of context.now.env.now) operands.now) }
{
    match operands.split_first() {
        Some((size, rest)) => fit_more(context, size, rest),
        None => true,
    }
}

/// `make` of a type with sizes; None exactly where the first operand is no type, or one that isn't made
/// with so many sizes, or these aren't sizes.
pub(crate) fn make(
    context: &Context<'_>,
    alloc: Global,
    operand: &Operand,
    operands: &[Operand],
) -> Result<Option<Operand>, NoMemory>
    ensures { IfOk result (Gives (MakesOf (env_of context.now.env.now) operand.now operands.now)) }
{
    let term = match type_in(operand) {
        Some(term) => term,
        None => return Ok(None),
    };
    if !takes_sizes(context.under(term), operands.len()) {
        return Ok(None);
    }
    let answer = plain_where(alloc, fit_sizes(context, operands), term)?;
    Ok(answer)
}

/// `new` of a type; None exactly where the operand is none.
pub(crate) fn new(alloc: Global, operand: &Operand) -> Result<Option<Operand>, NoMemory>
    ensures { IfOk result (Gives (News operand.now)) }
{
    match type_in(operand) {
        Some(term) => Ok(Some(plain(pointer_to(alloc, term)?))),
        None => Ok(None),
    }
}
