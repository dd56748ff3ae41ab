//! Slice expressions.
ghost use Rattle.std.specs.Prelude.{◌≡◌, ◌∷◌, [], IfOk, true};
ghost use Rattle.go_base.specs.Keys.{item_of};
ghost use Rattle.go_model.specs.declared.types.term.Term.{out-Term};
ghost use Rattle.go_model.specs.types.Terms.{slice_of};
ghost use Rattle.go_rules.specs.Expressions.{Ascend, IsString, Slices, UpTo};
ghost use Rattle.go_rules.specs.Operands.{plain};
ghost use Rattle.go_rules.specs.Scopes.{env_of};
ghost use Rattle.go_operators.specs.go_selectors.Answers.{Decides};
ghost use Rattle.go_operators.specs.go_usability.Answers.{Gives};
ghost use Rattle.go_elements.specs.SliceExpressions.{SlicesFully, SlicesSimply};
ghost use Rattle.go_elements.specs.inner.Sliced.{IsUntypedText, SlicesAt, SlicesBase, SlicesUntyped};

use crate::indices::{index_of, optional_index};
use crate::strings::string_length;
use go_base::memory::NoMemory;
use go_model::constants::value::{Basic, Value};
use go_model::types::package::ConstTerm;
use go_model::types::term::{Term, slice_of};
use go_operators::go_usability::context::Context;
use go_operators::operands::{plain, plain_like};
use go_operators::values::{constant_of, is_variable, type_of};
use go_rules::operand::Operand;
use std::alloc::Global;

// The length of a constant's text, where it has no type.
fn untyped_length(of: &ConstTerm, value: &Value) -> Option<u64>
    ensures { Gives (IsUntypedText of.now value.now) result }
{
    match of {
        ConstTerm::OfTerm(_) => None,
        ConstTerm::OfKind(_) => match value {
            Value::Int(_) => None,
            Value::Str(text) => Some(text.bytes().len() as u64),
            Value::Truth(_) => None,
        },
    }
}

// A slice of a constant's text, where it has no type.
fn slice_untyped(simple: bool, operand: &Operand) -> Option<(Option<u64>, Operand)>
    ensures { Gives (λ p. SlicesUntyped simple operand.now p.0 p.1) result }
{
    if !simple {
        return None;
    }
    match constant_of(operand) {
        Some((of, value)) => match untyped_length(of, value) {
            Some(length) => Some((Some(length), plain(Term::Plain(Basic::Str)))),
            None => None,
        },
        None => None,
    }
}

// A value of the slice type of an equal element.
fn slice_value(alloc: Global, element: &Term) -> Result<Operand, NoMemory>
    ensures { IfOk result (λ slice. slice ≡ plain (slice_of element.now)) }
{
    let slice = slice_of(alloc, element)?;
    Ok(plain(slice))
}

// A slice of the array that a pointer to this underlying type points to.
fn slice_base(alloc: Global, under: &Term) -> Result<Option<(Option<u64>, Operand)>, NoMemory>
    ensures { IfOk result (Gives (λ p. SlicesBase (out-Term under.now) p.0 p.1)) }
{
    match under {
        Term::Array(length, element) => {
            let slice = slice_value(alloc, element.value())?;
            Ok(Some((Some(*length), slice)))
        }
        _ => Ok(None),
    }
}

// A slice of a string of a type, by two indices.
fn slice_string(
    context: &Context<'_>,
    alloc: Global,
    simple: bool,
    operand: &Operand,
    term: &Term,
) -> Result<Option<(Option<u64>, Operand)>, NoMemory>
    ensures { IfOk result (Gives (λ p. (simple ≡ true) × IsString (env_of context.now.env.now) operand.now p.0 × (p.1 ≡ plain term.now))) }
{
    if !simple {
        return Ok(None);
    }
    match string_length(context, operand) {
        Some(length) => {
            let slice = plain_like(alloc, term)?;
            Ok(Some((length, slice)))
        }
        None => Ok(None),
    }
}

// A slice of a value of a type with this one underneath.
fn slice_at(
    context: &Context<'_>,
    alloc: Global,
    simple: bool,
    operand: &Operand,
    term: &Term,
    under: &Term,
) -> Result<Option<(Option<u64>, Operand)>, NoMemory>
    ensures { IfOk result (Gives (λ p. SlicesAt (env_of context.now.env.now) simple operand.now term.now (out-Term under.now) p.0 p.1)) }
{
    match under {
        Term::Plain(_) => {
            let string = slice_string(context, alloc, simple, operand, term)?;
            Ok(string)
        }
        Term::Array(length, element) => {
            if !is_variable(operand.mode) {
                return Ok(None);
            }
            let array = slice_value(alloc, element.value())?;
            Ok(Some((Some(*length), array)))
        }
        Term::Pointer(base) => {
            let pointer = slice_base(alloc, context.under(base.value()))?;
            Ok(pointer)
        }
        Term::Slice(_) => {
            let slice = plain_like(alloc, term)?;
            Ok(Some((None, slice)))
        }
        _ => Ok(None),
    }
}

// What is sliced, by two indices or by three: its length, where it is constant, and the slice.
fn sliced(
    context: &Context<'_>,
    alloc: Global,
    simple: bool,
    operand: &Operand,
) -> Result<Option<(Option<u64>, Operand)>, NoMemory>
    ensures { IfOk result (Gives (λ p. Slices (env_of context.now.env.now) simple operand.now p.0 p.1)) }
{
    match type_of(operand) {
        Some(term) => {
            let under = context.under(term);
            let answer = slice_at(context, alloc, simple, operand, term, under)?;
            Ok(answer)
        }
        None => Ok(slice_untyped(simple, operand)),
    }
}

// Whether a constant index is no greater than a constant length or a later index.
fn is_up_to(index: Option<u64>, limit: Option<u64>) -> bool
    ensures { Decides result (UpTo index limit) }
{
    match (index, limit) {
        (Some(index), Some(limit)) => index <= limit,
        _ => true,
    }
}

fn two_ascend(low: Option<u64>, high: Option<u64>, length: Option<u64>) -> bool
    ensures { Decides result (Ascend (low ∷ high ∷ []) length) }
{
    is_up_to(low, length) && is_up_to(low, high) && is_up_to(high, length)
}

fn three_ascend(
    low: Option<u64>,
    high: Option<u64>,
    bound: Option<u64>,
    length: Option<u64>,
) -> bool
    ensures { Decides result (Ascend (low ∷ high ∷ bound ∷ []) length) }
{
    is_up_to(low, length)
        && is_up_to(low, high)
        && is_up_to(low, bound)
        && two_ascend(high, bound, length)
}

/// The slice of an operand from one index to another, each of which may be left out. It is None exactly where
/// the operand is neither a string nor a slice, an addressable array or a pointer to an array; where what stands
/// is no index; and where a constant index is greater than the next one or the length, where these are constant.
pub fn slice(
    context: &Context<'_>,
    alloc: Global,
    operand: &Operand,
    low: Option<&Operand>,
    high: Option<&Operand>,
) -> Result<Option<Operand>, NoMemory>
    ensures { IfOk result (Gives (SlicesSimply (env_of context.now.env.now) operand.now (item_of low.entry) (item_of high.entry))) }
{
    let from = match optional_index(context, low) {
        Some(from) => from,
        None => return Ok(None),
    };
    let to = match optional_index(context, high) {
        Some(to) => to,
        None => return Ok(None),
    };
    match sliced(context, alloc, true, operand)? {
        Some((length, slice)) => {
            if two_ascend(from, to, length) {
                Ok(Some(slice))
            } else {
                Ok(None)
            }
        }
        None => Ok(None),
    }
}

/// The slice of an operand by three indices, of which the first may be left out: from one to another, with a
/// capacity up to the last. It is None exactly where the operand is neither a slice, an addressable array nor a
/// pointer to an array; where what stands is no index; and where a constant index is greater than a later one or
/// the length, where these are constant.
pub fn full_slice(
    context: &Context<'_>,
    alloc: Global,
    operand: &Operand,
    low: Option<&Operand>,
    high: &Operand,
    bound: &Operand,
) -> Result<Option<Operand>, NoMemory>
    ensures { IfOk result (Gives (SlicesFully (env_of context.now.env.now) operand.now (item_of low.entry) high.now bound.now)) }
{
    let from = match optional_index(context, low) {
        Some(from) => from,
        None => return Ok(None),
    };
    let to = match index_of(context, high) {
        Some(to) => to,
        None => return Ok(None),
    };
    let until = match index_of(context, bound) {
        Some(until) => until,
        None => return Ok(None),
    };
    match sliced(context, alloc, false, operand)? {
        Some((length, slice)) => {
            if three_ascend(from, to, until, length) {
                Ok(Some(slice))
            } else {
                Ok(None)
            }
        }
        None => Ok(None),
    }
}
