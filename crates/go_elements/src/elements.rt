//! Elements, by their indices or keys.
ghost use Rattle.std.specs.Prelude.{◌≡◌, IfOk, None, Some, if◌then◌else◌};
ghost use Rattle.go_model.specs.declared.constants.value.Basic.TheVariants as basic;
ghost use Rattle.go_model.specs.declared.types.term.Term.{Term-F, out-Term};
ghost use Rattle.go_rules.specs.Expressions.{reached};
ghost use Rattle.go_rules.specs.Operands.{basic_term, plain, value_of};
ghost use Rattle.go_rules.specs.Scopes.{env_of};
ghost use Rattle.go_rules.specs.Usability.{UsableAs};
ghost use Rattle.go_operators.specs.go_selectors.Answers.{Decides};
ghost use Rattle.go_operators.specs.go_usability.Answers.{Gives};
ghost use Rattle.go_elements.specs.Indexes.{Indexes};
ghost use Rattle.go_elements.specs.inner.Elements.{ByteAt, ElementAt, ElementOfBase, IsIndexBelow};

use crate::indices::{index_of, is_below};
use crate::strings::string_length;
use go_base::memory::NoMemory;
use go_model::constants::value::Basic;
use go_model::types::term::Term;
use go_operators::go_usability::context::Context;
use go_operators::go_usability::usable::usable;
use go_operators::operands::{plain, value_where};
use go_operators::values::{is_variable, type_of};
use go_rules::operand::{Mode, Operand};
use std::alloc::Global;

// Whether an operand is an index below the length, where there is one.
fn is_index_below(context: &Context<'_>, index: &Operand, length: Option<u64>) -> bool
    ensures { Decides result (IsIndexBelow (env_of context.now.env.now) index.now length) }
{
    match index_of(context, index) {
        Some(number) => is_below(number, length),
        None => false,
    }
}

/// The mode of what was reached from a variable or through a pointer, or not.
pub(crate) fn reached(through: bool) -> Mode
    ensures { result ≡ reached through }
{
    if through { Mode::Variable } else { Mode::Plain }
}

// The element at an index below the length, where that is known.
fn at_index(
    context: &Context<'_>,
    alloc: Global,
    mode: Mode,
    element: &Term,
    index: &Operand,
    length: Option<u64>,
) -> Result<Option<Operand>, NoMemory>
    ensures { IfOk result (Gives (λ r. IsIndexBelow (env_of context.now.env.now) index.now length × (r ≡ value_of mode element.now))) }
{
    let below = is_index_below(context, index, length);
    let answer = value_where(alloc, below, mode, element)?;
    Ok(answer)
}

// The element at a key.
fn at_key(
    context: &Context<'_>,
    alloc: Global,
    key: &Term,
    element: &Term,
    index: &Operand,
) -> Result<Option<Operand>, NoMemory>
    ensures { IfOk result (Gives (λ r. UsableAs (env_of context.now.env.now) index.now key.now × (r ≡ value_of Mode.MapElement element.now))) }
{
    let may = usable(context, alloc, index, key)?;
    let answer = value_where(alloc, may, Mode::MapElement, element)?;
    Ok(answer)
}

// An element of the array that a pointer points to, by what is underneath its base.
fn element_of_base(
    context: &Context<'_>,
    alloc: Global,
    under: &Term,
    index: &Operand,
) -> Result<Option<Operand>, NoMemory>
    ensures { IfOk result (Gives (ElementOfBase (env_of context.now.env.now) index.now (out-Term under.now))) }
{
    match under {
        Term::Array(length, element) => {
            let answer = at_index(
                context,
                alloc,
                Mode::Variable,
                element.value(),
                index,
                Some(*length),
            )?;
            Ok(answer)
        }
        _ => Ok(None),
    }
}

// An element of an array.
fn element_of_array(
    context: &Context<'_>,
    alloc: Global,
    mode: Mode,
    length: u64,
    element: &Term,
    index: &Operand,
) -> Result<Option<Operand>, NoMemory>
    ensures { IfOk result (Gives (ElementAt (env_of context.now.env.now) mode index.now (Term-F.Array length element.now))) }
{
    let by = reached(is_variable(mode));
    let answer = at_index(context, alloc, by, element, index, Some(length))?;
    Ok(answer)
}

// An element of a value of this mode with this underlying type.
fn element_at(
    context: &Context<'_>,
    alloc: Global,
    mode: Mode,
    under: &Term,
    index: &Operand,
) -> Result<Option<Operand>, NoMemory>
    ensures { IfOk result (Gives (ElementAt (env_of context.now.env.now) mode index.now (out-Term under.now))) }
{
    match under {
        Term::Array(length, element) => {
            let array = element_of_array(context, alloc, mode, *length, element.value(), index)?;
            Ok(array)
        }
        Term::Pointer(base) => {
            let pointer = element_of_base(context, alloc, context.under(base.value()), index)?;
            Ok(pointer)
        }
        Term::Slice(element) => {
            let slice = at_index(context, alloc, Mode::Variable, element.value(), index, None)?;
            Ok(slice)
        }
        Term::Map(key, element) => {
            let map = at_key(context, alloc, key.value(), element.value(), index)?;
            Ok(map)
        }
        _ => Ok(None),
    }
}

fn byte_where(holds: bool) -> Option<Operand>
    ensures { result ≡ (if holds then Some (plain (basic_term basic.Uint8)) else None) }
{
    if holds {
        Some(plain(Term::Plain(Basic::Uint8)))
    } else {
        None
    }
}

// The byte of a string at an index.
fn byte_of(context: &Context<'_>, length: Option<u64>, index: &Operand) -> Option<Operand>
    ensures { Gives (ByteAt (env_of context.now.env.now) length index.now) result }
{
    byte_where(is_index_below(context, index, length))
}

/// The element of an operand at an index, or at a key of a map. It is None exactly where the operand has
/// no elements, or the index is none or, constant, not below the constant length, or the key isn't usable
/// as one of the map.
pub fn index(
    context: &Context<'_>,
    alloc: Global,
    operand: &Operand,
    index: &Operand,
) -> Result<Option<Operand>, NoMemory>
    ensures { IfOk result (Gives (Indexes (env_of context.now.env.now) operand.now index.now)) }
{
    if let Some(length) = string_length(context, operand) {
        let byte = byte_of(context, length, index);
        return Ok(byte);
    }
    match type_of(operand) {
        Some(term) => {
            let under = context.under(term);
            let answer = element_at(context, alloc, operand.mode, under, index)?;
            Ok(answer)
        }
        None => Ok(None),
    }
}
