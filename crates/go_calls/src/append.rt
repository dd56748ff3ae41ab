//! `append` and `copy`.
ghost use Rattle.std.specs.Prelude.{◌≡◌, ◌∷◌, IfOk};
ghost use Rattle.go_model.specs.declared.constants.value.Basic.TheVariants as basic;
ghost use Rattle.go_rules.specs.Operands.{basic_term};
ghost use Rattle.go_rules.specs.Scopes.{env_of};
ghost use Rattle.go_selectors.specs.Answers.{Decides};
ghost use Rattle.go_elements.specs.go_usability.Answers.{Gives};
ghost use Rattle.go_calls.specs.Builtins.{Appends, Copies};
ghost use Rattle.go_calls.specs.inner.Appended.{IsBytesFrom, MayAppend, MayAppendAll, MayCopy};

use crate::arguments::{sole, usable_all};
use go_base::memory::NoMemory;
use go_elements::go_operators::levels::slice_under;
use go_elements::go_operators::operands::{int_where, plain_where};
use go_elements::go_operators::values::{is_usable, type_of};
use go_elements::go_usability::context::Context;
use go_elements::strings::string_length;
use go_model::constants::value::Basic;
use go_model::types::term::{Term, slice_of};
use go_rules::operand::Operand;
use go_selectors::identity::identical;
use std::alloc::Global;

fn is_byte(element: &Term) -> bool
    ensures { Decides result (element.now ≡ basic_term basic.Uint8) }
{
    matches!(element, Term::Plain(Basic::Uint8))
}

// Whether an operand is a string, and the elements that it goes to are bytes.
fn is_bytes_from(context: &Context<'_>, element: &Term, operand: &Operand) -> bool
    ensures { Decides result (IsBytesFrom (env_of context.now.env.now) element.now operand.now) }
{
    if !is_byte(element) {
        return false;
    }
    match string_length(context, operand) {
        Some(_) => true,
        None => false,
    }
}

// Whether an operand may be appended as a slice, or as a string, to elements of this type.
fn may_append(
    context: &Context<'_>,
    alloc: Global,
    element: &Term,
    operand: &Operand,
) -> Result<bool, NoMemory>
    ensures { IfOk result (λ answer. Decides answer (MayAppend (env_of context.now.env.now) element.now operand.now)) }
{
    if is_bytes_from(context, element, operand) {
        return Ok(true);
    }
    let slice = slice_of(alloc, element)?;
    let answer = is_usable(context, alloc, operand, &slice)?;
    Ok(answer)
}

// Whether these operands may be appended to elements of this type.
fn may_append_all(
    context: &Context<'_>,
    alloc: Global,
    element: &Term,
    operands: &[Operand],
    dots: bool,
) -> Result<bool, NoMemory>
    ensures { IfOk result (λ answer. Decides answer (MayAppendAll (env_of context.now.env.now) element.now operands.now dots)) }
{
    if !dots {
        let all = usable_all(context, alloc, operands, element)?;
        return Ok(all);
    }
    match sole(operands) {
        Some(operand) => {
            let last = may_append(context, alloc, element, operand)?;
            Ok(last)
        }
        None => Ok(false),
    }
}

fn append_to(
    context: &Context<'_>,
    alloc: Global,
    operand: &Operand,
    operands: &[Operand],
    dots: bool,
) -> Result<Option<Operand>, NoMemory>
    ensures { IfOk result (Gives (Appends (env_of context.now.env.now) (operand.now ∷ operands.now) dots)) }
{
    let term = match type_of(operand) {
        Some(term) => term,
        None => return Ok(None),
    };
    let element = match slice_under(context, term) {
        Some(element) => element,
        None => return Ok(None),
    };
    let may = may_append_all(context, alloc, element, operands, dots)?;
    let answer = plain_where(alloc, may, term)?;
    Ok(answer)
}

/// `append`; None exactly where the first operand is no slice, or the others can't be elements of it, or
/// the one before `...` neither such a slice nor, for bytes, a string.
pub(crate) fn append(
    context: &Context<'_>,
    alloc: Global,
    operands: &[Operand],
    dots: bool,
) -> Result<Option<Operand>, NoMemory>
    ensures { IfOk result (Gives (Appends (env_of context.now.env.now) operands.now dots)) }
{
    match operands.split_first() {
        Some((first, rest)) => {
            let answer = append_to(context, alloc, first, rest, dots)?;
            Ok(answer)
        }
        None => Ok(None),
    }
}

// Whether an operand may be copied to elements of this type.
fn may_copy(context: &Context<'_>, element: &Term, operand: &Operand) -> bool
    ensures { Decides result (MayCopy (env_of context.now.env.now) element.now operand.now) }
{
    if is_bytes_from(context, element, operand) {
        return true;
    }
    match type_of(operand) {
        Some(term) => match slice_under(context, term) {
            Some(other) => identical(element, other),
            None => false,
        },
        None => false,
    }
}

/// `copy`; None exactly where the first operand is no slice, or the second neither one with its elements
/// nor, for bytes, a string.
pub(crate) fn copy(context: &Context<'_>, to: &Operand, from: &Operand) -> Option<Operand>
    ensures { Gives (Copies (env_of context.now.env.now) to.now from.now) result }
{
    let term = match type_of(to) {
        Some(term) => term,
        None => return None,
    };
    match slice_under(context, term) {
        Some(element) => int_where(may_copy(context, element, from)),
        None => None,
    }
}
