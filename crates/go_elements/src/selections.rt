//! Selectors after an operand.
ghost use Rattle.std.specs.Prelude.{◌≡◌, ◌∷◌, IfOk, Some, true, if◌then◌else◌};
ghost use Rattle.go_base.specs.Keys.{item_of};
ghost use Rattle.go_model.specs.declared.types.found.Found.TheVariants as find;
ghost use Rattle.go_rules.specs.Expressions.{reached, with_receiver};
ghost use Rattle.go_rules.specs.Operands.{function_of, plain, value_of};
ghost use Rattle.go_rules.specs.Scopes.{env_of};
ghost use Rattle.go_operators.specs.go_usability.Answers.{Gives};
ghost use Rattle.go_elements.specs.Selections.{Selects};
ghost use Rattle.go_elements.specs.inner.Selected.{SelectsFunction, SelectsIn, SelectsMethod};

use crate::elements::reached;
use go_base::list::List;
use go_base::memory::NoMemory;
use go_base::shared::Shared;
use go_model::types::found::{FieldFound, Found};
use go_model::types::names::Sel;
use go_model::types::term::{Signature, Term};
use go_operators::go_usability::context::Context;
use go_operators::go_usability::finding::{found, has_method};
use go_operators::operands::{plain, value_of};
use go_operators::values::{is_variable, type_in, type_of};
use go_rules::blank::is_blank;
use go_rules::operand::Operand;
use std::alloc::Global;

// A type, and others after it.
fn before(alloc: Global, term: &Term, terms: &[Term]) -> Result<List<Term>, NoMemory>
    ensures { IfOk result (λ copied. copied ≡ term.now ∷ terms.now) }
{
    let mut copied = List::new(alloc);
    copied.push(term.copy(alloc)?)?;
    for other in terms {
        copied.push(other.copy(alloc)?)?;
    }
    Ok(copied)
}

// The signature of a method expression.
fn with_receiver(alloc: Global, term: &Term, signature: &Signature) -> Result<Signature, NoMemory>
    ensures { IfOk result (λ received. received ≡ with_receiver term.now signature.now) }
{
    let params = before(alloc, term, signature.params.items())?;
    Ok(Signature {
        params: Shared::new(alloc, params)?,
        variadic: signature.variadic,
        results: signature.results.share()?,
    })
}

fn function_value(signature: Signature) -> Operand
    ensures { result ≡ plain (function_of signature) }
{
    plain(Term::Func(signature))
}

// A method of a type as a function.
fn select_function(
    context: &Context<'_>,
    alloc: Global,
    term: &Term,
    sel: &Sel,
) -> Result<Option<Operand>, NoMemory>
    ensures { IfOk result (Gives (SelectsFunction (env_of context.now.env.now) sel.now term.now)) }
{
    match has_method(context, alloc, false, term, sel)? {
        Some(signature) => {
            let received = with_receiver(alloc, term, &signature)?;
            Ok(Some(function_value(received)))
        }
        None => Ok(None),
    }
}

// A method that a value of a type has.
fn select_method(
    context: &Context<'_>,
    alloc: Global,
    addressable: bool,
    term: &Term,
    sel: &Sel,
) -> Result<Option<Operand>, NoMemory>
    ensures { IfOk result (Gives (SelectsMethod (env_of context.now.env.now) sel.now addressable term.now)) }
{
    match has_method(context, alloc, addressable, term, sel)? {
        Some(signature) => Ok(Some(function_value(signature))),
        None => Ok(None),
    }
}

// The field that was found.
fn field_in(found: &Option<Found>) -> Option<&FieldFound>
    ensures { Gives (λ f. found.now ≡ Some (find.FieldAt f)) (item_of result) }
{
    match found {
        Some(Found::FieldAt(field)) => Some(field),
        _ => None,
    }
}

// A field of this type that was found through a pointer or not.
fn field_value(alloc: Global, addressable: bool, field: &FieldFound) -> Result<Operand, NoMemory>
    ensures { IfOk result (λ value. value ≡ value_of (reached (if field.now.through_pointer then true else addressable)) field.now.term) }
{
    let mode = reached(field.through_pointer || addressable);
    Ok(value_of(mode, field.term.copy(alloc)?))
}

// A field or method of a value of a type.
fn select_in(
    context: &Context<'_>,
    alloc: Global,
    addressable: bool,
    term: &Term,
    sel: &Sel,
) -> Result<Option<Operand>, NoMemory>
    ensures { IfOk result (Gives (SelectsIn (env_of context.now.env.now) sel.now addressable term.now)) }
{
    let answer = found(context, alloc, term, sel)?;
    if let Some(field) = field_in(&answer) {
        let value = field_value(alloc, addressable, field)?;
        return Ok(Some(value));
    }
    let method = select_method(context, alloc, addressable, term, sel)?;
    Ok(method)
}

/// What a selector makes of an operand: the field or method of a value, or a method of a type as a
/// function of its receiver. It is None exactly where the name is blank, or finds neither in the type.
pub fn select(
    context: &Context<'_>,
    alloc: Global,
    operand: &Operand,
    name: &[u8],
) -> Result<Option<Operand>, NoMemory>
    ensures { IfOk result (Gives (Selects (env_of context.now.env.now) name.now operand.now)) }
{
    if is_blank(name) {
        return Ok(None);
    }
    let sel = context.env.selector(name)?;
    if let Some(term) = type_in(operand) {
        let function = select_function(context, alloc, term, &sel)?;
        return Ok(function);
    }
    match type_of(operand) {
        Some(term) => {
            let answer = select_in(context, alloc, is_variable(operand.mode), term, &sel)?;
            Ok(answer)
        }
        None => Ok(None),
    }
}
