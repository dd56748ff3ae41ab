//! `len` and `cap`.
ghost use Rattle.std.specs.Prelude.{◌≡◌, pos};
ghost use Rattle.go_model.specs.declared.constants.value.Value.TheVariants as v;
ghost use Rattle.go_model.specs.declared.types.term.Term.{out-Term};
ghost use Rattle.go_rules.specs.Expressions.{IsString, int_constant, measures};
ghost use Rattle.go_rules.specs.Scopes.{env_of};
ghost use Rattle.go_selectors.specs.Answers.{Decides};
ghost use Rattle.go_elements.specs.go_usability.Answers.{Gives};
ghost use Rattle.go_calls.specs.Builtins.{Measures};
ghost use Rattle.go_calls.specs.inner.Lengths.{IntWithin, MeasuresArray, MeasuresString, MeasuresTyped, MeasuresValue};

use go_elements::arrays::array_length;
use go_elements::go_const::representation::representable;
use go_elements::go_operators::operands::{constant, int_value, int_where};
use go_elements::go_operators::values::{is_constant, type_of};
use go_elements::go_usability::context::Context;
use go_elements::strings::string_length;
use go_model::constants::value::{Basic, Value};
use go_model::types::package::ConstTerm;
use go_model::types::term::Term;
use go_rules::operand::Operand;
use go_rules::predeclared::Predeclared;

fn whole(number: u64) -> Value
    ensures { result ≡ v.Int (pos number) }
{
    Value::Int(number as i128)
}

fn int_constant(number: u64) -> Operand
    ensures { result ≡ int_constant number }
{
    constant(ConstTerm::OfTerm(Term::Plain(Basic::Int)), whole(number))
}

// A number as a constant of type int, where it is representable.
fn int_within(context: &Context<'_>, number: u64) -> Option<Operand>
    ensures { Gives (IntWithin (env_of context.now.env.now) number) result }
{
    let value = whole(number);
    if representable(&value, Basic::Int, context.env.bits()) {
        Some(int_constant(number))
    } else {
        None
    }
}

// Whether an underlying type has a length, or a capacity, that no constant tells.
fn measures(function: Predeclared, under: &Term) -> bool
    ensures { result ≡ measures function (out-Term under.now) }
{
    match function {
        Predeclared::Len => matches!(
            under,
            Term::Slice(_) | Term::Map(_, _) | Term::Chan(_, _) | Term::Plain(Basic::Str)
        ),
        Predeclared::Cap => matches!(under, Term::Slice(_) | Term::Chan(_, _)),
        _ => false,
    }
}

fn measure_array(context: &Context<'_>, loud: bool, length: u64) -> Option<Operand>
    ensures { Gives (MeasuresArray (env_of context.now.env.now) loud length) result }
{
    if loud {
        return Some(int_value());
    }
    int_within(context, length)
}

fn measure_value(
    context: &Context<'_>,
    function: Predeclared,
    operand: &Operand,
    term: &Term,
) -> Option<Operand>
    ensures { Gives (MeasuresValue (env_of context.now.env.now) function operand.now.mode term.now) result }
{
    if is_constant(operand.mode) {
        return None;
    }
    int_where(measures(function, context.under(term)))
}

fn measure_typed(
    context: &Context<'_>,
    function: Predeclared,
    loud: bool,
    operand: &Operand,
    term: &Term,
) -> Option<Operand>
    ensures { Gives (MeasuresTyped (env_of context.now.env.now) function loud operand.now.mode term.now) result }
{
    match array_length(context, term) {
        Some(length) => measure_array(context, loud, length),
        None => measure_value(context, function, operand, term),
    }
}

fn is_len(function: Predeclared) -> bool
    ensures { Decides result (function ≡ Predeclared.Len) }
{
    matches!(function, Predeclared::Len)
}

// The length of a string that has this one, where it is constant.
fn constant_length(
    context: &Context<'_>,
    function: Predeclared,
    operand: &Operand,
    length: Option<u64>,
) -> Option<Operand>
    requires len { function ≡ Predeclared.Len }
    requires string { IsString (env_of context.now.env.now) operand.now length }
    ensures { Gives (MeasuresString (env_of context.now.env.now) function operand.now) result }
{
    match length {
        Some(length) => int_within(context, length),
        None => None,
    }
}

// The length of a constant string.
fn measure_string(
    context: &Context<'_>,
    function: Predeclared,
    operand: &Operand,
) -> Option<Operand>
    ensures { Gives (MeasuresString (env_of context.now.env.now) function operand.now) result }
{
    if !is_len(function) {
        return None;
    }
    match string_length(context, operand) {
        Some(length) => constant_length(context, function, operand, length),
        None => None,
    }
}

/// `len` or `cap` of an operand; None exactly where it has none, or a constant one isn't representable in
/// int.
pub(crate) fn measure(
    context: &Context<'_>,
    function: Predeclared,
    loud: bool,
    operand: &Operand,
) -> Option<Operand>
    ensures { Gives (Measures (env_of context.now.env.now) function loud operand.now) result }
{
    if let Some(length) = measure_string(context, function, operand) {
        return Some(length);
    }
    match type_of(operand) {
        Some(term) => measure_typed(context, function, loud, operand, term),
        None => None,
    }
}
