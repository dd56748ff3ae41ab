//! Conversions.
ghost use Rattle.std.specs.Prelude.{◌≡◌, IfOk, false, true};
ghost use Rattle.go_model.specs.types.Underlying.{under};
ghost use Rattle.go_rules.specs.Expressions.{Converts, is_composed, is_constant};
ghost use Rattle.go_rules.specs.Operands.{basic_term, constant_of, default_type};
ghost use Rattle.go_rules.specs.Scopes.{env_of};
ghost use Rattle.go_rules.specs.Usability.{DefaultHolds};
ghost use Rattle.go_usability.specs.go_selectors.Answers.{Decides};
ghost use Rattle.go_usability.specs.Answers.{Gives};
ghost use Rattle.go_operators.specs.inner.Conversions.{ConvertsExact, ConvertsInexact, ConvertsType};

use crate::levels::{basic_under, is_composed_under};
use crate::operands::{constant_with, plain_like, plain_where};
use crate::values::{constant_of, is_constant, is_nil, kind_of, loose_of, type_of};
use go_base::memory::NoMemory;
use go_model::constants::value::{Basic, Untyped, Value};
use go_model::types::package::ConstTerm;
use go_model::types::term::Term;
use go_rules::operand::Operand;
use go_usability::context::Context;
use go_usability::conversions::convertible;
use go_usability::go_const::conversion::convert;
use go_usability::go_const::representation::representable;
use go_usability::usable::usable;
use std::alloc::Global;

/// The type that a value of an untyped kind has where no other is wanted.
fn default_basic(kind: Untyped) -> Basic
    ensures { default_type kind ≡ basic_term result }
{
    match kind {
        Untyped::IntKind => Basic::Int,
        Untyped::RuneKind => Basic::Int32,
        Untyped::StrKind => Basic::Str,
        Untyped::BoolKind => Basic::Bool,
    }
}

/// Whether the default type of an untyped kind can hold a value.
pub fn default_holds(context: &Context<'_>, kind: Untyped, value: &Value) -> bool
    ensures { Decides result (DefaultHolds (env_of context.now.env.now) kind value.now) }
{
    representable(value, default_basic(kind), context.env.bits())
}

// A value of one type as one of another.
fn convert_type(
    context: &Context<'_>,
    alloc: Global,
    from: &Term,
    to: &Term,
) -> Result<Option<Operand>, NoMemory>
    ensures { IfOk result (Gives (ConvertsType (env_of context.now.env.now) from.now to.now)) }
{
    let may = convertible(context, alloc, from, to)?;
    let answer = plain_where(alloc, may, to)?;
    Ok(answer)
}

// A value of a kind that has no type as one of a type.
fn convert_default(
    context: &Context<'_>,
    alloc: Global,
    kind: Untyped,
    to: &Term,
) -> Result<Option<Operand>, NoMemory>
    ensures { IfOk result (Gives (ConvertsType (env_of context.now.env.now) (default_type kind) to.now)) }
{
    let from = Term::Plain(default_basic(kind));
    let answer = convert_type(context, alloc, &from, to)?;
    Ok(answer)
}

// A constant as a value of a basic type of inexact numbers, which is no constant.
fn convert_inexact(alloc: Global, value: &Value, to: &Term) -> Result<Option<Operand>, NoMemory>
    ensures { IfOk result (Gives (ConvertsInexact value.now to.now)) }
{
    match value {
        Value::Int(_) => {
            let answer = plain_like(alloc, to)?;
            Ok(Some(answer))
        }
        Value::Str(_) => Ok(None),
        Value::Truth(_) => Ok(None),
    }
}

// A constant as a constant of a type with this basic type underneath.
fn convert_exact(
    context: &Context<'_>,
    alloc: Global,
    of: &ConstTerm,
    value: &Value,
    to: &Term,
    basic: Basic,
) -> Result<Option<Operand>, NoMemory>
    ensures { IfOk result (Gives (ConvertsExact (env_of context.now.env.now) of.now value.now to.now basic)) }
{
    let kind = match kind_of(context, of) {
        Some(kind) => kind,
        None => return Ok(None),
    };
    let converted = convert(alloc, value, kind, basic, context.env.bits())?;
    let copied = to.copy(alloc)?;
    Ok(constant_with(ConstTerm::OfTerm(copied), converted))
}

// A constant as a value of a type that is neither basic nor a name.
fn convert_composed(
    context: &Context<'_>,
    alloc: Global,
    of: &ConstTerm,
    value: &Value,
    to: &Term,
) -> Result<Option<Operand>, NoMemory>
    requires { is_composed (under (env_of context.now.env.now).table to.now) ≡ true }
    ensures { IfOk result (Gives (Converts (env_of context.now.env.now) (constant_of of.now value.now) to.now)) }
{
    match of {
        ConstTerm::OfTerm(from) => {
            let answer = convert_type(context, alloc, from, to)?;
            Ok(answer)
        }
        ConstTerm::OfKind(kind) => {
            if !default_holds(context, *kind, value) {
                return Ok(None);
            }
            let loose = convert_default(context, alloc, *kind, to)?;
            Ok(loose)
        }
    }
}

fn convert_constant(
    context: &Context<'_>,
    alloc: Global,
    of: &ConstTerm,
    value: &Value,
    to: &Term,
) -> Result<Option<Operand>, NoMemory>
    ensures { IfOk result (Gives (Converts (env_of context.now.env.now) (constant_of of.now value.now) to.now)) }
{
    if let Some(basic) = basic_under(context, to) {
        if basic.class().is_inexact() {
            let inexact = convert_inexact(alloc, value, to)?;
            return Ok(inexact);
        }
        let exact = convert_exact(context, alloc, of, value, to, basic)?;
        return Ok(exact);
    }
    if !is_composed_under(context, to) {
        return Ok(None);
    }
    convert_composed(context, alloc, of, value, to)
}

// A value that is no constant.
fn convert_value(
    context: &Context<'_>,
    alloc: Global,
    operand: &Operand,
    to: &Term,
) -> Result<Option<Operand>, NoMemory>
    requires { is_constant operand.now.mode ≡ false }
    ensures { IfOk result (Gives (Converts (env_of context.now.env.now) operand.now to.now)) }
{
    if is_nil(operand) {
        let may = usable(context, alloc, operand, to)?;
        let nil = plain_where(alloc, may, to)?;
        return Ok(nil);
    }
    if let Some(kind) = loose_of(operand) {
        let loose = convert_default(context, alloc, kind, to)?;
        return Ok(loose);
    }
    match type_of(operand) {
        Some(from) => {
            let answer = convert_type(context, alloc, from, to)?;
            Ok(answer)
        }
        None => Ok(None),
    }
}

/// The conversion of an operand to a type. A constant has a value in a basic type, or is a whole number and
/// the type one of floats or complex numbers; to another type its own type, or a default type that holds it,
/// is convertible; so is the type of another value; and `nil` may be used as a value of the type. Else it is
/// None.
pub fn conversion(
    context: &Context<'_>,
    alloc: Global,
    operand: &Operand,
    term: &Term,
) -> Result<Option<Operand>, NoMemory>
    ensures { IfOk result (Gives (Converts (env_of context.now.env.now) operand.now term.now)) }
{
    if let Some((of, value)) = constant_of(operand) {
        let answer = convert_constant(context, alloc, of, value, term)?;
        return Ok(answer);
    }
    if is_constant(operand.mode) {
        return Ok(None);
    }
    convert_value(context, alloc, operand, term)
}
