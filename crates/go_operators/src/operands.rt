//! Operands, by what they denote.
ghost use Rattle.std.specs.Prelude.{◌≡◌, IfOk, None, Some, if◌then◌else◌};
ghost use Rattle.std.specs.Option.{option_map};
ghost use Rattle.go_model.specs.declared.constants.value.Basic.TheVariants as basic;
ghost use Rattle.go_model.specs.declared.constants.value.Untyped.TheVariants as untyped;
ghost use Rattle.go_model.specs.declared.constants.value.Value.TheVariants as v;
ghost use Rattle.go_model.specs.declared.types.package.ConstTerm.TheVariants as constant;
ghost use Rattle.go_rules.specs.Operands.{basic_term, computed, constant_of, loose, no_value, plain, type_name, value_of, variable};

use go_base::memory::NoMemory;
use go_model::constants::value::{Basic, Untyped, Value};
use go_model::types::package::ConstTerm;
use go_model::types::term::Term;
use go_rules::operand::{Mode, Operand, Shape};
use std::alloc::Global;

/// A value of a type, by its mode.
pub fn value_of(mode: Mode, term: Term) -> Operand
    ensures { result ≡ value_of mode term }
{
    Operand {
        mode,
        shape: Shape::Of(term),
    }
}

/// A value that is neither addressable nor an element of a map.
pub fn plain(term: Term) -> Operand
    ensures { result ≡ plain term }
{
    value_of(Mode::Plain, term)
}

/// An addressable value.
pub fn variable(term: Term) -> Operand
    ensures { result ≡ variable term }
{
    value_of(Mode::Variable, term)
}

/// A type.
pub fn type_name(term: Term) -> Operand
    ensures { result ≡ type_name term }
{
    value_of(Mode::TypeName, term)
}

/// A value of an untyped kind that isn't constant.
pub fn loose(kind: Untyped) -> Operand
    ensures { result ≡ loose kind }
{
    Operand {
        mode: Mode::Plain,
        shape: Shape::Loose(kind),
    }
}

/// The result of a computation of this type or kind that isn't constant.
pub fn computed(alloc: Global, term: &ConstTerm) -> Result<Operand, NoMemory>
    ensures { IfOk result (λ answer. answer ≡ computed term.now) }
{
    match term {
        ConstTerm::OfTerm(term) => plain_like(alloc, term),
        ConstTerm::OfKind(kind) => Ok(loose(*kind)),
    }
}

/// A constant.
pub fn constant(term: ConstTerm, value: Value) -> Operand
    ensures { result ≡ constant_of term value }
{
    Operand {
        mode: Mode::Constant,
        shape: Shape::Fixed(term, value),
    }
}

/// A truth value as an untyped constant.
pub fn truth(holds: bool) -> Operand
    ensures { result ≡ constant_of (constant.OfKind untyped.BoolKind) (v.Truth holds) }
{
    constant(ConstTerm::OfKind(Untyped::BoolKind), Value::Truth(holds))
}

/// A constant, where it has a value.
pub fn constant_with(term: ConstTerm, value: Option<Value>) -> Option<Operand>
    ensures { result ≡ option_map (constant_of term) value }
{
    match value {
        Some(value) => Some(constant(term, value)),
        None => None,
    }
}

/// A constant of an equal type or kind, where it has a value.
pub fn constant_like(
    alloc: Global,
    term: &ConstTerm,
    value: Option<Value>,
) -> Result<Option<Operand>, NoMemory>
    ensures { IfOk result (λ answer. answer ≡ option_map (constant_of term.now) value) }
{
    Ok(constant_with(term.copy(alloc)?, value))
}

/// A plain value of an equal type.
pub fn plain_like(alloc: Global, term: &Term) -> Result<Operand, NoMemory>
    ensures { IfOk result (λ answer. answer ≡ plain term.now) }
{
    Ok(plain(term.copy(alloc)?))
}

/// An addressable value of an equal type.
pub fn variable_like(alloc: Global, term: &Term) -> Result<Operand, NoMemory>
    ensures { IfOk result (λ answer. answer ≡ variable term.now) }
{
    Ok(variable(term.copy(alloc)?))
}

/// A call without results.
pub fn no_value() -> Operand
    ensures { result ≡ no_value }
{
    Operand {
        mode: Mode::NoValue,
        shape: Shape::Empty,
    }
}

/// A value of type int.
pub fn int_value() -> Operand
    ensures { result ≡ plain (basic_term basic.Int) }
{
    plain(Term::Plain(Basic::Int))
}

/// The result of a computation, where there is one.
pub fn computed_where(
    alloc: Global,
    holds: bool,
    term: &ConstTerm,
) -> Result<Option<Operand>, NoMemory>
    ensures { IfOk result (λ answer. answer ≡ (if holds then Some (computed term.now) else None)) }
{
    if holds {
        Ok(Some(computed(alloc, term)?))
    } else {
        Ok(None)
    }
}

/// A plain value of an equal type, where there is one.
pub fn plain_where(alloc: Global, holds: bool, term: &Term) -> Result<Option<Operand>, NoMemory>
    ensures { IfOk result (λ answer. answer ≡ (if holds then Some (plain term.now) else None)) }
{
    if holds {
        Ok(Some(plain_like(alloc, term)?))
    } else {
        Ok(None)
    }
}

/// A value of an equal type by its mode, where there is one.
pub fn value_where(
    alloc: Global,
    holds: bool,
    mode: Mode,
    term: &Term,
) -> Result<Option<Operand>, NoMemory>
    ensures { IfOk result (λ answer. answer ≡ (if holds then Some (value_of mode term.now) else None)) }
{
    if holds {
        Ok(Some(value_of(mode, term.copy(alloc)?)))
    } else {
        Ok(None)
    }
}

/// No value, where the call may stand.
pub fn nothing_where(holds: bool) -> Option<Operand>
    ensures { result ≡ (if holds then Some no_value else None) }
{
    if holds { Some(no_value()) } else { None }
}

/// A value of type int, where there is one.
pub fn int_where(holds: bool) -> Option<Operand>
    ensures { result ≡ (if holds then Some (plain (basic_term basic.Int)) else None) }
{
    if holds { Some(int_value()) } else { None }
}
