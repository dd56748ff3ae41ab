//! What predeclared names denote.
ghost use Rattle.std.specs.Prelude.{◌≡◌, IfOk};
ghost use Rattle.go_rules.specs.Operands.{builtin};
ghost use Rattle.go_rules.specs.Universe.{iota_operand, predeclared_operand, predeclared_type, type_operand};
ghost use Rattle.go_operations.specs.inner.Predeclared.{value_operand};

use crate::constants::untyped;
use go_base::memory::NoMemory;
use go_model::constants::value::{Untyped, Value};
use go_operators::operands::type_name;
use go_rules::operand::{Mode, Operand, Shape};
use go_rules::predeclared::Predeclared;
use go_type_terms::universe::predeclared_type;
use std::alloc::Global;

// The type that a predeclared name denotes.
fn predeclared_type_name(alloc: Global, name: Predeclared) -> Result<Option<Operand>, NoMemory>
    ensures { IfOk result (λ operand. operand ≡ type_operand (predeclared_type name)) }
{
    match predeclared_type(alloc, name)? {
        Some(term) => Ok(Some(type_name(term))),
        None => Ok(None),
    }
}

fn iota_operand(iota: Option<u64>) -> Option<Operand>
    ensures { result ≡ iota_operand iota }
{
    match iota {
        Some(place) => Some(untyped(Untyped::IntKind, Value::Int(i128::from(place)))),
        None => None,
    }
}

fn builtin(name: Predeclared) -> Operand
    ensures { result ≡ builtin name }
{
    Operand {
        mode: Mode::Builtin,
        shape: Shape::OfBuiltin(name),
    }
}

// What a predeclared name denotes that is no type.
fn value_operand(iota: Option<u64>, name: Predeclared) -> Option<Operand>
    ensures { result ≡ value_operand iota name }
{
    match name {
        Predeclared::True => Some(untyped(Untyped::BoolKind, Value::Truth(true))),
        Predeclared::False => Some(untyped(Untyped::BoolKind, Value::Truth(false))),
        Predeclared::Iota => iota_operand(iota),
        Predeclared::Nil => Some(Operand {
            mode: Mode::Nil,
            shape: Shape::Empty,
        }),
        Predeclared::Append => Some(builtin(Predeclared::Append)),
        Predeclared::Cap => Some(builtin(Predeclared::Cap)),
        Predeclared::Close => Some(builtin(Predeclared::Close)),
        Predeclared::Copy => Some(builtin(Predeclared::Copy)),
        Predeclared::Delete => Some(builtin(Predeclared::Delete)),
        Predeclared::Len => Some(builtin(Predeclared::Len)),
        Predeclared::Make => Some(builtin(Predeclared::Make)),
        Predeclared::New => Some(builtin(Predeclared::New)),
        Predeclared::Panic => Some(builtin(Predeclared::Panic)),
        Predeclared::Print => Some(builtin(Predeclared::Print)),
        Predeclared::Println => Some(builtin(Predeclared::Println)),
        Predeclared::Recover => Some(builtin(Predeclared::Recover)),
        _ => None,
    }
}

/// What a predeclared name denotes, where `iota` has this value or none; None where that is nothing.
pub(crate) fn predeclared_operand(
    alloc: Global,
    iota: Option<u64>,
    name: Predeclared,
) -> Result<Option<Operand>, NoMemory>
    ensures { IfOk result (λ operand. operand ≡ predeclared_operand iota name) }
{
    if let Some(operand) = value_operand(iota, name) {
        return Ok(Some(operand));
    }
    predeclared_type_name(alloc, name)
}
