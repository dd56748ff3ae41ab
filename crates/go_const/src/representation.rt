//! Which values are representable in a type, and which are of a kind.
ghost use Rattle.std.specs.Prelude.{◌≡◌};
ghost use Rattle.go_model.specs.constants.Constants.{is_in_range, is_of, is_of_untyped, is_representable};

use crate::number::is_number;
use go_model::constants::class::Class;
use go_model::constants::value::{Basic, Kind, Untyped, Value};

/// The most bytes of a text that is a constant's.
pub const MOST_BYTES: usize = 65536;

/// Whether the value is a constant's, which a text of more bytes isn't.
pub fn is_constant(value: &Value) -> bool
    ensures { result ≡ is_in_range value.now }
{
    match value {
        Value::Int(number) => {
            // The prover knows that a number fits into 128 bits only where it is read.
            let _number = *number;
            true
        }
        Value::Str(text) => text.bytes().len() <= MOST_BYTES,
        Value::Truth(_) => true,
    }
}

/// Whether the value is representable in the type.
#[tactic(auto, unfolding(go_model::specs::constants::Constants::is_representable))]
pub fn representable(value: &Value, basic: Basic, bits: u32) -> bool
    ensures { result ≡ is_representable value.now basic bits }
{
    match value {
        Value::Int(number) => match basic.integer(bits) {
            Some(integer) => is_number(integer, *number),
            None => basic.class().is_inexact(),
        },
        Value::Str(_) => matches!(basic.class(), Class::Str),
        Value::Truth(_) => matches!(basic.class(), Class::Bool),
    }
}

/// Whether the value is of the untyped kind.
fn is_untyped(value: &Value, untyped: Untyped) -> bool
    ensures { result ≡ is_of_untyped value.now untyped }
{
    match value {
        Value::Int(_) => matches!(untyped, Untyped::IntKind | Untyped::RuneKind),
        Value::Str(_) => matches!(untyped, Untyped::StrKind),
        Value::Truth(_) => matches!(untyped, Untyped::BoolKind),
    }
}

/// Whether the value is of the kind.
#[tactic(auto, unfolding(go_model::specs::constants::Constants::is_of))]
pub fn is_of_kind(value: &Value, kind: Kind, bits: u32) -> bool
    ensures { result ≡ is_of value.now kind bits }
{
    match kind {
        Kind::Typed(basic) => !basic.class().is_inexact() && representable(value, basic, bits),
        Kind::Loose(untyped) => is_untyped(value, untyped),
    }
}
