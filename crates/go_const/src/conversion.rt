//! Conversions of constants.
ghost use Rattle.std.specs.Prelude.{◌≡◌, IfOk};
ghost use Rattle.std.specs.Char.{encode_utf8};
ghost use Rattle.go_model.specs.constants.Constants.{as_text, character_of, converted};

use crate::representation::{is_constant, representable};
use go_model::constants::class::Class;
use go_model::constants::value::{Basic, Kind, Value};
use go_model::go_base::memory::NoMemory;
use go_model::go_base::text::Text;
use std::alloc::Global;

/// The character of that number, or U+FFFD where there is none.
fn character(number: i128) -> char
    ensures { result ≡ character_of number }
{
    match u32::try_from(number) {
        Ok(code) => match char::from_u32(code) {
            Some(found) => found,
            None => char::REPLACEMENT_CHARACTER,
        },
        Err(_) => char::REPLACEMENT_CHARACTER,
    }
}

/// The UTF-8 bytes of the character.
fn encoded(alloc: Global, character: char) -> Result<Text, NoMemory>
    ensures { IfOk result (λ text. text ≡ encode_utf8 character) }
{
    let mut buffer = [0; 4];
    Text::of(alloc, character.encode_utf8(&mut buffer).as_bytes())
}

/// A whole number of an integer class as the text of its character; None exactly of other values and
/// classes.
fn text_of(alloc: Global, value: &Value, from: Class, to: Class) -> Result<Option<Value>, NoMemory>
    ensures { IfOk result (λ answer. answer ≡ as_text value.now from to) }
{
    match (value, from, to) {
        (Value::Int(number), Class::Integer, Class::Str) => {
            Ok(Some(Value::Str(encoded(alloc, character(*number))?)))
        }
        _ => Ok(None),
    }
}

/// The value of one kind, converted to a type. For a constant's value of the kind it is None exactly
/// where the type is a float or complex one, or the value isn't representable in it and isn't a whole
/// number converted to a string type.
#[tactic(auto, unfolding(go_model::specs::constants::Constants::converted))]
pub fn convert(
    alloc: Global,
    value: &Value,
    from: Kind,
    to: Basic,
    bits: u32,
) -> Result<Option<Value>, NoMemory>
    ensures { IfOk result (λ answer. answer ≡ converted value.now from to bits) }
{
    if to.class().is_inexact() {
        return Ok(None);
    }
    if is_constant(value) && representable(value, to, bits) {
        return Ok(Some(value.copy(alloc)?));
    }
    text_of(alloc, value, from.class(), to.class())
}
