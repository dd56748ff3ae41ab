//! Exact values as results of an operation on values of a kind.
ghost use Rattle.std.specs.Prelude.{◌≡◌, ◌++◌, IfOk, Some};
ghost use Rattle.std.specs.Option.{option_map};
ghost use Rattle.go_model.specs.constants.Constants.{kept};
ghost use Rattle.go_model.specs.declared.constants.value.Value.TheVariants as v;

use crate::representation::{MOST_BYTES, is_constant, is_of_kind};
use go_model::constants::value::{Kind, Value};
use go_model::go_base::memory::NoMemory;
use go_model::go_base::text::Text;
use std::alloc::Global;

/// The value, where it is a constant's and of the kind.
#[tactic(auto, unfolding(go_model::specs::constants::Constants::kept))]
fn result_of(value: Value, kind: Kind, bits: u32) -> Option<Value>
    ensures { result ≡ kept kind bits (Some value) }
{
    if is_constant(&value) && is_of_kind(&value, kind, bits) {
        Some(value)
    } else {
        None
    }
}

/// The number, where there is one and it is of the kind.
#[tactic(auto, unfolding(go_model::specs::constants::Constants::kept))]
pub fn number_result(number: Option<i128>, kind: Kind, bits: u32) -> Option<Value>
    ensures { result ≡ kept kind bits (option_map v.Int number) }
{
    result_of(Value::Int(number?), kind, bits)
}

/// The truth value, where there is one and it is of the kind.
#[tactic(auto, unfolding(go_model::specs::constants::Constants::kept))]
pub fn truth_result(truth: Option<bool>, kind: Kind, bits: u32) -> Option<Value>
    ensures { result ≡ kept kind bits (option_map v.Truth truth) }
{
    result_of(Value::Truth(truth?), kind, bits)
}

/// Two texts, one after the other.
fn joined(alloc: Global, left: &[u8], right: &[u8]) -> Result<Text, NoMemory>
    ensures { IfOk result (λ text. text ≡ left.now ++ right.now) }
{
    let mut bytes = Vec::from_slice(alloc, left)?;
    bytes.extend_from_slice(right)?;
    Text::from_vec(alloc, bytes)
}

/// Two texts, one after the other, where they are no longer than a constant's and of the kind.
#[tactic(auto, unfolding(go_model::specs::constants::Constants::kept))]
pub fn text_result(
    alloc: Global,
    left: &[u8],
    right: &[u8],
    kind: Kind,
    bits: u32,
) -> Result<Option<Value>, NoMemory>
    ensures { IfOk result (λ answer. answer ≡ kept kind bits (Some (v.Str (left.now ++ right.now)))) }
{
    if left.len() > MOST_BYTES || right.len() > MOST_BYTES - left.len() {
        return Ok(None);
    }
    Ok(result_of(Value::Str(joined(alloc, left, right)?), kind, bits))
}
