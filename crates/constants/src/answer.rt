//! An operation, and its answer.
use crate::words::{self, Refusal};
use go_const::comparison::compare_values;
use go_const::conversion::convert;
use go_const::operation::{binary, shift, unary};
use go_const::representation::representable;
use go_model::constants::value::Value;
use std::alloc::{AllocError, Global};

/// What an operation gives.
#[derive(Drop)]
enum Given {
    Of(Option<Value>),
    Told(Option<bool>),
}

fn shown_text(alloc: Global, bytes: &[u8]) -> Result<String, AllocError> {
    if let [first, rest @ ..] = bytes
        && rest.len() >= 64
        && rest.iter().all(|byte| byte == first)
    {
        return format!(in alloc; "text:{first:02x}*{}", bytes.len());
    }
    let digits = hex::encode(alloc, bytes)?;
    format!(in alloc; "text:{digits}")
}

fn shown_value(alloc: Global, value: &Value) -> Result<String, AllocError> {
    match value {
        Value::Int(number) => format!(in alloc; "int:{number}"),
        Value::Str(text) => shown_text(alloc, text.bytes()),
        Value::Truth(truth) => format!(in alloc; "truth:{truth}"),
    }
}

fn shown(alloc: Global, given: &Given) -> Result<String, AllocError> {
    match given {
        Given::Of(Some(value)) => shown_value(alloc, value),
        Given::Told(Some(truth)) => format!(in alloc; "{truth}"),
        Given::Of(None) | Given::Told(None) => format!(in alloc; "none"),
    }
}

fn unary_answer(
    alloc: Global,
    op: &str,
    kind: &str,
    bits: &str,
    value: &str,
) -> Result<Given, Refusal> {
    let found = unary(
        words::unary_op(op)?,
        &words::value(alloc, value)?,
        words::kind(kind)?,
        words::bits(bits)?,
    );
    Ok(Given::Of(found?))
}

fn binary_answer(
    alloc: Global,
    op: &str,
    kind: &str,
    bits: &str,
    left: &str,
    right: &str,
) -> Result<Given, Refusal> {
    let (left, right) = (words::value(alloc, left)?, words::value(alloc, right)?);
    let found = binary(
        alloc,
        words::binary_op(op)?,
        &left,
        &right,
        words::kind(kind)?,
        words::bits(bits)?,
    );
    Ok(Given::Of(found?))
}

fn shift_answer(
    alloc: Global,
    op: &str,
    kind: &str,
    bits: &str,
    value: &str,
    count: &str,
) -> Result<Given, Refusal> {
    let (value, count) = (words::value(alloc, value)?, words::value(alloc, count)?);
    Ok(Given::Of(shift(
        words::is_left(op)?,
        &value,
        &count,
        words::kind(kind)?,
        words::bits(bits)?,
    )))
}

fn compare_answer(alloc: Global, op: &str, left: &str, right: &str) -> Result<Given, Refusal> {
    let (left, right) = (words::value(alloc, left)?, words::value(alloc, right)?);
    Ok(Given::Told(compare_values(words::compare_op(op)?, &left, &right)))
}

fn representable_answer(
    alloc: Global,
    basic: &str,
    bits: &str,
    value: &str,
) -> Result<Given, Refusal> {
    let value = words::value(alloc, value)?;
    Ok(Given::Told(Some(representable(&value, words::basic(basic)?, words::bits(bits)?))))
}

fn convert_answer(
    alloc: Global,
    from: &str,
    to: &str,
    bits: &str,
    value: &str,
) -> Result<Given, Refusal> {
    let value = words::value(alloc, value)?;
    let found = convert(
        alloc,
        &value,
        words::kind(from)?,
        words::basic(to)?,
        words::bits(bits)?,
    );
    Ok(Given::Of(found?))
}

fn found(alloc: Global, parts: &[&str]) -> Result<Given, Refusal> {
    match parts {
        ["unary", op, kind, bits, value] => unary_answer(alloc, op, kind, bits, value),
        ["binary", op, kind, bits, left, right] => binary_answer(
            alloc, op, kind, bits, left, right,
        ),
        ["shift", op, kind, bits, value, count] => shift_answer(
            alloc, op, kind, bits, value, count,
        ),
        ["compare", op, left, right] => compare_answer(alloc, op, left, right),
        ["representable", basic, bits, value] => representable_answer(alloc, basic, bits, value),
        ["convert", from, to, bits, value] => convert_answer(alloc, from, to, bits, value),
        _ => Err(Refusal::NotAnOperation),
    }
}

/// The answer to a line of input.
pub fn answer(alloc: Global, line: &str) -> Result<String, AllocError> {
    let mut parts = Vec::new(alloc);
    for part in line.split(' ') {
        parts.push(part)?;
    }
    match found(alloc, &parts) {
        Ok(given) => shown(alloc, &given),
        Err(Refusal::NotAnOperation) => format!(in alloc; "not an operation"),
        Err(Refusal::NoMemory) => Err(AllocError),
    }
}
