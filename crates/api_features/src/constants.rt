//! Values of constants as text.
ghost use Rattle.std.specs.Prelude.{◌≡◌, ◌<◌, ◌++◌, length, IfOk, OnOk};
ghost use Rattle.api_features.specs.ConstantTexts.{AppendsQuoted, AppendsValue, char_text, escape_letter, hex_2, hex_4, hex_8, hex_digit, plain_text, truth_text};
ghost use Rattle.api_features.specs.inner.Pushed.{AppendsPiece};

use go_base::characters::first_char;
use go_base::memory::NoMemory;
use go_model::constants::value::Value;
use itoa::Buffer;

fn hex_digit(n: u8) -> u8
    requires { n < 16 }
    ensures { result ≡ hex_digit n }
{
    if n < 10 { 48 + n } else { 87 + n }
}

#[tactic(auto, unfolding(crate::specs::ConstantTexts::hex_2))]
fn push_hex_2(out: &mut Vec<u8>, n: u32) -> Result<(), NoMemory>
    requires { n < 256 }
    ensures { OnOk result (out.new.items ≡ out.old.items ++ hex_2 n) }
{
    out.push(hex_digit((n / 16) as u8))?;
    out.push(hex_digit((n % 16) as u8))?;
    Ok(())
}

#[tactic(auto, unfolding(crate::specs::ConstantTexts::hex_4))]
fn push_hex_4(out: &mut Vec<u8>, n: u32) -> Result<(), NoMemory>
    requires { n < 65536 }
    ensures { OnOk result (out.new.items ≡ out.old.items ++ hex_4 n) }
{
    push_hex_2(out, n / 256)?;
    push_hex_2(out, n % 256)?;
    Ok(())
}

#[tactic(auto, unfolding(crate::specs::ConstantTexts::hex_8))]
fn push_hex_8(out: &mut Vec<u8>, n: u32) -> Result<(), NoMemory>
    ensures { OnOk result (out.new.items ≡ out.old.items ++ hex_8 n) }
{
    push_hex_4(out, n / 65536)?;
    push_hex_4(out, n % 65536)?;
    Ok(())
}

// A character as an escape with hexadecimal digits, or as it stands in ASCII.
#[tactic(auto, unfolding(crate::specs::ConstantTexts::plain_text))]
fn push_plain(out: &mut Vec<u8>, c: char) -> Result<(), NoMemory>
    ensures { OnOk result (out.new.items ≡ out.old.items ++ plain_text c) }
{
    let n = c as u32;
    if n < 32 || n == 127 {
        out.extend_from_slice(b"\\x")?;
        push_hex_2(out, n)?;
        return Ok(());
    }
    if n < 128 {
        out.push(n as u8)?;
        return Ok(());
    }
    if n < 65536 {
        out.extend_from_slice(b"\\u")?;
        push_hex_4(out, n)?;
        return Ok(());
    }
    out.extend_from_slice(b"\\U")?;
    push_hex_8(out, n)?;
    Ok(())
}

// The letter of an escape, or 0 where the character has none.
#[tactic(auto, unfolding(crate::specs::ConstantTexts::escape_letter))]
fn escape_letter(c: char) -> u8
    ensures { result ≡ escape_letter c }
{
    match c as u32 {
        34 => 34,
        92 => 92,
        7 => b'a',
        8 => b'b',
        12 => b'f',
        10 => b'n',
        13 => b'r',
        9 => b't',
        11 => b'v',
        _ => 0,
    }
}

#[tactic(auto, unfolding(crate::specs::ConstantTexts::char_text))]
fn push_char(out: &mut Vec<u8>, c: char) -> Result<(), NoMemory>
    ensures { OnOk result (out.new.items ≡ out.old.items ++ char_text c) }
{
    let letter = escape_letter(c);
    if letter == 0 {
        push_plain(out, c)?;
        return Ok(());
    }
    out.push(b'\\')?;
    out.push(letter)?;
    Ok(())
}

// Appends the first character of some bytes, or their first byte where they begin with none; tells how many bytes
// that were.
fn push_piece(out: &mut Vec<u8>, bytes: &[u8]) -> Result<usize, NoMemory>
    requires { 0 < length bytes.now }
    ensures { IfOk result (AppendsPiece bytes.now out.old.items out.new.items) }
{
    match first_char(bytes) {
        Some(c) => {
            push_char(out, c)?;
            Ok(c.len_utf8())
        }
        None => {
            let byte = bytes[0];
            out.extend_from_slice(b"\\x")?;
            push_hex_2(out, byte as u32)?;
            Ok(1)
        }
    }
}

/// Appends bytes as they stand between quotes.
pub fn push_quoted(out: &mut Vec<u8>, bytes: &[u8]) -> Result<(), NoMemory>
    ensures { OnOk result (AppendsQuoted bytes.now out.old.items out.new.items) }
{
    let mut at = 0;
    while at < bytes.len() {
        at += push_piece(out, &bytes[at..])?;
    }
    Ok(())
}

fn truth_text(truth: bool) -> &'static [u8]
    ensures { result.now ≡ truth_text truth }
{
    if truth { b"true" } else { b"false" }
}

/// Appends the text of a value.
pub fn push_value(out: &mut Vec<u8>, value: &Value) -> Result<(), NoMemory>
    ensures { OnOk result (AppendsValue value.now out.old.items out.new.items) }
{
    match value {
        Value::Int(number) => {
            let mut buffer = Buffer::new();
            out.extend_from_slice(buffer.format(*number).as_bytes())?;
            Ok(())
        }
        Value::Truth(truth) => {
            out.extend_from_slice(truth_text(*truth))?;
            Ok(())
        }
        Value::Str(text) => {
            out.push(b'"')?;
            push_quoted(out, text.bytes())?;
            out.push(b'"')?;
            Ok(())
        }
    }
}
