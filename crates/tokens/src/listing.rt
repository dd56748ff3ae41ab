//! The lines that are printed of a source.
ghost use Rattle.std.specs.Prelude.{◌≤◌, length};

use frames::fault::Fault;
use go_lex::error::LexError;
use go_lex::scan::scan;
use go_syntax::token::{Token, TokenValue};
use std::alloc::Global;
use std::io::{BufWriter, Write};

/// Writes what a token says besides its kind, after a blank.
fn write_value<W: Write + Drop>(
    alloc: Global,
    output: &mut BufWriter<W>,
    value: &TokenValue,
) -> Result<(), Fault> {
    match value {
        TokenValue::Nothing => {}
        TokenValue::Ident(name) => {
            output.write_all(b" ")?;
            output.write_all(name.bytes())?;
        }
        TokenValue::Number(number) => write!(output, " {number}")?,
        TokenValue::Wide => write!(output, " wide")?,
        TokenValue::Rune(code) => write!(output, " {code}")?,
        TokenValue::Str(text) => {
            let digits = hex::encode(alloc, text.bytes())?;
            write!(output, " text:{digits}")?;
        }
    }
    Ok(())
}

fn write_token<W: Write + Drop>(
    alloc: Global,
    output: &mut BufWriter<W>,
    token: &Token,
) -> Result<(), Fault> {
    write!(output, "{:?} {} {}", token.kind, token.start, token.end)?;
    if token.inserted {
        output.write_all(b" inserted")?;
    }
    write_value(alloc, output, &token.value)?;
    output.write_all(b"\n")?;
    Ok(())
}

/// Writes the tokens a line each, or the place at which none stands.
pub fn write_listing<W: Write + Drop>(
    alloc: Global,
    output: &mut BufWriter<W>,
    source: &[u8],
) -> Result<(), Fault>
    requires { length source.now ≤ 4194304 }
{
    match scan(alloc, source) {
        Ok(tokens) => {
            for token in tokens.items() {
                write_token(alloc, output, token)?;
            }
            Ok(())
        }
        Err(LexError::BadToken(place)) => {
            writeln!(output, "bad {place}")?;
            Ok(())
        }
        Err(LexError::NoMemory) => Err(Fault::NoMemory),
    }
}
