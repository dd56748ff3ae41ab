//! Calculates constants of Go. It reads an operation a line:
//!
//! ```text
//! unary OP KIND BITS VALUE           binary OP KIND BITS LEFT RIGHT      shift OP KIND BITS VALUE COUNT
//! compare OP LEFT RIGHT              representable TYPE BITS VALUE       convert KIND TYPE BITS VALUE
//! ```
//!
//! OP is as in Go; TYPE is the name of a basic type, and KIND such a name or `untyped-int`,
//! `untyped-rune`, `untyped-string` or `untyped-bool`; BITS is the size of `int`. A value is `int:` and a
//! decimal number, `text:` and the bytes in hexadecimal digits, or `truth:` and `true` or `false`; after
//! `*` and a decimal number, at most 65536, the bytes stand so many times. It prints the answer of each
//! line: a value, `none`, `true` or `false`; or `not an operation`. A text of more than 64 bytes that are
//! all the same has one of them and their count. A line that begins with `#` is printed as it is.
#![tactic(auto)]

mod answer;
mod words;

use anyhow::Result;

fn main(rt: HostRuntime) -> Result<()> {
    for line in rt.lines(rt.alloc()) {
        let line = line?;
        if line.starts_with('#') {
            println!(rt; "{line}")?;
            continue;
        }
        let answer = answer::answer(rt.alloc(), line.as_str())?;
        println!(rt; "{answer}")?;
    }
    Ok(())
}
