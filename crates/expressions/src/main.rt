//! Tells what expressions are. It reads packages, what is known where an expression stands, and an expression or
//! another question a line, and prints the answer of each question:
//!
//! ```text
//! package PATH NAME                a package of the world, whose objects follow in the order of their names
//! const NAME VALUE OF              var NAME TERM         func NAME TERM         alias NAME TERM
//! type NAME TERM {on-value:SELECTOR|on-pointer:SELECTOR TERM}..
//! end
//!
//! typed PATH 32|64 plain|profile   the package of the path, of which nothing is known, is typed from here on
//! import FILE NAME PATH            turn FILE
//! open                             close
//! local NAME TERM                  local-const NAME VALUE OF
//! define NAME TERM ..              a defined type as in `type`, which is declared already
//! announce NAME                    await NAME SELECTOR
//! iota NUMBER                      iota none
//!
//! means NAME                       expression TEXT      operand TEXT
//! ```
//!
//! `expression` asks what an expression is, and `operand` the same where all that is asked in it besides is met.
//! Outside of `package` and `end` the objects are of the package that is typed, in its innermost scope. Terms, OF and
//! VALUE are as the library `worlds` reads them. An answer is `untyped`, `no expression` where the text isn't one,
//! `no-value`, `type TERM`, `constant OF VALUE`, `variable TERM`, `value TERM`, `value untyped-bool`, `map-element TERM`,
//! `nil`, `builtin NAME` or `tuple TERM..`; of `means` also `nothing`, `import PATH` and `universe NAME`. `already`
//! stands where a scope or a file has the name, and nothing where a line that asks nothing is obeyed. A line that
//! begins with `#` is printed as it is. A wrong line ends it with status 2 and the line's number on standard error.
#![tactic(auto)]

mod answer;
mod operands;
mod place;
mod tree;
mod world;

use crate::answer::answer;
use crate::place::Place;
use crate::world::{Blocks, read_world};
use go_model::types::world::World;
use std::io;
use std::io::{BufWriter, Write};
use std::process::ExitCode;
use worlds::read::Stack;
use worlds::refusal::Refusal;

// Answers all lines, or gives the number of the first wrong one.
fn run(rt: &HostRuntime) -> anyhow::Result<Option<u64>> {
    let alloc = rt.alloc();
    let mut out = BufWriter::new(alloc, io::writer(rt))?;
    let text = io::read_to_string(alloc, rt.reader())?;
    let mut world = World::empty(alloc);
    if let Some(number) = read_world(alloc, &mut world, text.as_str())? {
        return Ok(Some(number));
    }
    let mut place = Place::new(alloc, &world)?;
    let mut stack = Stack::new(alloc);
    let mut blocks = Blocks::new();
    let mut number = 0u64;
    for line in text.lines() {
        number = number.saturating_add(1);
        if blocks.holds(line) {
            continue;
        }
        match answer(alloc, &world, &mut place, &mut stack, line) {
            Ok(bytes) => out.write_all(bytes.as_slice())?,
            Err(Refusal::WrongLine) => {
                out.flush()?;
                return Ok(Some(number));
            }
            Err(Refusal::NoMemory) => anyhow::bail!("out of memory"),
        }
    }
    out.flush()?;
    Ok(None)
}

fn main(rt: HostRuntime) -> ExitCode {
    match run(&rt) {
        Ok(None) => ExitCode::SUCCESS,
        Ok(Some(number)) => {
            let _ = eprintln!(rt; "line {number}: no declaration and no question");
            ExitCode::from(2)
        }
        Err(error) => {
            let _ = eprintln!(rt; "{error}");
            ExitCode::from(1)
        }
    }
}
