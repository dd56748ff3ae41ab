//! Reads Go sources on standard input and answers a question about each. A source is a frame: a line
//! with its length in bytes, at most 4194304, and then the bytes; or the question and the source on one line,
//! parted by `> `, where `\n`, `\r`, `\t`, `\\` and `\xHH` in the source stand for bytes. The answer is a line:
//!
//! ```text
//! (no words)      `ok` where the source is one of the grammar; `bad-token` and the offset at which no token
//!                 stands; or `syntax`
//! first N         the same of its first N tokens
//! value N WORD    the same where its token N, from 0, says `nothing`, `wide` or an integer
//! tree            its tree, where it has one
//! references      the names that its declarations refer to outside of bodies, where it has a tree
//! blocks          the blocks of its functions and function literals, in the order of their places, where it has a tree;
//!                 `no-blocks` where a body isn't one
//! ```
//!
//! Of a tree each part is a word and further parts in parentheses. A name has its offset after `@`, a text
//! is `text:` and hexadecimal digits, a body of a function its two offsets, and `-` is a part that isn't there.
//! A block and a statement have theirs behind the word.
//! A line that begins with `#` is printed as it is. Where the input isn't such frames it says so on standard
//! error and ends with status 2.
#![tactic(auto)]

mod blocks;
mod changed;
mod file;
mod question;
mod reading;
mod statement;
mod tree;

use crate::question::push_answer;
use frames::fault::Fault;
use frames::frame::read_frame;
use std::io;
use std::io::{BufReader, BufWriter, Write};
use std::process::ExitCode;

fn answer_all(rt: &HostRuntime) -> Result<(), Fault> {
    let mut input = BufReader::with_capacity(rt.alloc(), 65_536, rt.reader())?;
    let mut output = BufWriter::with_capacity(rt.alloc(), 65_536, io::writer(rt))?;
    for _ in 0..u64::MAX {
        let Some(frame) = read_frame(rt.alloc(), &mut input)? else {
            break;
        };
        let mut answer = Vec::new(rt.alloc());
        if frame.is_comment() {
            answer.extend_from_slice(&frame.words)?;
        } else {
            push_answer(rt.alloc(), &mut answer, &frame.words, &frame.source)?;
        }
        output.write_all(&answer)?;
        output.write_all(b"\n")?;
    }
    output.flush()?;
    Ok(())
}

fn main(rt: HostRuntime) -> ExitCode {
    match answer_all(&rt) {
        Ok(()) => ExitCode::SUCCESS,
        Err(fault) => {
            let _said = eprintln!(rt; "syntax: {fault}");
            ExitCode::from(fault.status())
        }
    }
}
