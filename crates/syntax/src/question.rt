//! A question about a source, and its answer.
ghost use Rattle.std.specs.Prelude.{◌≤◌, length};

use crate::blocks::push_file_blocks;
use crate::changed::{Change, reading_of_changed};
use crate::file::push_file;
use crate::reading::{Reading, outline_of, reading_of};
use crate::tree::{push_name, push_word};
use frames::fault::Fault;
use go_lex::error::LexError;
use go_lex::scan::scan;
use go_references::references::decl_refs;
use go_syntax::declaration::{Decl, File};
use go_syntax::token::{Token, TokenValue};
use std::alloc::{AllocError, Global};

fn number(word: &str) -> Result<usize, Fault> {
    match word.parse::<usize>() {
        Ok(number) => Ok(number),
        Err(_) => Err(Fault::Frame),
    }
}

fn value(word: &str) -> Result<TokenValue, Fault> {
    match word {
        "nothing" => Ok(TokenValue::Nothing),
        "wide" => Ok(TokenValue::Wide),
        _ => match word.parse::<i128>() {
            Ok(number) => Ok(TokenValue::Number(number)),
            Err(_) => Err(Fault::Frame),
        },
    }
}

fn push_verdict(alloc: Global, out: &mut Vec<u8>, reading: &Reading) -> Result<(), AllocError> {
    match reading {
        Reading::Tree(_) => push_word(out, "ok"),
        Reading::BadToken(place) => {
            let text = format!(in alloc; "bad-token {place}")?;
            push_word(out, text.as_str())
        }
        Reading::Syntax => push_word(out, "syntax"),
    }
}

fn push_tree(alloc: Global, out: &mut Vec<u8>, reading: &Reading) -> Result<(), AllocError> {
    match reading {
        Reading::Tree(file) => push_file(alloc, out, file),
        _ => push_verdict(alloc, out, reading),
    }
}

fn push_decl_refs(alloc: Global, out: &mut Vec<u8>, decl: &Decl) -> Result<(), Fault> {
    let Ok(refs) = decl_refs(alloc, decl) else {
        return Err(Fault::NoMemory);
    };
    push_word(out, "(references")?;
    for name in refs.items() {
        push_name(alloc, out, name)?;
    }
    push_word(out, ")")?;
    Ok(())
}

fn push_file_refs(alloc: Global, out: &mut Vec<u8>, file: &File) -> Result<(), Fault> {
    for (at, decl) in file.decls.items().iter().enumerate() {
        push_word(out, if at == 0 { "" } else { " " })?;
        push_decl_refs(alloc, out, decl)?;
    }
    Ok(())
}

fn push_refs(alloc: Global, out: &mut Vec<u8>, reading: &Reading) -> Result<(), Fault> {
    match reading {
        Reading::Tree(file) => push_file_refs(alloc, out, file),
        _ => Ok(push_verdict(alloc, out, reading)?),
    }
}

fn push_blocks(alloc: Global, out: &mut Vec<u8>, tokens: &[Token]) -> Result<(), Fault> {
    match outline_of(alloc, tokens)? {
        Reading::Tree(file) => push_file_blocks(alloc, out, tokens, &file),
        other => Ok(push_verdict(alloc, out, &other)?),
    }
}

fn answer_blocks(alloc: Global, out: &mut Vec<u8>, source: &[u8]) -> Result<(), Fault>
    requires { length source.now ≤ 4194304 }
{
    match scan(alloc, source) {
        Ok(tokens) => push_blocks(alloc, out, tokens.items()),
        Err(LexError::BadToken(place)) => {
            Ok(push_verdict(alloc, out, &Reading::BadToken(place))?)
        }
        Err(LexError::NoMemory) => Err(Fault::NoMemory),
    }
}

fn answer_changed(
    alloc: Global,
    out: &mut Vec<u8>,
    source: &[u8],
    change: Change,
) -> Result<(), Fault>
    requires { length source.now ≤ 4194304 }
{
    let reading = reading_of_changed(alloc, source, change)?;
    push_verdict(alloc, out, &reading)?;
    Ok(())
}

fn answer_plain(alloc: Global, out: &mut Vec<u8>, source: &[u8], word: &str) -> Result<(), Fault>
    requires { length source.now ≤ 4194304 }
{
    if word == "blocks" {
        return answer_blocks(alloc, out, source);
    }
    let reading = reading_of(alloc, source)?;
    match word {
        "" => Ok(push_verdict(alloc, out, &reading)?),
        "tree" => Ok(push_tree(alloc, out, &reading)?),
        "references" => push_refs(alloc, out, &reading),
        _ => Err(Fault::Frame),
    }
}

/// Writes the answer to a question about a source.
pub fn push_answer(
    alloc: Global,
    out: &mut Vec<u8>,
    question: &[u8],
    source: &[u8],
) -> Result<(), Fault>
    requires { length source.now ≤ 4194304 }
{
    let Ok(text) = str::from_utf8(question) else {
        return Err(Fault::Frame);
    };
    match text.split_once(' ') {
        None => answer_plain(alloc, out, source, text),
        Some(("first", count)) => {
            answer_changed(alloc, out, source, Change::First(number(count)?))
        }
        Some(("value", rest)) => match rest.split_once(' ') {
            Some((at, word)) => {
                let change = Change::Value(number(at)?, value(word)?);
                answer_changed(alloc, out, source, change)
            }
            None => Err(Fault::Frame),
        },
        Some(_) => Err(Fault::Frame),
    }
}
