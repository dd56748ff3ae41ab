//! The module line of a file `go.mod`.
ghost use Rattle.std.specs.Prelude.{◌≡◌, ◌≤◌, ℕ, true, false, length, [], ◌∷◌, ◌++◌, IfSome, IfNone, List};
ghost use Rattle.std.specs.List.{prefix_len, list_all};
ghost use Rattle.go_model.specs.files.Trees.{IsModulePath};
ghost use Rattle.go_load.specs.GoMod.{is_visible, from_word, first_word, after_word, before_comment, is_module_line, module_lines, second_word, after_second, IsModuleOf};
ghost use Rattle.go_base.specs.Comments.{is_blank};
ghost use Rattle.go_load.specs.inner.Steps.{IsUnquoted, NamesModule};

use crate::error::LoadError;
use crate::names::{cut, is_module_path};
use go_base::text::Text;
use std::alloc::Global;

fn is_blank(byte: u8) -> bool
    ensures { result ≡ is_blank byte }
{
    byte == b' ' || byte == b'\t'
}

fn blank_length(line: &[u8]) -> usize
    ensures length { result ≡ prefix_len is_blank line.now }
    ensures within { result ≤ length line.now }
{
    line.iter().take_while(|byte| is_blank(**byte)).count()
}

fn from_word(line: &[u8]) -> &[u8]
    ensures { result.now ≡ from_word line.now }
{
    let (_, text) = line.split_at(blank_length(line));
    text
}

fn word_length(text: &[u8]) -> usize
    ensures length { result ≡ prefix_len is_visible text.now }
    ensures within { result ≤ length text.now }
{
    text.iter().take_while(|byte| !is_blank(**byte)).count()
}

/// The first word of a line, and what follows it.
fn split_word(line: &[u8]) -> (&[u8], &[u8])
    ensures word { result.0.now ≡ first_word line.now }
    ensures rest { result.1.now ≡ after_word line.now }
{
    let text = from_word(line);
    let length = word_length(text);
    text.split_at(length)
}

fn before_comment(line: &[u8]) -> &[u8]
    ensures { result.now ≡ before_comment line.now }
{
    for start in 0..line.len() {
        let (before, rest) = line.split_at(start);
        if rest.starts_with(b"//") {
            return before;
        }
    }
    line
}

fn is_module_line(line: &[u8]) -> bool
    ensures { result ≡ is_module_line line.now }
{
    let (word, _) = split_word(line);
    word == b"module".as_slice()
}

/// The first module line, and the lines after it.
fn next_module_line(bytes: &[u8]) -> Option<(&[u8], &[u8])>
    ensures some { IfSome result (λ found. module_lines bytes.now ≡ found.0.now ∷ module_lines found.1.now) }
    ensures none { IfNone result (module_lines bytes.now ≡ []) }
{
    let mut rest = bytes;
    while let Some((line, more)) = cut(rest, b'\n') {
        if is_module_line(line) {
            return Some((line, more));
        }
        rest = more;
    }
    if is_module_line(rest) {
        return Some((rest, b"".as_slice()));
    }
    None
}

/// The one module line, where there is exactly one.
fn module_line(bytes: &[u8]) -> Option<&[u8]>
    ensures some { IfSome result (λ line. module_lines bytes.now ≡ line.now ∷ []) }
    ensures none { IfNone result ((line : List ℕ) → module_lines bytes.now ≡ line ∷ [] → ⊥) }
{
    match next_module_line(bytes) {
        None => None,
        Some((line, more)) => match next_module_line(more) {
            None => Some(line),
            Some(_) => None,
        },
    }
}

/// The text between two quotes.
fn between<'a>(written: &'a [u8], quote: &[u8]) -> Option<&'a [u8]>
    ensures some { IfSome result (λ path. written.now ≡ quote.now ++ (path.now ++ quote.now)) }
    ensures none { IfNone result ((path : List ℕ) → written.now ≡ quote.now ++ (path ++ quote.now) → ⊥) }
{
    match written.strip_prefix(quote) {
        None => None,
        Some(rest) => match rest.strip_suffix(quote) {
            None => None,
            Some(path) => Some(path),
        },
    }
}

/// A path that is written bare or between quotes.
fn unquoted(written: &[u8]) -> &[u8]
    ensures { IsUnquoted written.now result.now }
{
    match between(written, b"\"") {
        Some(path) => path,
        None => match between(written, b"`") {
            Some(path) => path,
            None => written,
        },
    }
}

fn is_all_blank(text: &[u8]) -> bool
    ensures { result ≡ list_all is_blank text.now }
{
    text.iter().all(|byte| is_blank(*byte))
}

/// The word after a line's first one, where only blanks and a comment follow it.
fn argument(line: &[u8]) -> Option<&[u8]>
    ensures some { IfSome result (λ word. (word.now ≡ second_word line.now) × (list_all is_blank (after_second line.now) ≡ true)) }
    ensures none { IfNone result (list_all is_blank (after_second line.now) ≡ false) }
{
    let (_, rest) = split_word(line);
    let (word, tail) = split_word(before_comment(rest));
    if is_all_blank(tail) {
        return Some(word);
    }
    None
}

/// The path that a module line names.
fn named(line: &[u8]) -> Option<&[u8]>
    ensures some { IfSome result (λ path. NamesModule line.now path.now) }
    ensures none { IfNone result ((path : List ℕ) → NamesModule line.now path → ⊥) }
{
    match argument(line) {
        None => None,
        Some(written) => {
            let path = unquoted(written);
            if is_module_path(path) {
                return Some(path);
            }
            None
        }
    }
}

/// The path of the module that a `go.mod` names.
pub(crate) fn module_of(bytes: &[u8]) -> Option<&[u8]>
    ensures some { IfSome result (λ path. IsModuleOf bytes.now path.now) }
    ensures none { IfNone result ((path : List ℕ) → IsModuleOf bytes.now path → ⊥) }
{
    match module_line(bytes) {
        None => None,
        Some(line) => named(line),
    }
}
