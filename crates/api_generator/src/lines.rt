//! The text of a package's files.
ghost use Rattle.std.specs.Prelude.{◌≡◌, ◌<◌, ◌++◌, codes, decimal, IfOk, OnOk};
ghost use Rattle.api_generator.specs.MadeTrees.{first_lines, head_lines, import_line, last_lines, method_line, new_file, old_file, type_lines, used_type};

use crate::draws::{draw, imported};
use go_base::memory::NoMemory;
use go_base::text::Text;
use itoa::Buffer;
use std::alloc::Global;

/// Appends a number in decimal.
pub(crate) fn push_number(out: &mut Vec<u8>, number: u64) -> Result<(), NoMemory>
    ensures { OnOk result (out.new.items ≡ out.old.items ++ decimal number) }
{
    let mut buffer = Buffer::new();
    out.extend_from_slice(buffer.format(number).as_bytes())?;
    Ok(())
}

// Appends the type that a package uses.
fn push_used_type(out: &mut Vec<u8>, seed: u64, number: u64) -> Result<(), NoMemory>
    requires { number < 2000 }
    ensures { OnOk result (out.new.items ≡ out.old.items ++ used_type seed number) }
{
    if number == 0 {
        out.extend_from_slice(b"int")?;
        return Ok(());
    }
    out.extend_from_slice(b"p")?;
    push_number(out, imported(seed, number))?;
    out.extend_from_slice(b".T")?;
    Ok(())
}

// Appends the line by which a package imports, where it does.
fn push_import(out: &mut Vec<u8>, seed: u64, number: u64) -> Result<(), NoMemory>
    requires { number < 2000 }
    ensures { OnOk result (out.new.items ≡ out.old.items ++ import_line seed number) }
{
    if number == 0 {
        return Ok(());
    }
    out.extend_from_slice(b"import \"g/p")?;
    push_number(out, imported(seed, number))?;
    out.extend_from_slice(b"\"\n")?;
    Ok(())
}

// Appends the lines above the type.
fn push_head(out: &mut Vec<u8>, seed: u64, number: u64) -> Result<(), NoMemory>
    requires { number < 2000 }
    ensures { OnOk result (out.new.items ≡ out.old.items ++ head_lines seed number) }
{
    out.extend_from_slice(b"package p")?;
    push_number(out, number)?;
    out.push(b'\n')?;
    push_import(out, seed, number)?;
    out.extend_from_slice(b"const C = ")?;
    push_number(out, number)?;
    out.push(b'\n')?;
    Ok(())
}

// Appends the type and its first method.
fn push_type(out: &mut Vec<u8>, seed: u64, number: u64) -> Result<(), NoMemory>
    requires { number < 2000 }
    ensures { OnOk result (out.new.items ≡ out.old.items ++ type_lines seed number) }
{
    out.extend_from_slice(b"type T struct { A ")?;
    push_used_type(out, seed, number)?;
    out.extend_from_slice(b"; B *")?;
    push_used_type(out, seed, number)?;
    out.extend_from_slice(b" }\nfunc (t T) M() int\n")?;
    Ok(())
}

// Appends the line of the second method.
fn push_method(out: &mut Vec<u8>, seed: u64, number: u64) -> Result<(), NoMemory>
    requires { number < 2000 }
    ensures { OnOk result (out.new.items ≡ out.old.items ++ method_line seed number) }
{
    out.extend_from_slice(b"func (t *T) N(x ")?;
    push_used_type(out, seed, number)?;
    out.extend_from_slice(b") ")?;
    push_used_type(out, seed, number)?;
    out.push(b'\n')?;
    Ok(())
}

fn first_lines(alloc: Global, seed: u64, number: u64) -> Result<Vec<u8>, NoMemory>
    requires { number < 2000 }
    ensures { IfOk result (λ lines. lines.items ≡ first_lines seed number) }
{
    let mut lines = Vec::new(alloc);
    push_head(&mut lines, seed, number)?;
    push_type(&mut lines, seed, number)?;
    Ok(lines)
}

// Appends the last lines of a new file, by the number drawn for them.
fn push_last(out: &mut Vec<u8>, seed: u64, number: u64, drawn: u64) -> Result<(), NoMemory>
    requires { number < 2000 }
    ensures { OnOk result (out.new.items ≡ out.old.items ++ last_lines seed number drawn) }
{
    if drawn == 3 {
        return Ok(());
    }
    push_method(out, seed, number)?;
    if drawn == 1 {
        out.extend_from_slice(b"func F()\n")?;
    }
    if drawn == 2 {
        out.extend_from_slice(b"var hidden int\n")?;
    }
    Ok(())
}

/// The old file of a package.
pub(crate) fn old_file(alloc: Global, seed: u64, number: u64) -> Result<Text, NoMemory>
    requires { number < 2000 }
    ensures { IfOk result (λ text. text ≡ old_file seed number) }
{
    let mut lines = first_lines(alloc, seed, number)?;
    push_method(&mut lines, seed, number)?;
    Text::from_vec(alloc, lines)
}

/// The new file of a package.
pub(crate) fn new_file(alloc: Global, seed: u64, number: u64) -> Result<Text, NoMemory>
    requires { number < 2000 }
    ensures { IfOk result (λ text. text ≡ new_file seed number) }
{
    let mut lines = first_lines(alloc, seed, number)?;
    push_last(&mut lines, seed, number, draw(seed, number, 2) % 4)?;
    Text::from_vec(alloc, lines)
}
