//! Bytes that tell types and pairs of types apart, so that a set of texts finds them by their bytes.
ghost use Rattle.std.specs.Prelude.{◌≡◌, ◌++◌, ◌∷◌, [], IfOk, OnOk, map};
ghost use Rattle.go_type_codes.specs.Codes.{code, code_of_text, code_of_list, code_of_number, code_of_flag, code_of_direction, code_of_basic, code_of_sel, code_of_field, code_of_method, code_of_signature, code_of_pair};

use go_base::memory::NoMemory;
use go_base::shared::Shared;
use go_base::text::Text;
use go_model::constants::value::Basic;
use go_model::types::names::{Sel, TypeName};
use go_model::types::term::{Direction, Field, Method, Signature, Term};
use go_type_images::pair::TypePair;
use std::alloc::Global;

fn put(out: &mut Vec<u8>, byte: u8) -> Result<(), NoMemory>
    ensures { OnOk result (out.new.items ≡ out.old.items ++ byte ∷ []) }
{
    out.push(byte)?;
    Ok(())
}

fn put_text(out: &mut Vec<u8>, text: &Text) -> Result<(), NoMemory>
    ensures { OnOk result (out.new.items ≡ out.old.items ++ code_of_text text.now) }
{
    let bytes = text.bytes();
    for byte in bytes {
        put(out, 1)?;
        put(out, *byte)?;
    }
    put(out, 0)
}

fn put_number(out: &mut Vec<u8>, number: u64) -> Result<(), NoMemory>
    ensures { OnOk result (out.new.items ≡ out.old.items ++ code_of_number number) }
{
    let mut rest = number;
    let mut left = 8u32;
    while left > 0 {
        put(out, (rest % 256) as u8)?;
        rest /= 256;
        left -= 1;
    }
    put(out, 0)?;
    Ok(())
}

fn flag_code(flag: bool) -> u8
    ensures { result ≡ code_of_flag flag }
{
    if flag { 1 } else { 0 }
}

fn direction_code(direction: Direction) -> u8
    ensures { result ≡ code_of_direction direction }
{
    match direction {
        Direction::Both => 0,
        Direction::SendOnly => 1,
        Direction::ReceiveOnly => 2,
    }
}

fn basic_code(basic: Basic) -> u8
    ensures { result ≡ code_of_basic basic }
{
    match basic {
        Basic::Bool => 0,
        Basic::Int => 1,
        Basic::Int8 => 2,
        Basic::Int16 => 3,
        Basic::Int32 => 4,
        Basic::Int64 => 5,
        Basic::Uint => 6,
        Basic::Uint8 => 7,
        Basic::Uint16 => 8,
        Basic::Uint32 => 9,
        Basic::Uint64 => 10,
        Basic::Uintptr => 11,
        Basic::Float32 => 12,
        Basic::Float64 => 13,
        Basic::Complex64 => 14,
        Basic::Complex128 => 15,
        Basic::Str => 16,
    }
}

fn put_name(out: &mut Vec<u8>, name: &TypeName) -> Result<(), NoMemory>
    ensures { OnOk result (out.new.items ≡ out.old.items ++ (code_of_text name.now.path ++ code_of_text name.now.name)) }
{
    put_text(out, &name.path)?;
    put_text(out, &name.name)
}

fn put_sel(out: &mut Vec<u8>, sel: &Sel) -> Result<(), NoMemory>
    ensures { OnOk result (out.new.items ≡ out.old.items ++ code_of_sel sel.now) }
{
    put_text(out, &sel.name)?;
    put_text(out, &sel.package)
}

#[cycle(codes)]
fn put_term(out: &mut Vec<u8>, term: &Term) -> Result<(), NoMemory>
    ensures { OnOk result (out.new.items ≡ out.old.items ++ code term.now) }
{
    match term {
        Term::Plain(basic) => {
            put(out, 0)?;
            put(out, basic_code(*basic))?;
            Ok(())
        }
        Term::Named(name) => {
            put(out, 1)?;
            put_name(out, name)?;
            Ok(())
        }
        Term::Pointer(base) => {
            put(out, 2)?;
            put_boxed(out, base)?;
            Ok(())
        }
        Term::Slice(element) => {
            put(out, 3)?;
            put_boxed(out, element)?;
            Ok(())
        }
        Term::Array(length, element) => {
            put(out, 4)?;
            put_number(out, *length)?;
            put_boxed(out, element)?;
            Ok(())
        }
        Term::Map(key, element) => {
            put(out, 5)?;
            put_boxed(out, key)?;
            put_boxed(out, element)?;
            Ok(())
        }
        Term::Chan(direction, element) => {
            put(out, 6)?;
            put(out, direction_code(*direction))?;
            put_boxed(out, element)?;
            Ok(())
        }
        Term::Func(signature) => {
            put(out, 7)?;
            put_signature(out, signature)?;
            Ok(())
        }
        Term::Struct(fields) => {
            put(out, 8)?;
            put_fields(out, fields.items())?;
            Ok(())
        }
        Term::Interface(methods) => {
            put(out, 9)?;
            put_methods(out, methods.items())?;
            Ok(())
        }
    }
}

#[cycle(codes)]
fn put_boxed(out: &mut Vec<u8>, term: &Shared<Term>) -> Result<(), NoMemory>
    ensures { OnOk result (out.new.items ≡ out.old.items ++ code term.now) }
{
    put_term(out, term.value())
}

#[cycle(codes)]
fn put_signature(out: &mut Vec<u8>, signature: &Signature) -> Result<(), NoMemory>
    ensures { OnOk result (out.new.items ≡ out.old.items ++ code_of_signature signature.now) }
{
    put(out, flag_code(signature.variadic))?;
    put_terms(out, signature.params.items())?;
    put_terms(out, signature.results.items())?;
    Ok(())
}

#[cycle(codes)]
fn put_terms(out: &mut Vec<u8>, terms: &[Term]) -> Result<(), NoMemory>
    ensures { OnOk result (out.new.items ≡ out.old.items ++ code_of_list (map code terms.now)) }
{
    for term in terms {
        put(out, 1)?;
        put_term(out, term)?;
    }
    put(out, 0)?;
    Ok(())
}

#[cycle(codes)]
fn put_field(out: &mut Vec<u8>, field: &Field) -> Result<(), NoMemory>
    ensures { OnOk result (out.new.items ≡ out.old.items ++ code_of_field field.now) }
{
    put_sel(out, &field.sel)?;
    put(out, flag_code(field.embedded))?;
    put_text(out, &field.tag)?;
    put_term(out, &field.term)?;
    Ok(())
}

#[cycle(codes)]
fn put_fields(out: &mut Vec<u8>, fields: &[Field]) -> Result<(), NoMemory>
    ensures { OnOk result (out.new.items ≡ out.old.items ++ code_of_list (map code_of_field fields.now)) }
{
    for field in fields {
        put(out, 1)?;
        put_field(out, field)?;
    }
    put(out, 0)?;
    Ok(())
}

#[cycle(codes)]
fn put_method(out: &mut Vec<u8>, method: &Method) -> Result<(), NoMemory>
    ensures { OnOk result (out.new.items ≡ out.old.items ++ code_of_method method.now) }
{
    put_sel(out, &method.sel)?;
    put_signature(out, &method.signature)?;
    Ok(())
}

#[cycle(codes)]
fn put_methods(out: &mut Vec<u8>, methods: &[Method]) -> Result<(), NoMemory>
    ensures { OnOk result (out.new.items ≡ out.old.items ++ code_of_list (map code_of_method methods.now)) }
{
    for method in methods {
        put(out, 1)?;
        put_method(out, method)?;
    }
    put(out, 0)?;
    Ok(())
}

// Room for most codes.
fn room(alloc: Global) -> Result<Vec<u8>, NoMemory>
    ensures { IfOk result (λ room. room.items ≡ []) }
{
    Ok(Vec::with_capacity(alloc, 128)?)
}

/// The bytes that tell a type apart from every other one.
pub fn type_code(alloc: Global, term: &Term) -> Result<Text, NoMemory>
    ensures { IfOk result (λ text. text ≡ code term.now) }
{
    let mut out = room(alloc)?;
    put_term(&mut out, term)?;
    Text::from_vec(alloc, out)
}

/// The bytes that tell a pair of types apart from every other one.
pub fn pair_code(alloc: Global, pair: &TypePair) -> Result<Text, NoMemory>
    ensures { IfOk result (λ text. text ≡ code_of_pair pair.now) }
{
    let mut out = room(alloc)?;
    put_term(&mut out, &pair.old)?;
    put_term(&mut out, &pair.new)?;
    Text::from_vec(alloc, out)
}
