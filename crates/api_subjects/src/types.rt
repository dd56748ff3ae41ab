//! Types as text, each name behind the path of its package.
ghost use Rattle.std.specs.Prelude.{◌≡◌, [], ◌++◌, ◌&&◌, ◌==◌, codes, decimal, map, OnOk};
ghost use Rattle.api_features.specs.TypeTexts.{as_parameter, commas, interface_text, parameter_texts, result_text};
ghost use Rattle.api_subjects.specs.TypeTexts.{name_at, shown_type, struct_text, tag_text, type_text};
ghost use Rattle.api_subjects.specs.inner.Appended.{field_of, method_of, separated, signature_of};
ghost use Rattle.api_subjects.specs.inner.Quoting.{quoted};

use api_features::constants::push_quoted;
use api_features::types::{basic_text, direction_text};
use go_base::memory::NoMemory;
use go_model::types::term::{Field, Method, Signature, Term};
use itoa::Buffer;

/// Appends a name behind its path and a dot, or alone where the path is empty.
pub(crate) fn push_name(out: &mut Vec<u8>, path: &[u8], name: &[u8]) -> Result<(), NoMemory>
    ensures { OnOk result (out.new.items ≡ out.old.items ++ name_at path.now name.now) }
{
    if path.is_empty() {
        out.extend_from_slice(name)?;
        return Ok(());
    }
    out.extend_from_slice(path)?;
    out.push(b'.')?;
    out.extend_from_slice(name)?;
    Ok(())
}

fn push_length(out: &mut Vec<u8>, length: u64) -> Result<(), NoMemory>
    ensures { OnOk result (out.new.items ≡ out.old.items ++ (codes "[" ++ decimal length ++ codes "]")) }
{
    let mut buffer = Buffer::new();
    out.push(b'[')?;
    out.extend_from_slice(buffer.format(length).as_bytes())?;
    out.push(b']')?;
    Ok(())
}

fn push_tag(out: &mut Vec<u8>, tag: &[u8]) -> Result<(), NoMemory>
    ensures { OnOk result (out.new.items ≡ out.old.items ++ tag_text quoted tag.now) }
{
    if tag.is_empty() {
        return Ok(());
    }
    out.extend_from_slice(b" \"")?;
    push_quoted(out, tag)?;
    out.push(b'"')?;
    Ok(())
}

/// Appends a type.
#[cycle(types)]
pub(crate) fn push_type(out: &mut Vec<u8>, term: &Term) -> Result<(), NoMemory>
    ensures { OnOk result (out.new.items ≡ out.old.items ++ type_text quoted term.now) }
{
    match term {
        Term::Plain(basic) => {
            out.extend_from_slice(basic_text(*basic))?;
            Ok(())
        }
        Term::Named(name) => {
            push_name(out, name.path.bytes(), name.name.bytes())?;
            Ok(())
        }
        Term::Pointer(base) => {
            out.push(b'*')?;
            push_type(out, base.value())?;
            Ok(())
        }
        Term::Slice(element) => {
            out.extend_from_slice(b"[]")?;
            push_type(out, element.value())?;
            Ok(())
        }
        Term::Array(length, element) => {
            push_length(out, *length)?;
            push_type(out, element.value())?;
            Ok(())
        }
        Term::Map(key, element) => {
            out.extend_from_slice(b"map[")?;
            push_type(out, key.value())?;
            out.push(b']')?;
            push_type(out, element.value())?;
            Ok(())
        }
        Term::Chan(direction, element) => {
            out.extend_from_slice(direction_text(*direction))?;
            push_type(out, element.value())?;
            Ok(())
        }
        Term::Func(signature) => {
            out.extend_from_slice(b"func")?;
            push_signature(out, signature)?;
            Ok(())
        }
        Term::Struct(fields) => {
            push_struct(out, fields.items())?;
            Ok(())
        }
        Term::Interface(methods) => {
            push_interface(out, methods.items())?;
            Ok(())
        }
    }
}

#[cycle(types)]
fn push_field(out: &mut Vec<u8>, field: &Field) -> Result<(), NoMemory>
    ensures { OnOk result (out.new.items ≡ out.old.items ++ field_of field.now) }
{
    if field.embedded {
        push_type(out, &field.term)?;
        push_tag(out, field.tag.bytes())?;
        return Ok(());
    }
    out.extend_from_slice(field.sel.name.bytes())?;
    out.push(b' ')?;
    push_type(out, &field.term)?;
    push_tag(out, field.tag.bytes())?;
    Ok(())
}

// Appends fields with semicolons.
#[cycle(types)]
fn push_fields(out: &mut Vec<u8>, fields: &[Field]) -> Result<(), NoMemory>
    ensures { OnOk result (out.new.items ≡ out.old.items ++ separated (codes "; ") [] (map field_of fields.now)) }
{
    let mut separator: &[u8] = b"";
    for field in fields {
        out.extend_from_slice(separator)?;
        push_field(out, field)?;
        separator = b"; ";
    }
    Ok(())
}

#[cycle(types)]
fn push_struct(out: &mut Vec<u8>, fields: &[Field]) -> Result<(), NoMemory>
    ensures { OnOk result (out.new.items ≡ out.old.items ++ struct_text (map field_of fields.now)) }
{
    if fields.is_empty() {
        out.extend_from_slice(b"struct{}")?;
        return Ok(());
    }
    out.extend_from_slice(b"struct{ ")?;
    push_fields(out, fields)?;
    out.extend_from_slice(b" }")?;
    Ok(())
}

#[cycle(types)]
fn push_method(out: &mut Vec<u8>, method: &Method) -> Result<(), NoMemory>
    ensures { OnOk result (out.new.items ≡ out.old.items ++ method_of method.now) }
{
    out.extend_from_slice(method.sel.name.bytes())?;
    push_signature(out, &method.signature)?;
    Ok(())
}

// Appends methods with commas.
#[cycle(types)]
fn push_methods(out: &mut Vec<u8>, methods: &[Method]) -> Result<(), NoMemory>
    ensures { OnOk result (out.new.items ≡ out.old.items ++ commas (map method_of methods.now)) }
{
    let mut separator: &[u8] = b"";
    for method in methods {
        out.extend_from_slice(separator)?;
        push_method(out, method)?;
        separator = b", ";
    }
    Ok(())
}

#[cycle(types)]
fn push_interface(out: &mut Vec<u8>, methods: &[Method]) -> Result<(), NoMemory>
    ensures { OnOk result (out.new.items ≡ out.old.items ++ interface_text (map method_of methods.now)) }
{
    if methods.is_empty() {
        out.extend_from_slice(b"interface{}")?;
        return Ok(());
    }
    out.extend_from_slice(b"interface{ ")?;
    push_methods(out, methods)?;
    out.extend_from_slice(b" }")?;
    Ok(())
}

// Appends what stands for the last parameter of a variadic signature: `...` and the type of an argument.
#[cycle(types)]
fn push_spread(out: &mut Vec<u8>, term: &Term) -> Result<(), NoMemory>
    ensures { OnOk result (out.new.items ≡ out.old.items ++ (shown_type quoted term.now).spread) }
{
    out.extend_from_slice(b"...")?;
    match term {
        Term::Slice(element) => push_type(out, element.value()),
        _ => push_type(out, term),
    }
}

// Whether a parameter with so many behind it is the last one of a variadic signature.
fn is_last_of(variadic: bool, left: usize) -> bool
    ensures { result ≡ (variadic && (left == 0)) }
{
    variadic && left == 0
}

#[cycle(types)]
fn push_parameter(out: &mut Vec<u8>, term: &Term, is_spread: bool) -> Result<(), NoMemory>
    ensures { OnOk result (out.new.items ≡ out.old.items ++ as_parameter is_spread (shown_type quoted term.now)) }
{
    if is_spread {
        return push_spread(out, term);
    }
    push_type(out, term)
}

#[cycle(types)]
fn push_parameters(out: &mut Vec<u8>, terms: &[Term], variadic: bool) -> Result<(), NoMemory>
    ensures { OnOk result (out.new.items ≡ out.old.items ++ commas (parameter_texts (map (shown_type quoted) terms.now) variadic)) }
{
    let mut left = terms.len();
    let mut separator: &[u8] = b"";
    for term in terms {
        left -= 1;
        out.extend_from_slice(separator)?;
        push_parameter(out, term, is_last_of(variadic, left))?;
        separator = b", ";
    }
    Ok(())
}

// Appends types with commas.
#[cycle(types)]
fn push_types(out: &mut Vec<u8>, terms: &[Term]) -> Result<(), NoMemory>
    ensures { OnOk result (out.new.items ≡ out.old.items ++ commas (map (type_text quoted) terms.now)) }
{
    let mut separator: &[u8] = b"";
    for term in terms {
        out.extend_from_slice(separator)?;
        push_type(out, term)?;
        separator = b", ";
    }
    Ok(())
}

#[cycle(types)]
fn push_results(out: &mut Vec<u8>, terms: &[Term]) -> Result<(), NoMemory>
    ensures { OnOk result (out.new.items ≡ out.old.items ++ result_text (map (type_text quoted) terms.now)) }
{
    if terms.is_empty() {
        return Ok(());
    }
    if terms.len() == 1 {
        out.push(b' ')?;
        push_types(out, terms)?;
        return Ok(());
    }
    out.extend_from_slice(b" (")?;
    push_types(out, terms)?;
    out.push(b')')?;
    Ok(())
}

#[cycle(types)]
fn push_signature(out: &mut Vec<u8>, signature: &Signature) -> Result<(), NoMemory>
    ensures { OnOk result (out.new.items ≡ out.old.items ++ signature_of signature.now) }
{
    out.push(b'(')?;
    push_parameters(out, signature.params.items(), signature.variadic)?;
    out.push(b')')?;
    push_results(out, signature.results.items())?;
    Ok(())
}
