//! Types and signatures as text, in a package of a world.
ghost use Rattle.std.specs.Prelude.{◌≡◌, ◌++◌, ◌&&◌, ◌==◌, codes, decimal, map, OnOk};
ghost use Rattle.go_model.specs.types.Terms.{is_error};
ghost use Rattle.api_features.specs.TypeTexts.{as_parameter, basic_text, commas, constant_type, direction_text, interface_text, kind_text, name_of_method, name_text, parameter_texts, result_text, shown_type, signature_text, type_text};

use go_base::memory::NoMemory;
use go_model::constants::value::{Basic, Untyped};
use go_model::types::names::TypeName;
use go_model::types::package::ConstTerm;
use go_model::types::term::{Direction, Method, Signature, Term};
use go_model::types::world::World;
use itoa::Buffer;

/// The name of a basic type.
#[rattlefmt::skip]
pub fn basic_text(basic: Basic) -> &'static [u8]
    ensures { result.now ≡ basic_text basic }
{
    match basic {
        Basic::Bool       => b"bool",
        Basic::Int        => b"int",
        Basic::Int8       => b"int8",
        Basic::Int16      => b"int16",
        Basic::Int32      => b"int32",
        Basic::Int64      => b"int64",
        Basic::Uint       => b"uint",
        Basic::Uint8      => b"uint8",
        Basic::Uint16     => b"uint16",
        Basic::Uint32     => b"uint32",
        Basic::Uint64     => b"uint64",
        Basic::Uintptr    => b"uintptr",
        Basic::Float32    => b"float32",
        Basic::Float64    => b"float64",
        Basic::Complex64  => b"complex64",
        Basic::Complex128 => b"complex128",
        Basic::Str        => b"string",
    }
}

/// How a channel type of a direction begins.
pub fn direction_text(direction: Direction) -> &'static [u8]
    ensures { result.now ≡ direction_text direction }
{
    match direction {
        Direction::Both => b"chan ",
        Direction::SendOnly => b"chan<- ",
        Direction::ReceiveOnly => b"<-chan ",
    }
}

fn kind_text(kind: Untyped) -> &'static [u8]
    ensures { result.now ≡ kind_text kind }
{
    match kind {
        Untyped::IntKind => b"ideal-int",
        Untyped::RuneKind => b"ideal-char",
        Untyped::StrKind => b"ideal-string",
        Untyped::BoolKind => b"ideal-bool",
    }
}

fn is_error(name: &TypeName) -> bool
    ensures { result ≡ is_error name.now }
{
    name.path.bytes() == b"".as_slice() && name.name.bytes() == b"error".as_slice()
}

fn push_name(out: &mut Vec<u8>, name: &TypeName, world: &World, path: &[u8]) -> Result<(), NoMemory>
    ensures { OnOk result (out.new.items ≡ out.old.items ++ name_text world.now.packages path.now name.now) }
{
    if is_error(name) {
        out.extend_from_slice(b"error")?;
        return Ok(());
    }
    if name.path.bytes() == path {
        out.extend_from_slice(name.name.bytes())?;
        return Ok(());
    }
    match world.package(name.path.bytes()) {
        None => {
            out.extend_from_slice(name.name.bytes())?;
            Ok(())
        }
        Some(found) => {
            out.extend_from_slice(found.name.bytes())?;
            out.push(b'.')?;
            out.extend_from_slice(name.name.bytes())?;
            Ok(())
        }
    }
}

// Appends the names of methods with commas.
pub(crate) fn push_names(out: &mut Vec<u8>, methods: &[Method]) -> Result<(), NoMemory>
    ensures { OnOk result (out.new.items ≡ out.old.items ++ commas (map name_of_method methods.now)) }
{
    let mut separator: &[u8] = b"";
    for method in methods {
        out.extend_from_slice(separator)?;
        out.extend_from_slice(method.sel.name.bytes())?;
        separator = b", ";
    }
    Ok(())
}

// Appends an interface type with these methods.
fn push_interface(out: &mut Vec<u8>, methods: &[Method]) -> Result<(), NoMemory>
    ensures { OnOk result (out.new.items ≡ out.old.items ++ interface_text (map name_of_method methods.now)) }
{
    if methods.is_empty() {
        out.extend_from_slice(b"interface{}")?;
        return Ok(());
    }
    out.extend_from_slice(b"interface{ ")?;
    push_names(out, methods)?;
    out.extend_from_slice(b" }")?;
    Ok(())
}

fn push_length(out: &mut Vec<u8>, length: u64) -> Result<(), NoMemory>
    ensures { OnOk result (out.new.items ≡ out.old.items ++ (codes "[" ++ decimal length ++ codes "]")) }
{
    let mut buffer = Buffer::new();
    out.push(b'[')?;
    out.extend_from_slice(buffer.format(length).as_bytes())?;
    out.push(b']')?;
    Ok(())
}

/// Appends a type.
#[cycle(types)]
pub(crate) fn push_type(
    out: &mut Vec<u8>,
    term: &Term,
    world: &World,
    path: &[u8],
) -> Result<(), NoMemory>
    ensures { OnOk result (out.new.items ≡ out.old.items ++ type_text world.now.packages path.now term.now) }
{
    match term {
        Term::Plain(basic) => {
            out.extend_from_slice(basic_text(*basic))?;
            Ok(())
        }
        Term::Named(name) => {
            push_name(out, name, world, path)?;
            Ok(())
        }
        Term::Pointer(base) => {
            out.push(b'*')?;
            push_type(out, base.value(), world, path)?;
            Ok(())
        }
        Term::Slice(element) => {
            out.extend_from_slice(b"[]")?;
            push_type(out, element.value(), world, path)?;
            Ok(())
        }
        Term::Array(length, element) => {
            push_length(out, *length)?;
            push_type(out, element.value(), world, path)?;
            Ok(())
        }
        Term::Map(key, element) => {
            out.extend_from_slice(b"map[")?;
            push_type(out, key.value(), world, path)?;
            out.push(b']')?;
            push_type(out, element.value(), world, path)?;
            Ok(())
        }
        Term::Chan(direction, element) => {
            out.extend_from_slice(direction_text(*direction))?;
            push_type(out, element.value(), world, path)?;
            Ok(())
        }
        Term::Func(signature) => {
            out.extend_from_slice(b"func")?;
            push_signature(out, signature, world, path)?;
            Ok(())
        }
        Term::Struct(_) => {
            out.extend_from_slice(b"struct")?;
            Ok(())
        }
        Term::Interface(methods) => {
            push_interface(out, methods.items())?;
            Ok(())
        }
    }
}

// Appends a type behind three dots.
#[cycle(types)]
fn push_dotted(out: &mut Vec<u8>, term: &Term, world: &World, path: &[u8]) -> Result<(), NoMemory>
    ensures { OnOk result (out.new.items ≡ out.old.items ++ (codes "..." ++ type_text world.now.packages path.now term.now)) }
{
    out.extend_from_slice(b"...")?;
    push_type(out, term, world, path)?;
    Ok(())
}

// Appends the last parameter of a variadic signature.
#[cycle(types)]
fn push_spread(out: &mut Vec<u8>, term: &Term, world: &World, path: &[u8]) -> Result<(), NoMemory>
    ensures { OnOk result (out.new.items ≡ out.old.items ++ (shown_type world.now.packages path.now term.now).spread) }
{
    match term {
        Term::Slice(element) => push_dotted(out, element.value(), world, path),
        Term::Plain(_) => push_dotted(out, term, world, path),
        Term::Named(_) => push_dotted(out, term, world, path),
        Term::Pointer(_) => push_dotted(out, term, world, path),
        Term::Array(_, _) => push_dotted(out, term, world, path),
        Term::Map(_, _) => push_dotted(out, term, world, path),
        Term::Chan(_, _) => push_dotted(out, term, world, path),
        Term::Func(_) => push_dotted(out, term, world, path),
        Term::Struct(_) => push_dotted(out, term, world, path),
        Term::Interface(_) => push_dotted(out, term, world, path),
    }
}

// Whether a parameter with so many behind it is the last one of a variadic signature.
fn is_last_of(variadic: bool, left: usize) -> bool
    ensures { result ≡ (variadic && (left == 0)) }
{
    variadic && left == 0
}

#[cycle(types)]
fn push_parameter(
    out: &mut Vec<u8>,
    term: &Term,
    is_spread: bool,
    world: &World,
    path: &[u8],
) -> Result<(), NoMemory>
    ensures { OnOk result (out.new.items ≡ out.old.items ++ as_parameter is_spread (shown_type world.now.packages path.now term.now)) }
{
    if is_spread {
        return push_spread(out, term, world, path);
    }
    push_type(out, term, world, path)
}

#[cycle(types)]
fn push_parameters(
    out: &mut Vec<u8>,
    terms: &[Term],
    variadic: bool,
    world: &World,
    path: &[u8],
) -> Result<(), NoMemory>
    ensures { OnOk result (out.new.items ≡ out.old.items ++ commas (parameter_texts (map (shown_type world.now.packages path.now) terms.now) variadic)) }
{
    let mut left = terms.len();
    let mut separator: &[u8] = b"";
    for term in terms {
        left -= 1;
        out.extend_from_slice(separator)?;
        push_parameter(out, term, is_last_of(variadic, left), world, path)?;
        separator = b", ";
    }
    Ok(())
}

#[cycle(types)]
fn push_types(out: &mut Vec<u8>, terms: &[Term], world: &World, path: &[u8]) -> Result<(), NoMemory>
    ensures { OnOk result (out.new.items ≡ out.old.items ++ commas (map (type_text world.now.packages path.now) terms.now)) }
{
    let mut separator: &[u8] = b"";
    for term in terms {
        out.extend_from_slice(separator)?;
        push_type(out, term, world, path)?;
        separator = b", ";
    }
    Ok(())
}

// Appends the results of a signature, in brackets where they are several.
#[cycle(types)]
fn push_results(
    out: &mut Vec<u8>,
    terms: &[Term],
    world: &World,
    path: &[u8],
) -> Result<(), NoMemory>
    ensures { OnOk result (out.new.items ≡ out.old.items ++ result_text (map (type_text world.now.packages path.now) terms.now)) }
{
    if terms.is_empty() {
        return Ok(());
    }
    if terms.len() == 1 {
        out.push(b' ')?;
        push_types(out, terms, world, path)?;
        return Ok(());
    }
    out.extend_from_slice(b" (")?;
    push_types(out, terms, world, path)?;
    out.push(b')')?;
    Ok(())
}

/// Appends the parameters and results of a signature.
#[cycle(types)]
pub(crate) fn push_signature(
    out: &mut Vec<u8>,
    signature: &Signature,
    world: &World,
    path: &[u8],
) -> Result<(), NoMemory>
    ensures { OnOk result (out.new.items ≡ out.old.items ++ signature_text world.now.packages path.now signature.now) }
{
    out.push(b'(')?;
    push_parameters(
        out,
        signature.params.items(),
        signature.variadic,
        world,
        path,
    )?;
    out.push(b')')?;
    push_results(out, signature.results.items(), world, path)?;
    Ok(())
}

/// Appends the type of a constant, or its kind.
pub fn push_constant_type(
    out: &mut Vec<u8>,
    term: &ConstTerm,
    world: &World,
    path: &[u8],
) -> Result<(), NoMemory>
    ensures { OnOk result (out.new.items ≡ out.old.items ++ constant_type world.now.packages path.now term.now) }
{
    match term {
        ConstTerm::OfTerm(term) => {
            push_type(out, term, world, path)?;
            Ok(())
        }
        ConstTerm::OfKind(kind) => {
            out.extend_from_slice(kind_text(*kind))?;
            Ok(())
        }
    }
}
