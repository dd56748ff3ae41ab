//! Types, each in a box, where giving it up is a call.
use go_base::list::List;
use go_base::memory::NoMemory;
use go_base::shared::Shared;
use go_base::text::Text;
use go_model::constants::value::Basic;
use go_model::types::names::{Sel, TypeName};
use go_model::types::term::{Direction, Field, Method, Signature, Term};
use std::alloc::Global;

/// A selector of an exported name.
pub(crate) fn exported(alloc: Global, name: &[u8]) -> Result<Sel, NoMemory> {
    Ok(Sel {
        name: Text::of(alloc, name)?,
        package: Text::of(alloc, b"")?,
    })
}

/// `int`.
pub(crate) fn int(alloc: Global) -> Result<Shared<Term>, NoMemory> {
    Shared::new(alloc, Term::Plain(Basic::Int))
}

/// The type of this name of `m/p`.
pub(crate) fn named(alloc: Global, name: &[u8]) -> Result<Shared<Term>, NoMemory> {
    let name = TypeName {
        path: Text::of(alloc, b"m/p")?,
        name: Text::of(alloc, name)?,
    };
    Shared::new(alloc, Term::Named(name))
}

/// `chan int`.
pub(crate) fn channel(alloc: Global) -> Result<Shared<Term>, NoMemory> {
    let element = int(alloc)?;
    Shared::new(alloc, Term::Chan(Direction::Both, element))
}

/// `interface{}`.
pub(crate) fn any(alloc: Global) -> Result<Shared<Term>, NoMemory> {
    Shared::new(
        alloc,
        Term::Interface(Shared::new(alloc, List::new(alloc))?),
    )
}

/// `func(int)`.
pub(crate) fn taking_int(alloc: Global) -> Result<Signature, NoMemory> {
    let mut params = List::new(alloc);
    params.push(int(alloc)?.value().copy(alloc)?)?;
    Ok(Signature {
        params: Shared::new(alloc, params)?,
        variadic: false,
        results: Shared::new(alloc, List::new(alloc))?,
    })
}

/// `interface{ M(int) }`.
fn with_method(alloc: Global) -> Result<Shared<Term>, NoMemory> {
    let mut methods = List::new(alloc);
    methods.push(Method {
        sel: exported(alloc, b"M")?,
        signature: taking_int(alloc)?,
    })?;
    Shared::new(alloc, Term::Interface(Shared::new(alloc, methods)?))
}

/// `map[int]*[3][]chan int`.
fn nested(alloc: Global) -> Result<Shared<Term>, NoMemory> {
    let slice = Shared::new(alloc, Term::Slice(channel(alloc)?))?;
    let array = Shared::new(alloc, Term::Array(3, slice))?;
    let pointer = Shared::new(alloc, Term::Pointer(array))?;
    let key = int(alloc)?;
    Shared::new(alloc, Term::Map(key, pointer))
}

/// A struct type with one field `X` of this type.
fn holding(alloc: Global, held: Shared<Term>) -> Result<Shared<Term>, NoMemory> {
    let mut fields = List::new(alloc);
    fields.push(Field {
        sel: exported(alloc, b"X")?,
        embedded: false,
        term: held.value().copy(alloc)?,
        tag: Text::of(alloc, b"tag")?,
    })?;
    Shared::new(alloc, Term::Struct(Shared::new(alloc, fields)?))
}

/// `struct { X int "tag" }`.
pub(crate) fn with_field(alloc: Global) -> Result<Shared<Term>, NoMemory> {
    holding(alloc, int(alloc)?)
}

/// A type in which every form of a type stands.
pub(crate) fn of_every_form(alloc: Global) -> Result<Shared<Term>, NoMemory> {
    let func = Shared::new(alloc, Term::Func(taking_int(alloc)?))?;
    let values = Shared::new(alloc, Term::Map(named(alloc, b"D")?, func))?;
    let methods = Shared::new(alloc, Term::Map(values, with_method(alloc)?))?;
    let whole = Shared::new(alloc, Term::Map(nested(alloc)?, methods))?;
    holding(alloc, whole)
}
