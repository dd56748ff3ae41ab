//! Types as terms, after the Go specification's "Types": two of them are identical exactly where
//! they are equal.
ghost use Rattle.std.specs.Prelude.{◌≡◌, IfOk};
ghost use Rattle.go_model.specs.declared.types.term.Term.{out-Term};
ghost use Rattle.go_model.specs.types.Terms.{pointer_to, signature_of, slice_of};

use crate::constants::value::Basic;
use crate::types::names::{Sel, TypeName};
use go_base::list::List;
use go_base::memory::NoMemory;
use go_base::shared::Shared;
use go_base::text::Text;
use std::alloc::Global;

/// The direction of a channel type.
#[derive(Clone, Copy, Debug, PartialEq, Eq)]
pub enum Direction {
    /// `chan T`.
    Both,
    /// `chan<- T`.
    SendOnly,
    /// `<-chan T`.
    ReceiveOnly,
}

/// A type. The drops of these types are written out, so that a crate which gives one up makes a call and
/// proves none of them again.
#[cycle(term)]
pub enum Term {
    /// A predeclared type other than `error`.
    Plain(Basic),
    /// A defined type, or the predeclared `error`.
    Named(TypeName),
    Pointer(Shared<Term>),
    Slice(Shared<Term>),
    Array(u64, Shared<Term>),
    /// Key and element.
    Map(Shared<Term>, Shared<Term>),
    Chan(Direction, Shared<Term>),
    Func(Signature),
    Struct(Shared<List<Field>>),
    /// All methods, those of embedded interfaces among them, ordered by selector.
    Interface(Shared<List<Method>>),
}

impl Term {
    /// The signature of a function type, moved out; None of any other type.
    pub fn into_signature(self) -> Option<Signature>
        ensures { result ≡ signature_of (out-Term self) }
    {
        match self {
            Term::Func(signature) => Some(signature),
            Term::Plain(_) => None,
            Term::Named(_) => None,
            Term::Pointer(_) => None,
            Term::Slice(_) => None,
            Term::Array(_, _) => None,
            Term::Map(_, _) => None,
            Term::Chan(_, _) => None,
            Term::Struct(_) => None,
            Term::Interface(_) => None,
        }
    }
}

/// The pointer type to a type.
pub fn pointer_to(alloc: Global, base: &Term) -> Result<Term, NoMemory>
    ensures { IfOk result (λ pointer. pointer ≡ pointer_to base.now) }
{
    Ok(Term::Pointer(Shared::new(alloc, base.copy(alloc)?)?))
}

/// The slice type of an element.
pub fn slice_of(alloc: Global, element: &Term) -> Result<Term, NoMemory>
    ensures { IfOk result (λ slice. slice ≡ slice_of element.now) }
{
    Ok(Term::Slice(Shared::new(alloc, element.copy(alloc)?)?))
}

impl Drop for Term {
    #[cycle(term)]
    fn drop(self) {
        match self {
            Term::Plain(_) => {}
            Term::Named(_) => {}
            Term::Pointer(_) => {}
            Term::Slice(_) => {}
            Term::Array(_, _) => {}
            Term::Map(_, _) => {}
            Term::Chan(_, _) => {}
            Term::Func(_) => {}
            Term::Struct(_) => {}
            Term::Interface(_) => {}
        }
    }
}

/// A field of a struct type. A field without a tag has an empty one.
#[cycle(term)]
pub struct Field {
    pub sel: Sel,
    pub embedded: bool,
    pub term: Term,
    pub tag: Text,
}

impl Drop for Field {
    #[cycle(term)]
    fn drop(self) {
        let Field {
            sel: _,
            embedded: _,
            term: _,
            tag: _,
        } = self;
    }
}

/// A method of an interface type, or of a method set.
#[cycle(term)]
pub struct Method {
    pub sel: Sel,
    pub signature: Signature,
}

impl Drop for Method {
    #[cycle(term)]
    fn drop(self) {
        let Method {
            sel: _,
            signature: _,
        } = self;
    }
}

/// The parameters and results of a function type. The last parameter of a variadic one is the slice
/// of its arguments.
#[cycle(term)]
pub struct Signature {
    pub params: Shared<List<Term>>,
    pub variadic: bool,
    pub results: Shared<List<Term>>,
}

impl Drop for Signature {
    #[cycle(term)]
    fn drop(self) {
        let Signature {
            params: _,
            variadic: _,
            results: _,
        } = self;
    }
}
