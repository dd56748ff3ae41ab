//! A table of types with the predeclared `error` before it.
ghost use Rattle.std.specs.Prelude.{◌≡◌, IfOk};
ghost use Rattle.go_model.specs.types.Tables.{entry_of};
ghost use Rattle.go_model.specs.types.DeclaredMethods.{TellsMethod, with_sel};
ghost use Rattle.go_model.specs.types.Terms.{is_error, error_type};
ghost use Rattle.go_model.specs.types.Underlying.{declared_methods, entry, under};
ghost use Rattle.go_model.specs.declared.types.term.Term.{out-Term};

use go_base::list::List;
use go_base::memory::NoMemory;
use go_base::shared::Shared;
use go_base::text::Text;
use go_model::constants::value::Basic;
use go_model::types::declared_method::DeclaredMethod;
use go_model::types::names::{Sel, TypeName};
use go_model::types::package::Defined;
use go_model::types::table::TypeTable;
use go_model::types::term::{Method, Signature, Term};
use std::alloc::Global;

fn is_error(name: &TypeName) -> bool
    ensures { result ≡ is_error name.now }
{
    name.path.bytes() == b"".as_slice() && name.name.bytes() == b"error".as_slice()
}

/// The predeclared `error`, for a [`Lookup`].
pub fn error_type(alloc: Global) -> Result<Defined, NoMemory>
    ensures { IfOk result (λ defined. defined ≡ error_type) }
{
    let mut results = List::new(alloc);
    results.push(Term::Plain(Basic::Str))?;
    let mut methods = List::new(alloc);
    methods.push(Method {
        sel: Sel {
            name: Text::of(alloc, b"Error")?,
            package: Text::of(alloc, b"")?,
        },
        signature: Signature {
            params: Shared::new(alloc, List::new(alloc))?,
            variadic: false,
            results: Shared::new(alloc, results)?,
        },
    })?;
    Ok(Defined {
        name: Text::of(alloc, b"error")?,
        underlying: Term::Interface(Shared::new(alloc, methods)?),
        methods: List::new(alloc),
    })
}

/// A table of types, and the predeclared `error`, made once for all questions.
#[derive(Drop)]
pub struct Lookup<'a, T> {
    pub table: &'a T,
    error: &'a Defined,
    ghost predeclared: { error.now ≡ error_type },
}

impl<'a, T: TypeTable> Lookup<'a, T> {
    /// A table with what [`error_type`] gave.
    pub fn new(table: &'a T, error: &'a Defined) -> Lookup<'a, T>
        requires { error.now ≡ error_type }
        ensures { result.table.now ≡ table.now }
    {
        Lookup { table, error }
    }

    /// The defined type of a name.
    pub(crate) fn entry(&self, name: &TypeName) -> Option<&'a Defined>
        ensures { entry_of result ≡ entry (T.lookup self.now.table.now) name.now }
    {
        if is_error(name) {
            return Some(self.error);
        }
        self.table.defined(name)
    }

    /// The declared method of a selector in a type itself, as far as the table tells it.
    pub(crate) fn declared(&self, term: &Term, sel: &Sel) -> DeclaredMethod<'a>
        ensures { TellsMethod (with_sel sel.now (declared_methods (T.lookup self.now.table.now) (out-Term term.now))) result }
    {
        if let Term::Named(name) = term {
            if !is_error(name) {
                return self.table.declared(name, sel);
            }
        }
        DeclaredMethod::Absent
    }

    /// The underlying type; a name without an entry has none but itself.
    pub fn under(&self, term: &'a Term) -> &'a Term
        ensures { out-Term result.now ≡ under (T.lookup self.now.table.now) term.now }
    {
        match term {
            Term::Named(name) => match self.entry(name) {
                Some(defined) => &defined.underlying,
                None => term,
            },
            _ => term,
        }
    }
}
