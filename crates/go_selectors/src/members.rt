//! What stands in a type itself: its fields and methods.
ghost use Rattle.std.specs.Prelude.{◌≡◌};
ghost use Rattle.go_model.specs.types.Underlying.{under, fields_of, methods_of, declared_methods};
ghost use Rattle.go_model.specs.types.Selectors.{base_of, is_pointer, name_of};
ghost use Rattle.go_model.specs.declared.types.term.Term.{out-Term};
ghost use Rattle.go_selectors.specs.Endings.{owner_of};

use crate::lookup::Lookup;
use go_model::types::names::TypeName;
use go_model::types::package::MethodOf;
use go_model::types::table::TypeTable;
use go_model::types::term::{Field, Method, Term};

/// The fields of the struct underneath a type, the methods of the interface underneath it, and for a
/// defined type its name and declared methods.
#[derive(Drop)]
pub(crate) struct Members<'a> {
    pub(crate) owner: Option<&'a TypeName>,
    pub(crate) fields: &'a [Field],
    pub(crate) declared: &'a [MethodOf],
    pub(crate) methods: &'a [Method],
}

/// The base of a pointer type, and any other type as it is.
pub(crate) fn base_of(term: &Term) -> &Term
    ensures { result.now ≡ base_of term.now }
{
    match term {
        Term::Pointer(base) => base.value(),
        _ => term,
    }
}

/// Whether a type is a pointer type that isn't defined.
pub(crate) fn is_pointer(term: &Term) -> bool
    ensures { result ≡ is_pointer term.now }
{
    matches!(term, Term::Pointer(_))
}

fn fields_in(term: &Term) -> &[Field]
    ensures { result.now ≡ fields_of (out-Term term.now) }
{
    match term {
        Term::Struct(fields) => fields.items(),
        _ => &[],
    }
}

fn methods_in(term: &Term) -> &[Method]
    ensures { result.now ≡ methods_of (out-Term term.now) }
{
    match term {
        Term::Interface(methods) => methods.items(),
        _ => &[],
    }
}

impl<'a, T: TypeTable> Lookup<'a, T> {
    /// What stands in a type, by one look into the table.
    pub(crate) fn members(&self, term: &'a Term) -> Members<'a>
        ensures owner { owner_of result.owner ≡ name_of (out-Term term.now) }
        ensures fields { result.fields.now ≡ fields_of (under (T.lookup self.now.table.now) term.now) }
        ensures declared { result.declared.now ≡ declared_methods (T.lookup self.now.table.now) (out-Term term.now) }
        ensures methods { result.methods.now ≡ methods_of (under (T.lookup self.now.table.now) term.now) }
    {
        match term {
            Term::Named(name) => match self.entry(name) {
                Some(defined) => Members {
                    owner: Some(name),
                    fields: fields_in(&defined.underlying),
                    declared: defined.methods.items(),
                    methods: methods_in(&defined.underlying),
                },
                None => Members {
                    owner: Some(name),
                    fields: &[],
                    declared: &[],
                    methods: &[],
                },
            },
            _ => Members {
                owner: None,
                fields: fields_in(term),
                declared: &[],
                methods: methods_in(term),
            },
        }
    }
}
