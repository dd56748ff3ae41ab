//! Named types, and types of other packages than a client's.
ghost use Rattle.std.specs.Prelude.{◌≡◌};
ghost use Rattle.go_model.specs.types.Imports.{is_named, is_imported_struct, is_imported_open};

use go_model::types::names::is_imported;
use go_model::types::table::TypeTable;
use go_model::types::term::Term;
use go_selectors::lookup::Lookup;

/// Whether a type is predeclared or defined.
pub(crate) fn is_named(term: &Term) -> bool
    ensures { result ≡ is_named term.now }
{
    match term {
        Term::Plain(_) => true,
        Term::Named(_) => true,
        _ => false,
    }
}

/// Whether a type is a defined struct of another package than the client's.
pub(crate) fn is_imported_struct<'a, T: TypeTable>(types: &Lookup<'a, T>, term: &'a Term) -> bool
    ensures { result ≡ is_imported_struct (T.lookup types.now.table.now) term.now }
{
    match term {
        Term::Named(name) => match types.under(term) {
            Term::Struct(_) => is_imported(name),
            _ => false,
        },
        _ => false,
    }
}

/// Whether a type is a defined struct or interface of another package than the client's.
pub(crate) fn is_imported_open<'a, T: TypeTable>(types: &Lookup<'a, T>, term: &'a Term) -> bool
    ensures { result ≡ is_imported_open (T.lookup types.now.table.now) term.now }
{
    match term {
        Term::Named(name) => match types.under(term) {
            Term::Struct(_) => is_imported(name),
            Term::Interface(_) => is_imported(name),
            _ => false,
        },
        _ => false,
    }
}
