//! Entries of declarations.
ghost use Rattle.std.specs.Prelude.{◌≡◌, MatchResult};

use go_base::list::List;
use go_model::types::package::Entity;
use go_model::types::term::{Signature, Term};
use go_type_terms::error::ExprError;

/// What a declaration is given.
pub enum Entry {
    /// What the names of constants and variables, of an alias or of a function denote, in order.
    Objects(List<Entity>),
    /// The type underneath a defined type.
    Underlying(Term),
    /// The signature of a method.
    Signed(Signature),
}

// Written out, so that a crate that drops an entry proves nothing of the types in it again.
impl Drop for Entry {
    fn drop(self) {
        match self {
            Entry::Objects(_) => {}
            Entry::Underlying(_) => {}
            Entry::Signed(_) => {}
        }
    }
}

/// The entry that these objects are.
pub(crate) fn objects(given: Result<List<Entity>, ExprError>) -> Result<Entry, ExprError>
    ensures { MatchResult given (λ xs. result ≡ Ok (Entry.Objects xs)) (λ e. result ≡ Err e) }
{
    match given {
        Ok(objects) => Ok(Entry::Objects(objects)),
        Err(error) => Err(error),
    }
}

/// The entry that a type underneath is.
pub(crate) fn underlying(given: Result<Term, ExprError>) -> Result<Entry, ExprError>
    ensures { MatchResult given (λ t. result ≡ Ok (Entry.Underlying t)) (λ e. result ≡ Err e) }
{
    match given {
        Ok(term) => Ok(Entry::Underlying(term)),
        Err(error) => Err(error),
    }
}

/// The entry that a signature is.
pub(crate) fn signed(given: Result<Signature, ExprError>) -> Result<Entry, ExprError>
    ensures { MatchResult given (λ g. result ≡ Ok (Entry.Signed g)) (λ e. result ≡ Err e) }
{
    match given {
        Ok(signature) => Ok(Entry::Signed(signature)),
        Err(error) => Err(error),
    }
}
