//! An environment with the predeclared `error`, for all questions.
ghost use Rattle.std.specs.Prelude.{◌≡◌};
ghost use Rattle.go_model.specs.declared.types.term.Term.{Term-F, out-Term};
ghost use Rattle.go_model.specs.types.Terms.{is_error, error_type};
ghost use Rattle.go_model.specs.types.Underlying.{under};
ghost use Rattle.go_rules.specs.Environments.{Begins, Entered, EnteredLayer, Told, ToldLayer};
ghost use Rattle.go_rules.specs.Scopes.{env_of};
ghost use Rattle.go_types.specs.go_selectors.Answers.{Decides};

use go_model::types::names::{Sel, TypeName};
use go_model::types::package::Defined;
use go_model::types::table::TypeTable;
use go_model::types::term::Term;
use go_rules::env::Env;
use go_types::go_selectors::lookup::Lookup;

/// An environment, and its table with the predeclared `error` before it.
#[derive(Drop)]
pub struct Context<'a> {
    pub env: &'a Env<'a>,
    pub(crate) types: Lookup<'a, Env<'a>>,
    ghost same: { types.table.now ≡ env.now },
}

fn is_error(name: &TypeName) -> bool
    ensures { result ≡ is_error name.now }
{
    name.path.bytes() == b"".as_slice() && name.name.bytes() == b"error".as_slice()
}

impl<'a> Context<'a> {
    /// An environment with what `error_type` of go_selectors gave.
    pub fn new(env: &'a Env<'a>, error: &'a Defined) -> Context<'a>
        requires { error.now ≡ error_type }
        ensures { result.env.now ≡ env.now }
    {
        Context {
            env,
            types: Lookup::new(env, error),
        }
    }

    /// The underlying type; a name without an entry has none but itself.
    pub fn under(&self, term: &'a Term) -> &'a Term
        ensures { out-Term result.now ≡ under (env_of self.now.env.now).table term.now }
    {
        self.types.under(term)
    }

    // Whether a name has its entry.
    fn has_entry(&self, name: &TypeName) -> bool
        ensures { Decides result (EnteredLayer (env_of self.now.env.now) (Term-F.Named name.now)) }
    {
        if is_error(name) {
            return true;
        }
        match self.env.defined(name) {
            Some(_) => true,
            None => false,
        }
    }

    // Whether a name has its entry, and each of its methods of this selector is had.
    fn is_name_told(&self, sel: &Sel, name: &TypeName) -> bool
        ensures { Decides result (ToldLayer (env_of self.now.env.now) sel.now (Term-F.Named name.now)) }
    {
        if !self.has_entry(name) {
            return false;
        }
        !self.env.is_missing(name, sel)
    }

    /// Whether a type has its entry, where it is a name.
    pub fn is_entered(&self, term: &Term) -> bool
        ensures { Decides result (Entered (env_of self.now.env.now) term.now) }
    {
        match term {
            Term::Named(name) => self.has_entry(name),
            _ => true,
        }
    }

    /// Whether it is known where paths from a type begin.
    pub(crate) fn begins(&self, term: &Term) -> bool
        ensures { Decides result (Begins (env_of self.now.env.now) term.now) }
    {
        match term {
            Term::Pointer(base) => self.is_entered(base.value()),
            _ => self.is_entered(term),
        }
    }

    /// Whether a type has its entry, where it is a name, and each of its methods of this selector is had.
    pub(crate) fn is_told(&self, sel: &Sel, term: &Term) -> bool
        ensures { Decides result (Told (env_of self.now.env.now) sel.now term.now) }
    {
        match term {
            Term::Named(name) => self.is_name_told(sel, name),
            _ => true,
        }
    }
}
