//! What names mean.
ghost use Rattle.std.specs.Prelude.{◌≡◌};
ghost use Rattle.go_rules.specs.Meanings.{seen_of};

use crate::meaning::Meaning;
use crate::predeclared::Predeclared;
use go_model::constants::value::Value;
use go_model::types::package::{ConstTerm, Entity};
use go_model::types::term::Term;
use go_syntax::go_base::text::Text;

/// The meaning of a name.
pub enum Seen {
    /// A variable of a function.
    Local(Term),
    /// A constant of a function.
    LocalConst(ConstTerm, Value),
    /// An object of the package.
    Object(Entity),
    /// An imported package, by its path.
    Import(Text),
    Universe(Predeclared),
}

impl Drop for Seen {
    fn drop(self) {
        match self {
            Seen::Local(_) => {}
            Seen::LocalConst(_, _) => {}
            Seen::Object(_) => {}
            Seen::Import(_) => {}
            Seen::Universe(_) => {}
        }
    }
}

impl Seen {
    /// The meaning, borrowed.
    pub fn meaning(&self) -> Meaning<'_>
        ensures { seen_of result ≡ self.now }
    {
        match self {
            Seen::Local(term) => Meaning::Local(term),
            Seen::LocalConst(term, value) => Meaning::LocalConst(term, value),
            Seen::Object(entity) => Meaning::Object(entity),
            Seen::Import(path) => Meaning::Import(path),
            Seen::Universe(predeclared) => Meaning::Universe(*predeclared),
        }
    }
}
