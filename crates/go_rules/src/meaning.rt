//! Meanings of names, borrowed from an environment.
ghost use Rattle.std.specs.Prelude.{◌≡◌, IfOk};
ghost use Rattle.go_rules.specs.Meanings.{seen_of};

use crate::predeclared::Predeclared;
use crate::seen::Seen;
use go_model::constants::value::Value;
use go_model::types::package::{ConstTerm, Entity};
use go_model::types::term::Term;
use go_syntax::go_base::memory::NoMemory;
use go_syntax::go_base::text::Text;
use std::alloc::Global;

/// The meaning of a name, as in [`Seen`].
#[derive(Clone, Copy)]
pub enum Meaning<'a> {
    /// A variable of a function.
    Local(&'a Term),
    /// A constant of a function.
    LocalConst(&'a ConstTerm, &'a Value),
    /// An object of the package.
    Object(&'a Entity),
    /// An imported package, by its path.
    Import(&'a Text),
    Universe(Predeclared),
}

impl Meaning<'_> {
    /// The meaning, copied.
    pub fn copy(self, alloc: Global) -> Result<Seen, NoMemory>
        ensures { IfOk result (λ seen. seen ≡ seen_of self.entry) }
    {
        match self {
            Meaning::Local(term) => Ok(Seen::Local(term.copy(alloc)?)),
            Meaning::LocalConst(term, value) => {
                Ok(Seen::LocalConst(term.copy(alloc)?, value.copy(alloc)?))
            }
            Meaning::Object(entity) => Ok(Seen::Object(entity.copy(alloc)?)),
            Meaning::Import(path) => Ok(Seen::Import(path.copy()?)),
            Meaning::Universe(predeclared) => Ok(Seen::Universe(predeclared)),
        }
    }
}
