//! Names of types where they stand, for sets of them.
ghost use Rattle.go_selectors.specs.Names.{same_name, same_name_equiv, name_writes, same_name_writes};
ghost use Rattle.std.specs.Prelude.{◌≡◌};
ghost use Rattle.std.specs.Cmp.{partial_equiv_from_equiv};

use go_model::types::names::TypeName;
use std::hash::{Hash, Hasher};
use std::marker::Model;

/// The name of a defined type.
#[derive(Drop)]
pub struct Name<'a> {
    name: &'a TypeName,
}

impl<'a> Model for Name<'a> {
    ghost use Rattle.go_model.specs.declared.types.names.TypeName.{TypeName as Seen};

    ghost Value = { Seen };

    ghost view = { λ n. n.name.now };
}

impl<'a> Name<'a> {
    /// A name.
    pub fn new(name: &'a TypeName) -> Name<'a>
        ensures { result ≡ name.now }
    {
        Name { name }
    }

    /// The same name.
    pub fn again(&self) -> Name<'a>
        ensures { result ≡ self.now }
    {
        Name { name: self.name }
    }
}

impl<'a> PartialEq for Name<'a> {
    ghost eq = { same_name };

    ghost laws = { partial_equiv_from_equiv same_name_equiv };

    fn eq(&self, other: &Name<'a>) -> bool {
        self.name.path == other.name.path && self.name.name == other.name.name
    }
}

impl<'a> Eq for Name<'a> {
    ghost laws = { same_name_equiv };
}

impl<'a> Hash for Name<'a> {
    ghost hash_input = { name_writes };

    ghost respects_eq = { same_name_writes };

    fn hash<H: Hasher>(&self, state: &mut H) {
        state.write(self.name.path.bytes());
        state.write(self.name.name.bytes());
    }
}
