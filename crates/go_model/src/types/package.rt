//! Packages as they are typed: their exported and unexported objects, and their defined types.
ghost use Rattle.std.specs.Prelude.{◌≡◌, map};
ghost use Rattle.go_base.specs.Keys.{first_with, item_of};
ghost use Rattle.go_base.specs.Lists.{Ascending};
ghost use Rattle.go_model.specs.worlds.Worlds.{object_name, name_of};

use crate::constants::value::{Untyped, Value};
use crate::types::keyed::find_key;
use crate::types::names::Sel;
use crate::types::term::{Signature, Term};
use go_base::list::List;
use go_base::shared::Shared;
use go_base::text::Text;

/// The type of a constant: a type, or the kind of an untyped one.
pub enum ConstTerm {
    OfTerm(Term),
    OfKind(Untyped),
}

impl Drop for ConstTerm {
    fn drop(self) {
        match self {
            ConstTerm::OfTerm(_) => {}
            ConstTerm::OfKind(_) => {}
        }
    }
}

/// What a name of a package denotes.
pub enum Entity {
    Const(ConstTerm, Value),
    Var(Term),
    Function(Signature),
    TypeOf(Term),
}

impl Drop for Entity {
    fn drop(self) {
        match self {
            Entity::Const(_, _) => {}
            Entity::Var(_) => {}
            Entity::Function(_) => {}
            Entity::TypeOf(_) => {}
        }
    }
}

/// A name at package level.
pub struct Object {
    pub name: Text,
    pub entity: Entity,
}

impl Drop for Object {
    fn drop(self) {
        let Object { name: _, entity: _ } = self;
    }
}

/// A method that is declared for a defined type, and whether its receiver is a pointer.
pub struct MethodOf {
    pub sel: Sel,
    pub pointer: bool,
    pub signature: Signature,
}

impl Drop for MethodOf {
    fn drop(self) {
        let MethodOf {
            sel: _,
            pointer: _,
            signature: _,
        } = self;
    }
}

/// A defined type. Its underlying type is never a name; its methods are ordered by selector.
pub struct Defined {
    pub name: Text,
    pub underlying: Term,
    pub methods: List<MethodOf>,
}

impl Drop for Defined {
    fn drop(self) {
        let Defined {
            name: _,
            underlying: _,
            methods: _,
        } = self;
    }
}

/// A package: its import path, its name, whether it is of the standard library, and its objects and
/// defined types, each ordered by name. Worlds that have the same package share these.
pub struct Package {
    pub path: Text,
    pub name: Text,
    pub from_std: bool,
    pub objects: Shared<List<Object>>,
    pub defined: Shared<List<Defined>>,
}

impl Drop for Package {
    fn drop(self) {
        let Package {
            path: _,
            name: _,
            from_std: _,
            objects: _,
            defined: _,
        } = self;
    }
}

impl Package {
    /// The object of a name, in a package whose objects are ordered; None where it has none.
    pub fn object(&self, name: &[u8]) -> Option<&Object>
        requires { Ascending (map object_name self.now.objects) }
        ensures { item_of result ≡ first_with object_name self.now.objects name.now }
    {
        find_key(self.objects.items(), name)
    }

    /// The defined type of a name, in a package whose defined types are ordered; None where it has none.
    pub fn defined_type(&self, name: &[u8]) -> Option<&Defined>
        requires { Ascending (map name_of self.now.defined) }
        ensures { item_of result ≡ first_with name_of self.now.defined name.now }
    {
        find_key(self.defined.items(), name)
    }
}
