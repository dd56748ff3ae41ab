//! What is broken, and for whom.
ghost use Rattle.std.specs.Prelude.{◌≡◌, ◌++◌, ◌∷◌, [], IfOk, OnOk};
ghost use Rattle.api_breaks.specs.Breaks.{broken};

use go_base::memory::NoMemory;
use go_base::text::Text;
use go_model::types::names::Sel;
use go_model::types::package::Entity;
use go_model::types::term::Term;
use std::alloc::Global;

/// What an object is.
#[derive(Clone, Copy, Debug, PartialEq, Eq)]
pub enum Sort {
    Constant,
    Variable,
    Function,
    Type,
}

/// What the new world doesn't keep.
pub enum Lost {
    /// A package is no longer public.
    Package,
    /// A package has another name: the new one.
    Name(Text),
    /// An object is gone.
    Removed,
    /// An object is of another sort: the old and the new one.
    Kind(Sort, Sort),
    /// A constant is typed in one world alone, of another untyped kind, or has another value: the path of
    /// its package, the old and the new constant.
    Constant(Text, Entity, Entity),
    /// The outermost constructors of the types of a pair differ: the old and the new type.
    Type(Term, Term),
    /// So do those of what is underneath: what is, in the old and in the new one.
    Underlying(Term, Term),
    /// A field at the top level of a struct is gone: its name.
    Field(Text),
    /// What was a field below the top level of a struct is none, or isn't found through a pointer any more: its name.
    Selectable(Text),
    /// A type can't be compared any more.
    Comparable,
    /// One of two interfaces alone is sealed.
    Sealing,
    /// A method of an interface is gone, or is new where it is open.
    InterfaceMethod(Sel),
    /// A method of a type that isn't an interface is gone.
    Method(Sel),
    /// A type doesn't implement a sealed interface any more: the old interface.
    Implements(Term),
    /// A type corresponds to several types, or one of several types to it: the old and the new type.
    OneToOne(Term, Term),
}

impl Drop for Lost {
    fn drop(self) {
        match self {
            Lost::Package => {}
            Lost::Name(_) => {}
            Lost::Removed => {}
            Lost::Kind(_, _) => {}
            Lost::Constant(_, _, _) => {}
            Lost::Type(_, _) => {}
            Lost::Underlying(_, _) => {}
            Lost::Field(_) => {}
            Lost::Selectable(_) => {}
            Lost::Comparable => {}
            Lost::Sealing => {}
            Lost::InterfaceMethod(_) => {}
            Lost::Method(_) => {}
            Lost::Implements(_) => {}
            Lost::OneToOne(_, _) => {}
        }
    }
}

impl Lost {
    /// The same, copied.
    pub fn copy(&self, alloc: Global) -> Result<Lost, NoMemory>
        ensures { IfOk result (λ copied. copied ≡ self.now) }
    {
        match self {
            Lost::Package => Ok(Lost::Package),
            Lost::Name(name) => Ok(Lost::Name(name.copy()?)),
            Lost::Removed => Ok(Lost::Removed),
            Lost::Kind(old, new) => Ok(Lost::Kind(*old, *new)),
            Lost::Constant(path, old, new) => Ok(Lost::Constant(
                path.copy()?,
                old.copy(alloc)?,
                new.copy(alloc)?,
            )),
            Lost::Type(old, new) => Ok(Lost::Type(old.copy(alloc)?, new.copy(alloc)?)),
            Lost::Underlying(old, new) => Ok(Lost::Underlying(old.copy(alloc)?, new.copy(alloc)?)),
            Lost::Field(name) => Ok(Lost::Field(name.copy()?)),
            Lost::Selectable(name) => Ok(Lost::Selectable(name.copy()?)),
            Lost::Comparable => Ok(Lost::Comparable),
            Lost::Sealing => Ok(Lost::Sealing),
            Lost::InterfaceMethod(sel) => Ok(Lost::InterfaceMethod(sel.copy(alloc)?)),
            Lost::Method(sel) => Ok(Lost::Method(sel.copy(alloc)?)),
            Lost::Implements(interface) => Ok(Lost::Implements(interface.copy(alloc)?)),
            Lost::OneToOne(old, new) => Ok(Lost::OneToOne(old.copy(alloc)?, new.copy(alloc)?)),
        }
    }
}

/// What is broken, and the path of the package or the object that it is reported for.
pub struct Break {
    pub owner: Text,
    pub lost: Lost,
}

impl Drop for Break {
    fn drop(self) {
        let Break { owner: _, lost: _ } = self;
    }
}

/// Adds what is broken for an owner.
pub(crate) fn push(
    alloc: Global,
    owner: &Text,
    lost: Lost,
    breaks: &mut Vec<Break>,
) -> Result<(), NoMemory>
    ensures { OnOk result (breaks.new.items ≡ breaks.old.items ++ broken owner.now lost ∷ []) }
{
    let owner = owner.copy()?;
    breaks.push(Break { owner, lost })?;
    Ok(())
}
