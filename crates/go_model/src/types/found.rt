//! What a selector means in a type.
use crate::types::names::TypeName;
use crate::types::term::{Signature, Term};

/// What a selector finds in a type.
pub enum Found {
    FieldAt(FieldFound),
    MethodAt(MethodFound),
    /// Several fields and methods are found at the least depth.
    Ambiguous,
    Nothing,
}

impl Drop for Found {
    fn drop(self) {
        match self {
            Found::FieldAt(_) => {}
            Found::MethodAt(_) => {}
            Found::Ambiguous => {}
            Found::Nothing => {}
        }
    }
}

/// A field: its type, whether the type or an embedded field on the way is a pointer, and the number
/// of embedded fields on the way, where any number over the last one of its type is given as that.
pub struct FieldFound {
    pub term: Term,
    pub through_pointer: bool,
    pub depth: u32,
}

impl Drop for FieldFound {
    fn drop(self) {
        let FieldFound {
            term: _,
            through_pointer: _,
            depth: _,
        } = self;
    }
}

/// A method, and the defined type that it is declared for. A method of an interface is declared for
/// none, and has no pointer receiver. The rest is as for a field.
pub struct MethodFound {
    pub signature: Signature,
    pub owner: Option<TypeName>,
    pub pointer_receiver: bool,
    pub through_pointer: bool,
    pub depth: u32,
}

impl Drop for MethodFound {
    fn drop(self) {
        let MethodFound {
            signature: _,
            owner: _,
            pointer_receiver: _,
            through_pointer: _,
            depth: _,
        } = self;
    }
}
