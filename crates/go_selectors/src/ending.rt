//! What a path through embedded fields ends in.

use go_model::types::names::TypeName;
use go_model::types::term::{Signature, Term};

/// A field with its type; or a method with the defined type that it is declared for, and whether its
/// receiver is a pointer.
#[derive(Drop)]
pub(crate) enum Target<'a> {
    Field(&'a Term),
    Method(Option<&'a TypeName>, bool, &'a Signature),
}

/// A target, and whether the path went through a pointer.
#[derive(Drop)]
pub(crate) struct Ending<'a> {
    pub(crate) through: bool,
    pub(crate) target: Target<'a>,
}
