//! Images of types under new names, and the parts of types: the definitions, and pairs of an old and a new type.
#![tactic(auto)]

pub mod pair;
