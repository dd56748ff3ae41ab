//! What names and literals denote, and what operators make of expressions, over what types their parts.
#![tactic(auto)]

pub use go_type_terms;

pub mod chains;
mod constants;
pub mod literals;
pub mod names;
pub mod operands;
pub mod operations;
pub mod operators;
pub mod prefixes;
mod universe;
