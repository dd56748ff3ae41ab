//! The field names that are keys of literals, and the methods that selectors find, in a tree of an expression or a
//! type.
#![tactic(auto)]

mod bares;
pub mod keys;
pub mod methods;
