//! The trees that stand in a tree of an expression or a type, and the names that are declared in one.
#![tactic(auto)]

pub mod declarations;
pub mod distinct;
pub mod laws;
pub mod names;
pub mod tree;
pub mod trees;
