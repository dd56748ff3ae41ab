//! Recursive descent over terminals: what the reader of each rule of types and expressions finds, the laws that
//! this is what the grammar derives, and how a tree's parts of lower heights are read.
#![tactic(auto)]

pub use go_cursor;

pub mod grammar;
pub mod laws;
