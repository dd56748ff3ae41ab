//! Simple statements, read from tokens by recursive descent. The bodies of function literals are skipped.
#![tactic(auto)]

pub use go_exprs;

pub mod laws;
pub mod looks;
mod operators;
pub mod simple;
