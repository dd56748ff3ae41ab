//! Laws of what is broken: it is finitely much, and it has a list.
#![tactic(auto)]

pub mod laws;
