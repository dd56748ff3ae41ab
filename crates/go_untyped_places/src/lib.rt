//! Laws of untyped places: of statements one after another, and of one statement, from the places inside of it.
#![tactic(auto)]

pub mod laws;
