//! The declarations of the files of a package, one by one, borrowed from the syntax.
#![tactic(auto)]

pub mod form;
pub mod listing;
