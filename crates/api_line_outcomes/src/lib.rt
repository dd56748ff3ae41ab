//! Laws of lists of lines: they can't be without the lists that the definitions give.
#![tactic(auto)]

pub mod laws;
