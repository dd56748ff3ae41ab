//! Laws of what has to exist, though no call finds it.
#![tactic(auto)]

pub mod laws;
