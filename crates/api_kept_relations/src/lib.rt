//! Laws of compatible worlds and what a client has of them: types are preserved, and environments kept.
#![tactic(auto)]

pub mod laws;
