//! Which declarations of a package meet what they are asked.
#![tactic(auto)]

mod bases;
pub mod met;
mod shared_names;
