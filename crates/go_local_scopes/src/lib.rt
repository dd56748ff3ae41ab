//! The scopes of blocks, which an environment opens and closes, and what is declared in them.
#![tactic(auto)]

pub mod declaring;
pub mod slots;
