//! What is broken, as reports tell it: the rule that isn't kept, and its subject.
#![tactic(auto)]

pub mod broken;
pub mod laws;
pub mod rule;
mod subjects;
pub mod told;
mod types;
