//! What a run reads: trees, and files of frozen lines.
#![tactic(auto)]

mod frozen;
pub mod inputs;
pub mod laws;
mod trees;
