//! What a run tells of a client, platform by platform.
#![tactic(auto)]

mod answers;
mod chain;
pub mod clients;
pub mod laws;
mod next_answers;
mod outcomes;
mod told;
pub mod trees;
mod units;
