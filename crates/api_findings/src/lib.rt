//! What a run finds in its trees, platform by platform: the features of the new one, and what the judge says of the old and the new one.
#![tactic(auto)]

pub use api_worlds;

mod chain;
mod copies;
pub mod findings;
mod found;
mod found_on;
pub mod laws;
mod listed;
mod next_found;
mod next_lines;
mod outcomes;
mod sides;
pub mod trees;
