//! Whether code that compiled against an old world can stop compiling against a new one, and how much that changes.
#![tactic(auto)]

mod changes;
pub mod judge;
pub mod laws;
mod listing;
pub mod verdict;
