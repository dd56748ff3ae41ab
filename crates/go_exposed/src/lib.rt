//! What other modules see of a package, and what may be left out of it because nobody sees it.
#![tactic(auto)]

pub mod laws;
pub mod skipped;
