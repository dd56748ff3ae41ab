//! The fault lines of what is refused on a platform.
#![tactic(auto)]

pub mod client_places;
mod places;
mod reading;
pub mod refusals;
pub mod root;
pub mod skipped;
