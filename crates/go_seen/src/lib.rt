//! Which declarations of a package other modules see.
#![tactic(auto)]

pub mod offered;
pub mod publics;
pub mod seen;
