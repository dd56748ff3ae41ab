//! Which declarations of a package are lost, told from what they have to do with one another.
#![tactic(auto)]

mod ends;
pub mod first;
pub mod graph;
pub mod order;
pub mod settled;
pub mod sift;
pub mod standing;
