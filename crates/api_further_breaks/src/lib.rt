//! What is broken where a new world takes the place of an old one: the rules on two pairs of types, and all rules together.
#![tactic(auto)]

pub mod breaks;
mod implementing;
pub mod laws;
mod losses;
mod partners;
mod sealed;
