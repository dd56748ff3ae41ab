//! What is broken where a new world takes the place of an old one: what its packages lose, and what the types of a pair lose.
#![tactic(auto)]

pub mod broken;
mod interfaces;
mod kinds;
mod method_sets;
pub mod packages;
pub mod pairs;
mod selectable;
