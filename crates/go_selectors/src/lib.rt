//! Identity of types, what a selector means in one, and method sets.
#![tactic(auto)]

pub use go_base;

pub mod candidate;
pub mod candidates;
mod ending;
pub mod identity;
pub mod laws;
pub mod lookup;
mod members;
pub mod method_sets;
pub mod name;
mod seen;
pub mod selectors;
mod spot;
mod steps;
