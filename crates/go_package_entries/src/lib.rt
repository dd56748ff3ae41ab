//! The entries of the declarations of a package, settled one by one.
#![tactic(auto)]

pub mod entries;
pub mod giver;
mod giving;
mod grown;
pub mod hints;
mod methods;
mod objects;
pub mod tables;
mod takings;
mod types;
