//! The packages of units whose declarations have their entries.
#![tactic(auto)]

pub use go_entries;

mod defined;
mod found;
mod methods;
mod objects;
pub mod package;
