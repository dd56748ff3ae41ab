//! Relations on types: which types implement an interface, can be compared, assigned and converted.
#![tactic(auto)]

pub use go_selectors;

pub mod assignability;
pub mod comparison;
pub mod conversions;
pub mod implementing;
mod imports;
pub mod laws;
mod tags;
