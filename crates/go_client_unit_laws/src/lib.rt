//! Laws of the units of a module with a client: they are one, and the same on platforms that are alike.
#![tactic(auto)]

pub use go_client_units;

pub mod laws;
