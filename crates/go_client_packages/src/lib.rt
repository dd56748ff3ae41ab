//! Declarations of a client in two settings, of which the new one keeps what the old one gives.
#![tactic(auto)]

pub mod laws;
