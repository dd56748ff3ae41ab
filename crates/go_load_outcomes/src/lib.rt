//! Laws of loads: over no store they are without an answer.
#![tactic(auto)]

pub mod laws;
