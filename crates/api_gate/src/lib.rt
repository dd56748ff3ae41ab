//! The gate's top call: words and a store of files in, a report or a fault line and a status out.
#![tactic(auto)]

pub mod laws;
mod reports;
mod requests;
pub mod run;
pub mod status;
