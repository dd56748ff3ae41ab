//! That outlines of files and units may cross threads.
#![tactic(auto)]

pub mod laws;
