//! What is found in parts of statements, and what is found in several of them.
#![tactic(auto)]

pub mod judged;
