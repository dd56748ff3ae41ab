//! The blocks of a file: that of each function and of each function literal.
#![tactic(auto)]

pub mod blocks;
