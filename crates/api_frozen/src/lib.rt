//! Files of frozen feature lines, and what a list of features lost and gained against them.
#![tactic(auto)]

pub mod compare;
pub mod error;
pub mod file;
mod parts;
mod shapes;
pub mod signed;
