//! Parses the files that a run will ask for, by several workers, before its packages are read one after another.
#![tactic(auto)]

mod asked;
mod files;
pub mod read_ahead;
