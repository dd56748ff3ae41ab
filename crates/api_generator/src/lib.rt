//! Trees made from a number, for a large run of the program without any input.
#![tactic(auto)]

mod draws;
mod lines;
pub mod make;
