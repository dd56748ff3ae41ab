//! Which platforms are alike on the files of trees.
#![tactic(auto)]

pub mod alike;
mod questions;
