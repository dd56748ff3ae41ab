//! A package that is typed or offered over the packages of a world may join them.
#![tactic(auto)]

pub mod laws;
pub mod offered;
