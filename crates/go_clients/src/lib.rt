//! What is told of a client of a module: whether it is typed, bodies and all, and in the profile, and else where it isn't.
#![tactic(auto)]

mod bodies;
mod declarations;
mod scopes;
pub mod vet;
