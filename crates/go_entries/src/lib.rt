//! What a declaration is given in an environment.
#![tactic(auto)]

mod assertions;
mod constants;
pub mod entry;
mod functions;
pub mod given;
pub mod had;
pub mod initializers;
mod several;
mod types;
mod variables;
