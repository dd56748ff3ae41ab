//! What the declarations of a package declare, by name: where each name is declared.
#![tactic(auto)]

pub mod aliases;
pub mod bases;
mod filling;
mod headed;
mod last_base;
pub mod methods;
pub mod names;
pub mod namesakes;
pub mod package;
pub mod receivers;
