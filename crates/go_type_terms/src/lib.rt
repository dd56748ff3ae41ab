//! The frame in which a tree is typed over its parts, and the terms that type forms stand for.
#![tactic(auto)]

pub use go_usability;

mod embedded;
pub mod error;
mod gathered;
mod interfaces;
mod lengths;
mod lists;
pub mod loud;
pub mod part;
pub mod signatures;
mod structs;
mod type_names;
pub mod types;
pub mod typing;
pub mod universe;
