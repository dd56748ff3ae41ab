//! Build constraints: platforms by name, the headers of Go files with their build lines, and which
//! files a platform chooses.
#![tactic(auto)]

pub mod choice;
mod clause;
mod cursor;
pub mod error;
mod expression;
pub mod header;
pub mod laws;
mod lines;
mod names;
mod parts;
pub mod platforms;
pub mod tags;
