//! What every layer shares: texts, lists and boxes that contracts see as what they hold, characters,
//! white space and comments, operators, and the counter of checks.
#![tactic(auto)]

pub mod boxed;
pub mod characters;
pub mod comments;
pub mod list;
pub mod memory;
pub mod operator;
pub mod order;
pub mod shared;
mod short;
pub mod steps;
pub mod text;
