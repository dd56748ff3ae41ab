//! What the declarations of a package are asked besides what they are given.
#![tactic(auto)]

pub use go_asks;
pub use go_entries;

pub mod asks;
pub mod base;
mod forms;
mod methods;
mod reserved;
pub mod values;
