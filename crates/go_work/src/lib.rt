//! Types the packages of a tree, one after another or level by level.
#![tactic(auto)]

pub use go_check;

mod by_levels;
pub mod checked;
mod copied;
mod earlier;
pub mod error;
mod in_turn;
mod keep;
mod level;
mod plan;
mod progress;
mod publics;
mod rows;
pub mod typed;
pub mod world;
