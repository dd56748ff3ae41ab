//! Whether the statements of blocks and bodies are typed, and the untyped place of those that aren't.
#![tactic(auto)]

pub mod blocks;
pub mod bodies;
pub mod error;
mod levels;
pub mod literals;
mod receivers;
mod statements;
