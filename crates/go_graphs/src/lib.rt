//! Graphs as numbered rows of numbers: what leads into a set, what leads back, what has a rank, and orders.
//!
//! Nothing is proved of an order: it makes the work short, and never decides an answer.
#![tactic(auto)]

pub mod circles;
mod components;
pub mod flags;
pub mod laws;
mod levels;
mod marking;
pub mod marks;
pub mod order;
pub mod ranks;
pub mod rows;
