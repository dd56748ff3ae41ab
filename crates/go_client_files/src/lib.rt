//! The files of a client: those that the platform chooses, with the blocks of their functions, and the imports of each.
#![tactic(auto)]

pub use go_file_blocks;
pub use go_reading;

pub mod client;
pub mod parsed;
mod reading;
pub mod uses;
