//! What the layers above tokens and trees speak of: constants, types and packages after typing, and trees of
//! files with their platforms and headers.
#![tactic(auto)]

pub use go_base;

pub mod constants;
pub mod files;
pub mod laws;
pub mod types;
