//! Trees of files, platforms, and headers with their build constraints.
pub mod build;
pub mod platform;
pub mod tree;
