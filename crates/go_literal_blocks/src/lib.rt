//! The function literals that stand in trees, and the block of each, which stands beside the trees.
#![tactic(auto)]

pub use go_nodes;

pub mod blocks;
pub mod literals;
