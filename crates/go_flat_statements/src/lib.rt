//! The typing of statements without statements in them, but for those of function literals.
#![tactic(auto)]

pub use go_walks;

pub mod declared;
pub mod defined;
mod fitting;
pub mod flat;
pub mod kinds;
pub mod trees;
