//! The typing of statements with a header and blocks: `if` and `for`.
#![tactic(auto)]

pub use go_flat_statements;

pub mod branches;
mod conditions;
mod headers;
pub mod loops;
pub mod ranges;
