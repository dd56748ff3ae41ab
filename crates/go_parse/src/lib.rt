//! The outline of a file of Go: its declarations, read from its tokens by recursive descent.
#![tactic(auto)]

pub mod declarations;
pub mod error;
mod imports;
pub mod outline;
