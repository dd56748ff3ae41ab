//! Types as they are written, read from tokens by recursive descent up to a height.
#![tactic(auto)]

pub mod types;
