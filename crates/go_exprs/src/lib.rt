//! The readers of all trees up to a height: expressions, read from tokens by recursive descent, and their parts. The bodies of
//! function literals are skipped.
#![tactic(auto)]

mod exprs;
mod levels;
pub mod readers;
