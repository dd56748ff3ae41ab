//! The function literals of a tree, each with the height that is left for its body.
#![tactic(auto)]

pub mod declarations;
pub mod expressions;
pub mod laws;
pub mod place;
pub mod statements;
