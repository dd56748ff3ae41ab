//! What the clauses of a type switch list, each once.
#![tactic(auto)]

pub use go_clauses;
pub use go_clauses::go_asks;

pub mod clauses;
