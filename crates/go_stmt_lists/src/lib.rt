//! Lists of statements: blocks, and the clauses of `switch` and `select`, over a function value that reads the parts of a statement.
#![tactic(auto)]

pub use go_stmt_parts;

pub mod clauses;
pub mod level;
pub mod parts;
