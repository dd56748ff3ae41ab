//! Statements with headers, `if`, `switch`, `select` and `for`, over a function value that reads the parts of a statement.
#![tactic(auto)]

pub use go_stmt_lists;
pub use go_stmt_lists::go_stmt_parts;

pub mod controls;
