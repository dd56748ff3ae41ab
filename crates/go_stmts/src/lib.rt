//! Statements, read from tokens by recursive descent up to a height. The bodies of function literals are skipped.
#![tactic(auto)]

pub use go_stmt_descent::go_exprs;

mod kinds;
pub mod stmts;
