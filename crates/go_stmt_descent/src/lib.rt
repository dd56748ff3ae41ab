//! Recursive descent over the terminals of statements: what the reader of each rule finds, and the laws that this is what
//! the grammar derives, where the bodies of function literals are skipped.
#![tactic(auto)]

pub use go_parse;
pub use go_simple_stmts;
pub use go_simple_stmts::go_exprs;

pub mod headers;
pub mod laws;
