//! The typing of statements that choose among clauses.
#![tactic(auto)]

pub use go_nested_statements;
pub use go_nested_statements::go_flat_statements;
pub use go_walks;
pub use go_walks::go_expr;

pub mod selects;
pub mod switches;
pub mod type_switches;
