//! What types statements, over what types those inside of them: the runs of statements and the function literals in a statement.
#![tactic(auto)]

pub use go_expr;

pub mod answers;
pub mod frame;
pub mod inner;
mod literal;
pub mod literals;
pub mod runs;
pub mod walk;
