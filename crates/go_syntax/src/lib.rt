//! The syntax of Go in this profile, after the grammar of the Go specification: tokens, and trees. An enum has a
//! variant for each alternative of a rule, with a field for each part in the order of the parts. A
//! chain of operators and a chain of what follows an operand are flat lists, so that no depth
//! grows with the length of a file.
#![tactic(auto)]

pub use go_base;

pub mod body;
pub mod declaration;
pub mod expression;
pub mod held;
pub mod name;
pub mod statement;
pub mod token;
pub mod types;
