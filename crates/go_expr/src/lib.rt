//! What expressions are, and which types type forms stand for.
#![tactic(auto)]

pub use go_calls::{go_operators, go_usability};
pub use go_literals::{go_operations, go_type_terms};

mod arguments;
mod bounds;
mod calls;
mod exprs;
mod forms;
mod imports;
mod levels;
mod post;
mod posts;
mod primary;
pub mod typing;
