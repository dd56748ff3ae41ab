//! What the declarations of a package declare: the typing of a package, and which declarations have none.
#![tactic(auto)]

pub use go_references::go_base;
pub use go_rules;

pub mod laws;
