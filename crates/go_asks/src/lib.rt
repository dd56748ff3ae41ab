//! What type forms and signatures in an expression or a type are asked besides standing for a type.
#![tactic(auto)]

pub use go_expr;

mod embedding;
mod keys;
pub mod meets;
mod members;
pub mod operands;
