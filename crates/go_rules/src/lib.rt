//! Rules of typing: what names mean, what an expression is, the environment that both are asked in, and their laws.
#![tactic(auto)]

mod announced;
mod awaited;
pub mod blank;
mod defined_row;
pub mod env;
pub mod exports;
mod imports;
pub mod laws;
pub mod meaning;
mod methods;
mod names;
pub mod operand;
pub mod operators;
mod place;
pub mod predeclared;
pub mod seen;
