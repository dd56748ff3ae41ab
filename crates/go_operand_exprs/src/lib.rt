//! Operands and composite literals, read from tokens by recursive descent up to a height. The bodies of function literals
//! are skipped.
#![tactic(auto)]

pub use go_type_exprs;

mod literals;
pub mod operands;
