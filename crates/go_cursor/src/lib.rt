//! The tokens that are left to a parser: a cursor over them, names, what the next tokens begin, and balanced runs that
//! are skipped.
#![tactic(auto)]

pub use go_syntax::go_base;

pub mod cursor;
pub mod error;
pub mod looks;
pub mod names;
pub mod skipping;
