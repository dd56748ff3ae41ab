//! The scanner of Go source: the tokens of a file, with inserted semicolons.
#![tactic(auto)]

mod bytes;
mod digits;
mod emit;
pub mod error;
mod keyword;
pub mod laws;
mod literal;
mod longest;
mod name;
mod number;
mod operator;
mod quote;
pub mod scan;
mod value;
