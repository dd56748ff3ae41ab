//! Constant arithmetic of Go, exact over whole numbers of 128 bits, texts and truth values. Each call
//! gives a value exactly where the definition of constant values has one, and that one. The number
//! `bits` is that of `int`, `uint` and `uintptr`.
#![tactic(auto)]

pub mod comparison;
pub mod conversion;
pub mod laws;
mod number;
pub mod operation;
pub mod representation;
mod results;
