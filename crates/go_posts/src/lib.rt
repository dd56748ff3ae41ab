//! What follows an operand, read from tokens by recursive descent up to a height: selectors, type assertions, indices,
//! slices and calls.
#![tactic(auto)]

pub mod posts;
