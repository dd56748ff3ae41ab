//! What typed statements and bodies of functions are, the place that is told of those that aren't, and laws of that.
#![tactic(auto)]

pub mod laws;
