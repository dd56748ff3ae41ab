//! What the declarations of a package have to do with one another, as rows of numbers.
#![tactic(auto)]

mod counted;
pub mod dependencies;
mod field_keys;
mod found;
pub mod graph;
mod lengths;
mod method_index;
mod named;
mod numbers;
pub mod order;
mod references;
mod rows;
