//! Composite literals, over what types their parts.
#![tactic(auto)]

pub use go_operations;
pub use go_operations::go_type_terms;

pub mod composites;
mod field_tables;
mod fields;
mod indexed;
mod indices;
mod keys;
mod once;
mod pairs;
mod structs;
mod unkeyed;
pub mod values;
