//! The feature lines of worlds.
#![tactic(auto)]

pub mod constants;
mod exported;
pub mod features;
mod interface_lines;
mod method_lines;
mod struct_lines;
mod subject;
mod type_lines;
pub mod types;
