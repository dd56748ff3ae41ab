//! Reading the folders of loaded trees: which of them may hold packages, what their files give, and the units of a module.
#![tactic(auto)]

pub use go_parse;

pub mod files_by_name;
pub mod folder_list;
mod gathering;
mod groups;
pub mod heads;
pub mod known;
pub mod laws;
pub mod outlines;
pub mod reader;
mod sources;
pub mod units;
