//! The packages of a tree: their folders, which of these are read, and the units that are made from their files.
#![tactic(auto)]

pub mod folder;
pub mod package_checks;
pub mod package_uses;
pub mod reached;
pub mod reader;
mod undeclared_uses;
pub mod unit;
pub mod unit_error;
pub mod unit_files;
pub mod unit_graph;
pub mod unit_list;
pub mod units;
