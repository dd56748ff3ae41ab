//! The order of packages that need each other, import paths, the names that files declare and import, and used imports.
#![tactic(auto)]

pub use go_references::go_syntax;

mod components;
pub mod cycle;
pub mod import_paths;
pub mod laws;
pub mod order;
pub mod outline;
pub mod package_files;
mod text_set;
pub mod used_imports;
