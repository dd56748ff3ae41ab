//! The scopes of a package of which no entry is had yet.
#![tactic(auto)]

mod announced;
mod awaited_methods;
mod file_imports;
mod own_types;
pub mod scopes;
