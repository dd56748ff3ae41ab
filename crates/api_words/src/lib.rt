//! The words of the command line, and what good ones ask for.
#![tactic(auto)]

mod folders;
pub mod laws;
mod numbers;
pub mod option_name;
pub mod request;
mod settings;
mod values;
mod versions;
pub mod words;
