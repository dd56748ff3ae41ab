//! The units of a module with a client: its packages with what they and the client reach, and the client's own unit.
#![tactic(auto)]

pub use go_client_files::go_file_blocks;

pub mod units;
