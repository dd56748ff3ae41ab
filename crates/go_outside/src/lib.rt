//! What the gate reads from and writes to, each as a trait with a written meaning: stores of files
//! and sinks of bytes, which count their faults, and the entry hook of workers.
#![tactic(auto)]

mod call_numbers;
pub mod failing_files;
pub mod failing_sink;
pub mod files;
pub mod gate;
pub mod host_files;
pub mod host_sink;
pub mod memory_files;
pub mod memory_sink;
mod paths;
pub mod sink;
