//! What the programs for conformance share: frames of a source with a question, escapes for bytes, and
//! why such a program stops.
#![tactic(auto)]

pub mod escape;
pub mod fault;
pub mod frame;
