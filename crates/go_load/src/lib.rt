//! Reading trees of Go files from a store: the module's `go.mod`, the walk over the folders, and the
//! limits of what is read.
#![tactic(auto)]

mod counts;
pub mod error;
mod go_mod;
pub mod kind;
pub mod laws;
pub mod load;
pub mod names;
mod reads;
mod walk;
