//! Archives of cases of the whole gate: their form, what a case expects, the stores and sinks in memory that it names,
//! and how a run that ended differs from what is expected. `README.md` in `crates/cases/data` tells the form.
#![tactic(auto)]

pub mod archive;
pub mod compare;
pub mod content;
mod counted;
pub mod ending;
mod escape;
pub mod failing;
mod heading;
pub mod load;
mod made;
pub mod outline;
pub mod tries;
pub mod wanted;
pub mod words;
