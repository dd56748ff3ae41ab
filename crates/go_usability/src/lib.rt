//! Where a value may be used as one of a type: the relations of types and what a selector finds, each beside
//! the entries of the names that it reads.
#![tactic(auto)]

pub use go_const;
pub use go_types::go_selectors;

pub mod assignability;
pub mod comparison;
pub mod context;
pub mod conversions;
pub mod finding;
pub mod implementing;
pub mod matching;
pub mod operands;
mod table;
mod told;
pub mod usable;
mod worklist;
