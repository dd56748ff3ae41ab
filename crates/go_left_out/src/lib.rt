//! Which declarations of a package are left out, and why.
#![tactic(auto)]

pub use go_import_uses;

mod causes;
pub mod places;
pub mod skipped;
pub mod told;
pub mod wrong;
