//! Checks a package: its typing, or the first thing for which it is refused.
#![tactic(auto)]

pub use go_left_out;
pub use go_new_scopes;
pub use go_package_entries;

mod answer;
pub mod check;
pub mod checked;
pub mod declarations;
mod entered;
pub mod error;
mod kept;
mod lost;
mod whole;
