//! Feature lines, and one list of them for several platforms.
#![tactic(auto)]

pub mod at_paths;
pub mod copies;
pub mod join;
pub mod line;
pub mod lines;
pub mod merge;
mod order;
mod ordered;
mod package_lines;
mod part;
mod place;
pub mod platform_lines;
pub mod printed;
mod split;
pub mod texts;
