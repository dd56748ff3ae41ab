//! What a package declares, as its files say: the first name that was declared before, and the first import that isn't found.
#![tactic(auto)]

mod known_names;
pub mod missing_imports;
pub mod redeclared;
