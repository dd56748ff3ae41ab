//! Laws of what compatible worlds keep of the types of owned pairs: what is underneath, fields and methods.
#![tactic(auto)]

pub mod laws;
