//! What a client of the profile keeps of its types where one version of what it imports takes the place of another: the definitions,
//! and what is proved of types and type forms.
#![tactic(auto)]

pub mod laws;
