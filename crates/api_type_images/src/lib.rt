//! Laws of the images of types under the new names that pairs of types give: each new type is the image of the old one.
#![tactic(auto)]

pub mod laws;
