//! Laws of pairs of types that have to correspond: they are finitely many.
#![tactic(auto)]

pub mod laws;
