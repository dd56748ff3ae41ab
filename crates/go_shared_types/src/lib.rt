//! Types that two tables share, and that they are kept for a client: the tables agree on a set of names that is closed under both.
#![tactic(auto)]

pub mod laws;
