//! The texts of reports.
#![tactic(auto)]

pub mod clients;
pub mod left_out;
pub mod made;
pub mod reports;
pub mod verdicts;
pub mod versions;
