//! What a run decides, the reports of the modes, and how both reach the sinks.

pub mod advice;
pub mod decision;
pub mod deliver;
mod gating;
mod joining;
mod judging;
mod listing;
mod making;
pub mod report;
pub mod vetting;
