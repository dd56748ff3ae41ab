//! Constants of inexact types, and what Go may take as a constant.
#![tactic(auto)]

mod chains;
pub mod constants;
mod conversions;
mod maybe;
mod operated;
mod values;
