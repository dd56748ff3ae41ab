//! Which old and new types of two worlds have to correspond, for which exported object: the definitions, and
//! the pairs of types to which a pair leads.
#![tactic(auto)]

pub mod by_sel;
pub mod embedded;
pub mod leads;
pub mod levels;
pub mod matching;
mod members;
pub mod pair;
pub mod parts;
pub mod publics;
pub mod table;
