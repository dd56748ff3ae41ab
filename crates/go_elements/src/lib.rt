//! What indices, slice expressions, selectors and type assertions make of operands. Each answer is the operand
//! that the definition gives, or None where it gives none.
#![tactic(auto)]

pub use go_operators;
pub use go_operators::{go_const, go_usability};

pub mod arrays;
pub mod assertions;
pub mod elements;
pub mod indices;
pub mod selections;
pub mod slices;
pub mod strings;
