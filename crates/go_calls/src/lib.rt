//! What calls make of operands: calls of builtin functions, of types, and of functions, with arguments that are
//! operands. Each answer is the operand that the definition of the call gives, or None where it gives none.
#![tactic(auto)]

pub use go_elements;
pub use go_elements::{go_operators, go_usability};

mod append;
mod arguments;
pub mod builtins;
pub mod calls;
pub mod functions;
pub mod laws;
mod lengths;
mod makes;
