//! What operators and conversions make of operands. Each answer is the operand that the definition of the
//! operator gives, or None where it gives none.
#![tactic(auto)]

pub use go_usability;
pub use go_usability::go_const;

pub mod arithmetic;
pub mod comparisons;
pub mod conversions;
pub mod levels;
pub mod operands;
pub mod prefixes;
pub mod shifts;
pub mod values;
