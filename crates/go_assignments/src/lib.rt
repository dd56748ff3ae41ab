//! Whether simple statements are typed: calls and receives that stand alone, sends, assignments, steps, short variable
//! declarations, and the values of `return`.
#![tactic(auto)]

pub use go_asks;
pub use go_asks::go_expr;
pub use go_entries;

pub mod added;
pub mod alone;
pub mod assigned;
pub mod changed;
pub mod defined;
pub mod returned;
pub mod sent;
pub mod sides;
pub mod values;
