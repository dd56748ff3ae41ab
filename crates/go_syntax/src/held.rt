//! Trees in the making. What reads a file keeps what it has read in these while it goes on, and
//! takes it out at the end: where reading fails, giving the tree up is a call of a `drop` that is
//! written and proved here, so that a crate that builds trees proves no drops of its own. The
//! functions that box a tree or append one stand here for the same reason.
pub mod declaration;
pub mod expression;
pub mod statement;
pub mod types;
mod whole;
