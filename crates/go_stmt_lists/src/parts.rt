//! What is read where a statement has a part of a lower height.
use go_syntax::held::statement::{HeldStmt, HeldStmts};

/// What is read where a statement has a part of a lower height that has statements itself.
#[derive(Clone, Copy)]
pub enum StmtPart {
    Stmt,
    Block,
    /// The `if` or the block that follows `else`.
    Branch,
}

/// The tree of a part.
#[derive(Drop)]
pub enum StmtTree {
    Stmt(HeldStmt),
    Block(HeldStmts),
}
