//! The parts of a statement, which have lower heights.
ghost use Rattle.std.specs.Prelude.{◌≡◌};
ghost use Rattle.go_cursor.specs.Reads.{Reads};
ghost use Rattle.go_stmt_lists.specs.Parts.{ReadsLower};
ghost use Rattle.go_stmt_descent.specs.Statements.{statements};
ghost use Rattle.go_syntax.specs.grammar.Terminals.{terminals};

use crate::parts::{StmtPart, StmtTree};
use go_cursor::cursor::Cursor;
use go_cursor::error::ParseError;
use go_stmt_descent::go_exprs::readers::Readers;
use go_stmt_parts::lower::Lower;
use go_syntax::held::statement::{HeldStmt, HeldStmts};

/// The readers of the parts of a statement.
#[derive(Clone, Copy)]
pub struct Level<F> {
    pub lower: Lower,
    pub below: F,
}

impl<F: Fn(Readers, &mut Cursor<'_>, StmtPart) -> Result<StmtTree, ParseError>> Level<F> {
    /// A statement.
    pub fn stmt(&self, tokens: &mut Cursor<'_>) -> Result<HeldStmt, ParseError>
        requires { ReadsLower self.now.lower.readers (F.pre self.now.below) (F.post self.now.below) }
        ensures { Reads ((statements self.now.lower.readers.height).stmt (terminals tokens.old)) result tokens.new }
    {
        match (self.below)(self.lower.readers, tokens, StmtPart::Stmt)? {
            StmtTree::Stmt(tree) => Ok(tree),
            _ => Err(ParseError::Syntax),
        }
    }

    /// A block.
    pub fn block(&self, tokens: &mut Cursor<'_>) -> Result<HeldStmts, ParseError>
        requires { ReadsLower self.now.lower.readers (F.pre self.now.below) (F.post self.now.below) }
        ensures { Reads ((statements self.now.lower.readers.height).block (terminals tokens.old)) result tokens.new }
    {
        match (self.below)(self.lower.readers, tokens, StmtPart::Block)? {
            StmtTree::Block(trees) => Ok(trees),
            _ => Err(ParseError::Syntax),
        }
    }

    /// The `if` or the block that follows `else`.
    pub fn branch(&self, tokens: &mut Cursor<'_>) -> Result<HeldStmt, ParseError>
        requires { ReadsLower self.now.lower.readers (F.pre self.now.below) (F.post self.now.below) }
        ensures { Reads ((statements self.now.lower.readers.height).branch (terminals tokens.old)) result tokens.new }
    {
        match (self.below)(self.lower.readers, tokens, StmtPart::Branch)? {
            StmtTree::Stmt(tree) => Ok(tree),
            _ => Err(ParseError::Syntax),
        }
    }
}
