//! The readers of statements and blocks, for the crates above. The body of a function literal is skipped.
ghost use Rattle.std.specs.Prelude.{◌≡◌, Some};
ghost use Rattle.go_cursor.specs.Reads.{Reads};
ghost use Rattle.go_control_stmts.specs.go_stmt_lists.Parts.{ReadsLower, ReadsPart};
ghost use Rattle.go_stmt_descent.specs.Statements as rules;
ghost use Rattle.go_stmt_descent.specs.Statements.{statements};
ghost use Rattle.go_syntax.specs.grammar.Terminals.{terminals};

use crate::kinds::Kinds;
use go_base::list::List;
use go_control_stmts::go_stmt_lists::clauses::Clauses;
use go_control_stmts::go_stmt_lists::level::Level;
use go_control_stmts::go_stmt_lists::parts::{StmtPart, StmtTree};
use go_control_stmts::go_stmt_parts::lower::Lower;
use go_cursor::cursor::Cursor;
use go_cursor::error::ParseError;
use go_stmt_descent::go_exprs::readers::Readers;
use go_syntax::held::statement::{HeldStmt, HeldStmts};
use go_syntax::statement::{Stmt, StmtKind};
use go_syntax::token::TokenKind;

/// A statement without parts that this keyword or operator begins.
fn flat_of(readers: &Readers, tokens: &mut Cursor<'_>, sign: TokenKind) -> StmtKind
    ensures { Some (result, terminals tokens.new) ≡ rules.flat_of sign (terminals tokens.old) }
{
    match sign {
        TokenKind::ReturnWord => {
            tokens.advance();
            StmtKind::Return(List::new(readers.alloc))
        }
        TokenKind::BreakWord => {
            tokens.advance();
            StmtKind::Break(None)
        }
        TokenKind::ContinueWord => {
            tokens.advance();
            StmtKind::Continue(None)
        }
        TokenKind::FallthroughWord => {
            tokens.advance();
            StmtKind::Fallthrough
        }
        _ => StmtKind::Empty,
    }
}

/// A statement without parts.
#[tactic(auto, unfolding(go_stmt_descent::specs::Statements::flat_stmt))]
fn flat_stmt(readers: &Readers, tokens: &mut Cursor<'_>) -> Result<HeldStmt, ParseError>
    ensures { Reads (rules.flat_stmt (terminals tokens.old)) result tokens.new }
{
    let start = tokens.place();
    match tokens.sign() {
        None => Ok(HeldStmt::new(Stmt {
            start,
            kind: StmtKind::Empty,
        })),
        Some(sign) => {
            let kind = flat_of(readers, tokens, sign);
            Ok(HeldStmt::new(Stmt { start, kind }))
        }
    }
}

/// A part without parts of its own.
#[inline(never)]
pub(crate) fn flat_part(
    readers: &Readers,
    tokens: &mut Cursor<'_>,
    part: StmtPart,
) -> Result<StmtTree, ParseError>
    ensures { ReadsPart rules.flat_statements part (terminals tokens.old) result tokens.new }
{
    match part {
        StmtPart::Stmt => Ok(StmtTree::Stmt(flat_stmt(readers, tokens)?)),
        StmtPart::Block | StmtPart::Branch => Err(ParseError::Syntax),
    }
}

/// A part whose own parts are of lower heights.
pub(crate) fn part_at<F: Fn(Readers, &mut Cursor<'_>, StmtPart) -> Result<StmtTree, ParseError>>(
    level: &Level<F>,
    tokens: &mut Cursor<'_>,
    part: StmtPart,
) -> Result<StmtTree, ParseError>
    requires { ReadsLower level.now.lower.readers (F.pre level.now.below) (F.post level.now.below) }
    ensures { ReadsPart (rules.statements_over level.now.lower.readers.height (statements level.now.lower.readers.height)) part (terminals tokens.old) result tokens.new }
{
    match part {
        StmtPart::Stmt => Ok(StmtTree::Stmt(Kinds { level }.stmt(tokens)?)),
        StmtPart::Block => Ok(StmtTree::Block(Clauses { level }.block(tokens)?)),
        StmtPart::Branch => Ok(StmtTree::Stmt(Kinds { level }.branch(tokens)?)),
    }
}

/// A part of at most this height.
fn below(readers: Readers, tokens: &mut Cursor<'_>, part: StmtPart) -> Result<StmtTree, ParseError>
    ensures { ReadsPart (statements readers.height) part (terminals tokens.old) result tokens.new }
{
    if readers.height == 0 {
        return flat_part(&readers, tokens, part);
    }
    let lower = Lower {
        readers: Readers {
            alloc: readers.alloc,
            height: readers.height - 1,
        },
    };
    let level = Level { lower, below };
    part_at(&level, tokens, part)
}

/// The readers of statements and blocks of at most this height.
#[derive(Clone, Copy)]
pub struct Stmts {
    pub readers: Readers,
}

impl Stmts {
    /// A statement.
    pub fn stmt(&self, tokens: &mut Cursor<'_>) -> Result<HeldStmt, ParseError>
        ensures { Reads ((statements self.now.readers.height).stmt (terminals tokens.old)) result tokens.new }
    {
        match below(self.readers, tokens, StmtPart::Stmt)? {
            StmtTree::Stmt(tree) => Ok(tree),
            _ => Err(ParseError::Syntax),
        }
    }

    /// Statements in braces.
    pub fn block(&self, tokens: &mut Cursor<'_>) -> Result<HeldStmts, ParseError>
        ensures { Reads ((statements self.now.readers.height).block (terminals tokens.old)) result tokens.new }
    {
        match below(self.readers, tokens, StmtPart::Block)? {
            StmtTree::Block(trees) => Ok(trees),
            _ => Err(ParseError::Syntax),
        }
    }
}
