//! Statements by what they begin with.
ghost use Rattle.std.specs.Prelude.{◌≡◌};
ghost use Rattle.go_cursor.specs.Reads.{Reads};
ghost use Rattle.go_control_stmts.specs.go_stmt_lists.Parts.{ReadsLower};
ghost use Rattle.go_stmt_descent.specs.Statements as rules;
ghost use Rattle.go_stmt_descent.specs.Statements.{statements};
ghost use Rattle.go_syntax.specs.grammar.Terminals.{terminals};

use go_control_stmts::controls::Controls;
use go_control_stmts::go_stmt_lists::clauses::Clauses;
use go_control_stmts::go_stmt_lists::level::Level;
use go_control_stmts::go_stmt_lists::parts::{StmtPart, StmtTree};
use go_control_stmts::go_stmt_parts::words::{Words, begins_label, ends_stmt};
use go_cursor::cursor::Cursor;
use go_cursor::error::ParseError;
use go_stmt_descent::go_exprs::readers::Readers;
use go_stmt_descent::go_simple_stmts::simple::SimpleStmts;
use go_syntax::held::statement::{HeldStmt, boxed_stmt};
use go_syntax::statement::{Stmt, StmtKind};
use go_syntax::token::TokenKind;

/// The readers of statements, over the readers of their parts.
#[derive(Clone, Copy)]
pub struct Kinds<'a, F> {
    pub level: &'a Level<F>,
}

impl<'a, F: Fn(Readers, &mut Cursor<'_>, StmtPart) -> Result<StmtTree, ParseError>> Kinds<'a, F> {
    // A statement with a label.
    #[inline(never)]
    #[tactic(auto, unfolding(go_stmt_descent::specs::Statements::labeled))]
    fn labeled(&self, tokens: &mut Cursor<'_>) -> Result<StmtKind, ParseError>
        requires { ReadsLower self.now.level.now.lower.readers (F.pre self.now.level.now.below) (F.post self.now.level.now.below) }
        ensures { Reads (rules.labeled (statements self.now.level.now.lower.readers.height) (terminals tokens.old)) result tokens.new }
    {
        let name = tokens.name(self.level.lower.readers.alloc)?;
        tokens.expect(TokenKind::Colon)?;
        let stmt = self.level.stmt(tokens)?;
        let boxed = boxed_stmt(self.level.lower.readers.alloc, stmt.take())?;
        Ok(StmtKind::Labeled(name, boxed))
    }

    // A block as a statement.
    #[inline(never)]
    #[tactic(auto, unfolding(go_stmt_descent::specs::Statements::block_stmt))]
    fn block_stmt(&self, tokens: &mut Cursor<'_>) -> Result<StmtKind, ParseError>
        requires { ReadsLower self.now.level.now.lower.readers (F.pre self.now.level.now.below) (F.post self.now.level.now.below) }
        ensures { Reads (rules.block_stmt (statements self.now.level.now.lower.readers.height) (terminals tokens.old)) result tokens.new }
    {
        let block = Clauses { level: self.level }.block(tokens)?;
        Ok(StmtKind::Block(block.take()))
    }

    // A statement that no keyword and no `{` begins.
    #[inline(never)]
    #[tactic(auto, unfolding(go_stmt_descent::specs::Statements::plain))]
    fn plain(&self, tokens: &mut Cursor<'_>) -> Result<StmtKind, ParseError>
        requires { ReadsLower self.now.level.now.lower.readers (F.pre self.now.level.now.below) (F.post self.now.level.now.below) }
        ensures { Reads (rules.plain self.now.level.now.lower.readers.height (statements self.now.level.now.lower.readers.height) (terminals tokens.old)) result tokens.new }
    {
        if begins_label(tokens) {
            return self.labeled(tokens);
        }
        if ends_stmt(tokens) {
            return Ok(StmtKind::Empty);
        }
        let simple = SimpleStmts {
            readers: self.level.lower.readers,
        };
        simple.simple(true, tokens)
    }

    // A statement that this keyword or operator begins.
    fn kind_of(&self, tokens: &mut Cursor<'_>, sign: TokenKind) -> Result<StmtKind, ParseError>
        requires { ReadsLower self.now.level.now.lower.readers (F.pre self.now.level.now.below) (F.post self.now.level.now.below) }
        ensures { Reads (rules.kind_of self.now.level.now.lower.readers.height (statements self.now.level.now.lower.readers.height) sign (terminals tokens.old)) result tokens.new }
    {
        let words = Words {
            lower: self.level.lower,
        };
        match sign {
            TokenKind::ConstWord => {
                tokens.advance();
                words.const_stmt(tokens)
            }
            TokenKind::VarWord => {
                tokens.advance();
                words.var_stmt(tokens)
            }
            TokenKind::GoWord => {
                tokens.advance();
                words.go_stmt(tokens)
            }
            TokenKind::DeferWord => {
                tokens.advance();
                words.defer_stmt(tokens)
            }
            TokenKind::ReturnWord => {
                tokens.advance();
                words.return_stmt(tokens)
            }
            TokenKind::BreakWord => {
                tokens.advance();
                words.break_stmt(tokens)
            }
            TokenKind::ContinueWord => {
                tokens.advance();
                words.continue_stmt(tokens)
            }
            TokenKind::GotoWord => {
                tokens.advance();
                words.goto_stmt(tokens)
            }
            TokenKind::FallthroughWord => {
                tokens.advance();
                Ok(StmtKind::Fallthrough)
            }
            TokenKind::LeftBrace => self.block_stmt(tokens),
            TokenKind::IfWord => {
                tokens.advance();
                Controls { level: self.level }.if_of(tokens)
            }
            TokenKind::SwitchWord => {
                tokens.advance();
                Controls { level: self.level }.switch_of(tokens)
            }
            TokenKind::SelectWord => {
                tokens.advance();
                Controls { level: self.level }.select_of(tokens)
            }
            TokenKind::ForWord => {
                tokens.advance();
                Controls { level: self.level }.for_of(tokens)
            }
            _ => self.plain(tokens),
        }
    }

    // A statement by the keyword or the operator that is next.
    fn kind_by(
        &self,
        tokens: &mut Cursor<'_>,
        sign: Option<TokenKind>,
    ) -> Result<StmtKind, ParseError>
        requires { ReadsLower self.now.level.now.lower.readers (F.pre self.now.level.now.below) (F.post self.now.level.now.below) }
        ensures { Reads (rules.kind_by self.now.level.now.lower.readers.height (statements self.now.level.now.lower.readers.height) sign (terminals tokens.old)) result tokens.new }
    {
        match sign {
            None => self.plain(tokens),
            Some(sign) => self.kind_of(tokens, sign),
        }
    }

    /// A statement.
    #[inline(never)]
    #[tactic(auto, unfolding(go_stmt_descent::specs::Statements::stmt_of))]
    pub fn stmt(&self, tokens: &mut Cursor<'_>) -> Result<HeldStmt, ParseError>
        requires { ReadsLower self.now.level.now.lower.readers (F.pre self.now.level.now.below) (F.post self.now.level.now.below) }
        ensures { Reads (rules.stmt_of self.now.level.now.lower.readers.height (statements self.now.level.now.lower.readers.height) (terminals tokens.old)) result tokens.new }
    {
        let start = tokens.place();
        let sign = tokens.sign();
        let kind = self.kind_by(tokens, sign)?;
        Ok(HeldStmt::new(Stmt { start, kind }))
    }

    /// The `if` or the block that follows `else`.
    #[inline(never)]
    #[tactic(auto, unfolding(go_stmt_descent::specs::Statements::branch_of))]
    pub fn branch(&self, tokens: &mut Cursor<'_>) -> Result<HeldStmt, ParseError>
        requires { ReadsLower self.now.level.now.lower.readers (F.pre self.now.level.now.below) (F.post self.now.level.now.below) }
        ensures { Reads (rules.branch_of self.now.level.now.lower.readers.height (statements self.now.level.now.lower.readers.height) (terminals tokens.old)) result tokens.new }
    {
        let start = tokens.place();
        if tokens.begins(TokenKind::IfWord) {
            tokens.advance();
            let kind = Controls { level: self.level }.if_of(tokens)?;
            return Ok(HeldStmt::new(Stmt { start, kind }));
        }
        let kind = self.block_stmt(tokens)?;
        Ok(HeldStmt::new(Stmt { start, kind }))
    }
}
