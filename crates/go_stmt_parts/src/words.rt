//! Statements of a keyword that have no statements as parts.
ghost use Rattle.std.specs.Prelude.{◌≡◌};
ghost use Rattle.go_cursor.specs.Reads.{Reads};
ghost use Rattle.go_stmt_descent.specs.Statements as rules;
ghost use Rattle.go_syntax.specs.grammar.Terminals.{terminals};

use crate::lower::Lower;
use go_base::list::List;
use go_cursor::cursor::Cursor;
use go_cursor::error::ParseError;
use go_stmt_descent::go_parse::declarations::{const_group, var_group};
use go_stmt_descent::go_simple_stmts::simple::SimpleStmts;
use go_syntax::name::Name;
use go_syntax::statement::StmtKind;
use go_syntax::token::TokenKind;
use std::alloc::Global;

/// Whether a statement ends here.
pub fn ends_stmt(tokens: &Cursor<'_>) -> bool
    ensures { result ≡ rules.ends_stmt (terminals tokens.now) }
{
    if tokens.begins(TokenKind::Semicolon) {
        return true;
    }
    tokens.closes()
}

/// Whether a label is next.
#[tactic(auto, using(crate::proofs::LookAheads::no_label, crate::proofs::LookAheads::some_label))]
pub fn begins_label(tokens: &Cursor<'_>) -> bool
    ensures { result ≡ rules.begins_label (terminals tokens.now) }
{
    if !tokens.begins_name() {
        return false;
    }
    let mut ahead = tokens.fork();
    ahead.advance();
    ahead.begins(TokenKind::Colon)
}

/// A label that may be missing.
#[tactic(auto, unfolding(go_stmt_descent::specs::Statements::label))]
fn label(alloc: Global, tokens: &mut Cursor<'_>) -> Result<Option<Name>, ParseError>
    ensures { Reads (rules.label (terminals tokens.old)) result tokens.new }
{
    if !tokens.begins_name() {
        return Ok(None);
    }
    Ok(Some(tokens.name(alloc)?))
}

/// The readers of statements of a keyword that have no statements as parts.
#[derive(Clone, Copy)]
pub struct Words {
    pub lower: Lower,
}

impl Words {
    /// Constants, from behind `const` on.
    #[inline(never)]
    #[tactic(auto, unfolding(go_stmt_descent::specs::Statements::const_stmt))]
    pub fn const_stmt(&self, tokens: &mut Cursor<'_>) -> Result<StmtKind, ParseError>
        ensures { Reads (rules.const_stmt self.now.lower.readers.height (terminals tokens.old)) result tokens.new }
    {
        let readers = self.lower.whole();
        let specs = const_group(&readers, tokens)?;
        Ok(StmtKind::Const(specs.take()))
    }

    /// Variables, from behind `var` on.
    #[inline(never)]
    #[tactic(auto, unfolding(go_stmt_descent::specs::Statements::var_stmt))]
    pub fn var_stmt(&self, tokens: &mut Cursor<'_>) -> Result<StmtKind, ParseError>
        ensures { Reads (rules.var_stmt self.now.lower.readers.height (terminals tokens.old)) result tokens.new }
    {
        let readers = self.lower.whole();
        let specs = var_group(&readers, tokens)?;
        Ok(StmtKind::Var(specs.take()))
    }

    /// A `go`, from behind the keyword on.
    #[tactic(auto, unfolding(go_stmt_descent::specs::Statements::go_stmt))]
    pub fn go_stmt(&self, tokens: &mut Cursor<'_>) -> Result<StmtKind, ParseError>
        ensures { Reads (rules.go_stmt self.now.lower.readers.height (terminals tokens.old)) result tokens.new }
    {
        Ok(StmtKind::Go(self.lower.readers.expr(true, tokens)?))
    }

    /// A `defer`, from behind the keyword on.
    #[tactic(auto, unfolding(go_stmt_descent::specs::Statements::defer_stmt))]
    pub fn defer_stmt(&self, tokens: &mut Cursor<'_>) -> Result<StmtKind, ParseError>
        ensures { Reads (rules.defer_stmt self.now.lower.readers.height (terminals tokens.old)) result tokens.new }
    {
        Ok(StmtKind::Defer(self.lower.readers.expr(true, tokens)?))
    }

    /// A `return`, from behind the keyword on.
    #[inline(never)]
    #[tactic(auto, unfolding(go_stmt_descent::specs::Statements::return_stmt))]
    pub fn return_stmt(&self, tokens: &mut Cursor<'_>) -> Result<StmtKind, ParseError>
        ensures { Reads (rules.return_stmt self.now.lower.readers.height (terminals tokens.old)) result tokens.new }
    {
        if ends_stmt(tokens) {
            return Ok(StmtKind::Return(List::new(self.lower.readers.alloc)));
        }
        let simple = SimpleStmts {
            readers: self.lower.readers,
        };
        let values = simple.exprs(true, tokens)?;
        Ok(StmtKind::Return(values.take()))
    }

    /// A `break`, from behind the keyword on.
    #[inline(never)]
    #[tactic(auto, unfolding(go_stmt_descent::specs::Statements::break_stmt))]
    pub fn break_stmt(&self, tokens: &mut Cursor<'_>) -> Result<StmtKind, ParseError>
        ensures { Reads (rules.break_stmt (terminals tokens.old)) result tokens.new }
    {
        Ok(StmtKind::Break(label(self.lower.readers.alloc, tokens)?))
    }

    /// A `continue`, from behind the keyword on.
    #[inline(never)]
    #[tactic(auto, unfolding(go_stmt_descent::specs::Statements::continue_stmt))]
    pub fn continue_stmt(&self, tokens: &mut Cursor<'_>) -> Result<StmtKind, ParseError>
        ensures { Reads (rules.continue_stmt (terminals tokens.old)) result tokens.new }
    {
        Ok(StmtKind::Continue(label(self.lower.readers.alloc, tokens)?))
    }

    /// A `goto`, from behind the keyword on.
    #[inline(never)]
    #[tactic(auto, unfolding(go_stmt_descent::specs::Statements::goto_stmt))]
    pub fn goto_stmt(&self, tokens: &mut Cursor<'_>) -> Result<StmtKind, ParseError>
        ensures { Reads (rules.goto_stmt (terminals tokens.old)) result tokens.new }
    {
        Ok(StmtKind::Goto(tokens.name(self.lower.readers.alloc)?))
    }
}
