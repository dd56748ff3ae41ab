//! `if`, `switch`, `select` and `for`.
ghost use Rattle.std.specs.Prelude.{◌≡◌};
ghost use Rattle.go_cursor.specs.Reads.{Reads};
ghost use Rattle.go_stmt_lists.specs.Parts.{ReadsLower};
ghost use Rattle.go_stmt_descent.specs.Statements as rules;
ghost use Rattle.go_stmt_descent.specs.Statements.{statements};
ghost use Rattle.go_syntax.specs.grammar.Terminals.{terminals};

use go_cursor::cursor::Cursor;
use go_cursor::error::ParseError;
use go_cursor::names::names;
use go_stmt_descent::go_exprs::readers::Readers;
use go_stmt_descent::go_simple_stmts::simple::SimpleStmts;
use go_stmt_descent::headers::ForHeader;
use go_stmt_lists::clauses::Clauses;
use go_stmt_lists::go_stmt_parts::guards::{binding, guard_end};
use go_stmt_lists::go_stmt_parts::headers::Headers;
use go_stmt_lists::level::Level;
use go_stmt_lists::parts::{StmtPart, StmtTree};
use go_syntax::expression::Expr;
use go_syntax::held::expression::HeldExpr;
use go_syntax::held::statement::HeldOptionalStmt;
use go_syntax::statement::StmtKind;
use go_syntax::token::TokenKind;

/// The expression that is held, if there is one.
fn taken(held: Option<HeldExpr>) -> Option<Expr>
    ensures { result ≡ held }
{
    match held {
        None => None,
        Some(expr) => Some(expr.take()),
    }
}

/// The readers of statements with blocks, over the readers of a statement's parts.
#[derive(Clone, Copy)]
pub struct Controls<'a, F> {
    pub level: &'a Level<F>,
}

impl<'a, F: Fn(Readers, &mut Cursor<'_>, StmtPart) -> Result<StmtTree, ParseError>> Controls<
    'a,
    F,
> {
    // `else` and what follows it, which may be missing.
    #[tactic(auto, unfolding(go_stmt_descent::specs::Statements::else_of))]
    fn else_of(&self, tokens: &mut Cursor<'_>) -> Result<HeldOptionalStmt, ParseError>
        requires { ReadsLower self.now.level.now.lower.readers (F.pre self.now.level.now.below) (F.post self.now.level.now.below) }
        ensures { Reads (rules.else_of (statements self.now.level.now.lower.readers.height) (terminals tokens.old)) result tokens.new }
    {
        if !tokens.begins(TokenKind::ElseWord) {
            return Ok(HeldOptionalStmt::none());
        }
        tokens.advance();
        let branch = self.level.branch(tokens)?;
        Ok(HeldOptionalStmt::new(self.level.lower.readers.alloc, branch.take())?)
    }

    /// An `if`, from behind the keyword on.
    #[tactic(auto, unfolding(go_stmt_descent::specs::Statements::if_of))]
    pub fn if_of(&self, tokens: &mut Cursor<'_>) -> Result<StmtKind, ParseError>
        requires { ReadsLower self.now.level.now.lower.readers (F.pre self.now.level.now.below) (F.post self.now.level.now.below) }
        ensures { Reads (rules.if_of self.now.level.now.lower.readers.height (statements self.now.level.now.lower.readers.height) (terminals tokens.old)) result tokens.new }
    {
        let headers = Headers {
            readers: self.level.lower.readers,
        };
        let init = headers.if_init(tokens)?;
        let condition = HeldExpr::new(self.level.lower.readers.expr(false, tokens)?);
        let block = self.level.block(tokens)?;
        let other = self.else_of(tokens)?;
        Ok(StmtKind::If(init.take(), condition.take(), block.take(), other.take()))
    }

    // A `switch` behind the statement before its tag.
    #[inline(never)]
    #[tactic(auto, unfolding(go_stmt_descent::specs::Statements::value_switch, go_cursor::specs::Reading::close, go_cursor::specs::Reading::expect))]
    fn value_switch(
        &self,
        tokens: &mut Cursor<'_>,
        init: HeldOptionalStmt,
    ) -> Result<StmtKind, ParseError>
        requires { ReadsLower self.now.level.now.lower.readers (F.pre self.now.level.now.below) (F.post self.now.level.now.below) }
        ensures { Reads (rules.value_switch self.now.level.now.lower.readers.height (statements self.now.level.now.lower.readers.height) init (terminals tokens.old)) result tokens.new }
    {
        let headers = Headers {
            readers: self.level.lower.readers,
        };
        let tag = headers.optional_before(TokenKind::LeftBrace, tokens)?;
        tokens.expect(TokenKind::LeftBrace)?;
        let cases = Clauses { level: self.level }.cases(tokens)?;
        tokens.expect(TokenKind::RightBrace)?;
        Ok(StmtKind::Switch(init.take(), taken(tag), cases.take()))
    }

    // A type switch behind the statement before its guard.
    #[inline(never)]
    #[tactic(auto, unfolding(go_stmt_descent::specs::Statements::type_switch, go_cursor::specs::Reading::close, go_cursor::specs::Reading::expect))]
    fn type_switch(
        &self,
        tokens: &mut Cursor<'_>,
        init: HeldOptionalStmt,
    ) -> Result<StmtKind, ParseError>
        requires { ReadsLower self.now.level.now.lower.readers (F.pre self.now.level.now.below) (F.post self.now.level.now.below) }
        ensures { Reads (rules.type_switch self.now.level.now.lower.readers.height (statements self.now.level.now.lower.readers.height) init (terminals tokens.old)) result tokens.new }
    {
        let name = binding(self.level.lower.readers.alloc, tokens)?;
        let operand = HeldExpr::new(self.level.lower.readers.primary_expr(false, tokens)?);
        guard_end(tokens)?;
        let cases = Clauses { level: self.level }.type_cases(tokens)?;
        tokens.expect(TokenKind::RightBrace)?;
        Ok(StmtKind::TypeSwitch(init.take(), name, operand.take(), cases.take()))
    }

    // A switch behind the statement before its tag or its guard.
    #[tactic(auto, unfolding(go_stmt_descent::specs::Statements::switch_end))]
    fn switch_end(
        &self,
        tokens: &mut Cursor<'_>,
        init: HeldOptionalStmt,
    ) -> Result<StmtKind, ParseError>
        requires { ReadsLower self.now.level.now.lower.readers (F.pre self.now.level.now.below) (F.post self.now.level.now.below) }
        ensures { Reads (rules.switch_end self.now.level.now.lower.readers.height (statements self.now.level.now.lower.readers.height) init (terminals tokens.old)) result tokens.new }
    {
        let headers = Headers {
            readers: self.level.lower.readers,
        };
        if headers.begins_guard(tokens)? {
            return self.type_switch(tokens, init);
        }
        self.value_switch(tokens, init)
    }

    /// A switch, from behind the keyword on.
    #[tactic(auto, unfolding(go_stmt_descent::specs::Statements::switch_of))]
    pub fn switch_of(&self, tokens: &mut Cursor<'_>) -> Result<StmtKind, ParseError>
        requires { ReadsLower self.now.level.now.lower.readers (F.pre self.now.level.now.below) (F.post self.now.level.now.below) }
        ensures { Reads (rules.switch_of self.now.level.now.lower.readers.height (statements self.now.level.now.lower.readers.height) (terminals tokens.old)) result tokens.new }
    {
        let headers = Headers {
            readers: self.level.lower.readers,
        };
        let init = headers.switch_init(tokens)?;
        self.switch_end(tokens, init)
    }

    /// A `select`, from behind the keyword on.
    #[tactic(auto, unfolding(go_stmt_descent::specs::Statements::select_of, go_cursor::specs::Reading::close, go_cursor::specs::Reading::expect))]
    pub fn select_of(&self, tokens: &mut Cursor<'_>) -> Result<StmtKind, ParseError>
        requires { ReadsLower self.now.level.now.lower.readers (F.pre self.now.level.now.below) (F.post self.now.level.now.below) }
        ensures { Reads (rules.select_of self.now.level.now.lower.readers.height (statements self.now.level.now.lower.readers.height) (terminals tokens.old)) result tokens.new }
    {
        tokens.expect(TokenKind::LeftBrace)?;
        let cases = Clauses { level: self.level }.select_cases(tokens)?;
        tokens.expect(TokenKind::RightBrace)?;
        Ok(StmtKind::Select(cases.take()))
    }

    // A `for` with a condition alone, or none.
    #[inline(never)]
    #[tactic(auto, unfolding(go_stmt_descent::specs::Statements::while_of))]
    fn while_of(&self, tokens: &mut Cursor<'_>) -> Result<StmtKind, ParseError>
        requires { ReadsLower self.now.level.now.lower.readers (F.pre self.now.level.now.below) (F.post self.now.level.now.below) }
        ensures { Reads (rules.while_of self.now.level.now.lower.readers.height (statements self.now.level.now.lower.readers.height) (terminals tokens.old)) result tokens.new }
    {
        let headers = Headers {
            readers: self.level.lower.readers,
        };
        let condition = headers.optional_before(TokenKind::LeftBrace, tokens)?;
        let block = self.level.block(tokens)?;
        Ok(StmtKind::While(taken(condition), block.take()))
    }

    // A `for` with semicolons.
    #[inline(never)]
    #[tactic(auto, unfolding(go_stmt_descent::specs::Statements::for_clauses))]
    fn for_clauses(&self, tokens: &mut Cursor<'_>) -> Result<StmtKind, ParseError>
        requires { ReadsLower self.now.level.now.lower.readers (F.pre self.now.level.now.below) (F.post self.now.level.now.below) }
        ensures { Reads (rules.for_clauses self.now.level.now.lower.readers.height (statements self.now.level.now.lower.readers.height) (terminals tokens.old)) result tokens.new }
    {
        let headers = Headers {
            readers: self.level.lower.readers,
        };
        let init = headers.clause_before(TokenKind::Semicolon, tokens)?;
        tokens.expect(TokenKind::Semicolon)?;
        let condition = headers.optional_before(TokenKind::Semicolon, tokens)?;
        tokens.expect(TokenKind::Semicolon)?;
        let post = headers.clause_before(TokenKind::LeftBrace, tokens)?;
        let block = self.level.block(tokens)?;
        Ok(StmtKind::For(init.take(), taken(condition), post.take(), block.take()))
    }

    // A `for` over a range alone.
    #[inline(never)]
    #[tactic(auto, unfolding(go_stmt_descent::specs::Statements::range_of))]
    fn range_of(&self, tokens: &mut Cursor<'_>) -> Result<StmtKind, ParseError>
        requires { ReadsLower self.now.level.now.lower.readers (F.pre self.now.level.now.below) (F.post self.now.level.now.below) }
        ensures { Reads (rules.range_of self.now.level.now.lower.readers.height (statements self.now.level.now.lower.readers.height) (terminals tokens.old)) result tokens.new }
    {
        tokens.expect(TokenKind::RangeWord)?;
        let operand = HeldExpr::new(self.level.lower.readers.expr(false, tokens)?);
        let block = self.level.block(tokens)?;
        Ok(StmtKind::Range(operand.take(), block.take()))
    }

    // A `for` that assigns what it ranges over.
    #[inline(never)]
    #[tactic(auto, unfolding(go_stmt_descent::specs::Statements::range_assign))]
    fn range_assign(&self, tokens: &mut Cursor<'_>) -> Result<StmtKind, ParseError>
        requires { ReadsLower self.now.level.now.lower.readers (F.pre self.now.level.now.below) (F.post self.now.level.now.below) }
        ensures { Reads (rules.range_assign self.now.level.now.lower.readers.height (statements self.now.level.now.lower.readers.height) (terminals tokens.old)) result tokens.new }
    {
        let simple = SimpleStmts {
            readers: self.level.lower.readers,
        };
        let sides = simple.exprs(false, tokens)?;
        tokens.expect(TokenKind::Assign)?;
        tokens.expect(TokenKind::RangeWord)?;
        let operand = HeldExpr::new(self.level.lower.readers.expr(false, tokens)?);
        let block = self.level.block(tokens)?;
        Ok(StmtKind::RangeAssign(sides.take(), operand.take(), block.take()))
    }

    // A `for` that declares what it ranges over.
    #[inline(never)]
    #[tactic(auto, unfolding(go_stmt_descent::specs::Statements::range_define))]
    fn range_define(&self, tokens: &mut Cursor<'_>) -> Result<StmtKind, ParseError>
        requires { ReadsLower self.now.level.now.lower.readers (F.pre self.now.level.now.below) (F.post self.now.level.now.below) }
        ensures { Reads (rules.range_define self.now.level.now.lower.readers.height (statements self.now.level.now.lower.readers.height) (terminals tokens.old)) result tokens.new }
    {
        let declared = names(self.level.lower.readers.alloc, tokens)?;
        tokens.expect(TokenKind::Define)?;
        tokens.expect(TokenKind::RangeWord)?;
        let operand = HeldExpr::new(self.level.lower.readers.expr(false, tokens)?);
        let block = self.level.block(tokens)?;
        Ok(StmtKind::RangeDefine(declared, operand.take(), block.take()))
    }

    // A `for` with this header.
    fn for_by(&self, tokens: &mut Cursor<'_>, header: ForHeader) -> Result<StmtKind, ParseError>
        requires { ReadsLower self.now.level.now.lower.readers (F.pre self.now.level.now.below) (F.post self.now.level.now.below) }
        ensures { Reads (rules.for_by self.now.level.now.lower.readers.height (statements self.now.level.now.lower.readers.height) header (terminals tokens.old)) result tokens.new }
    {
        match header {
            ForHeader::Condition => self.while_of(tokens),
            ForHeader::Range => self.range_of(tokens),
            ForHeader::RangeAssign => self.range_assign(tokens),
            ForHeader::RangeDefine => self.range_define(tokens),
            ForHeader::Clauses => self.for_clauses(tokens),
        }
    }

    /// A `for`, from behind the keyword on.
    #[tactic(auto, unfolding(go_stmt_descent::specs::Statements::for_of))]
    pub fn for_of(&self, tokens: &mut Cursor<'_>) -> Result<StmtKind, ParseError>
        requires { ReadsLower self.now.level.now.lower.readers (F.pre self.now.level.now.below) (F.post self.now.level.now.below) }
        ensures { Reads (rules.for_of self.now.level.now.lower.readers.height (statements self.now.level.now.lower.readers.height) (terminals tokens.old)) result tokens.new }
    {
        let headers = Headers {
            readers: self.level.lower.readers,
        };
        let header = headers.for_header(tokens)?;
        self.for_by(tokens, header)
    }
}
