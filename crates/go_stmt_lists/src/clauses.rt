//! Lists of statements: blocks, and the clauses of `switch` and `select`.
ghost use Rattle.std.specs.Prelude.{◌≡◌, Some};
ghost use Rattle.go_cursor.specs.Reading.{bind, ended, run, step_of};
ghost use Rattle.go_cursor.specs.Reads.{Reads, ReadsNext};
ghost use Rattle.go_stmt_descent.specs.Communications as waits;
ghost use Rattle.go_stmt_lists.specs.Parts.{ReadsLower};
ghost use Rattle.go_stmt_descent.specs.Statements as rules;
ghost use Rattle.go_stmt_descent.specs.Statements.{statements};
ghost use Rattle.go_syntax.specs.grammar.Statements.{start_of, statement};
ghost use Rattle.go_syntax.specs.grammar.Terminals.{terminals};

use crate::level::Level;
use crate::parts::{StmtPart, StmtTree};
use go_cursor::cursor::Cursor;
use go_cursor::error::ParseError;
use go_stmt_descent::go_exprs::readers::Readers;
use go_stmt_descent::go_simple_stmts::simple::SimpleStmts;
use go_stmt_parts::communications::communication_at;
use go_stmt_parts::type_lists::types;
use go_syntax::held::statement::{
    HeldCases, HeldSelectCases, HeldStmt, HeldStmts, HeldTypeCases, boxed_stmt,
};
use go_syntax::statement::{Case, SelectCase, Stmt, TypeCase};
use go_syntax::token::TokenKind;

/// Whether the statements of a block or a clause end here.
pub fn stops(tokens: &Cursor<'_>) -> bool
    ensures { result ≡ rules.stops (terminals tokens.now) }
{
    if tokens.closes() {
        return true;
    }
    if tokens.begins(TokenKind::CaseWord) {
        return true;
    }
    tokens.begins(TokenKind::DefaultWord)
}

/// The readers of lists of statements, over the readers of a statement's parts.
#[derive(Clone, Copy)]
pub struct Clauses<'a, F> {
    pub level: &'a Level<F>,
}

impl<'a, F: Fn(Readers, &mut Cursor<'_>, StmtPart) -> Result<StmtTree, ParseError>> Clauses<'a, F> {
    // A statement and its end.
    #[tactic(auto, unfolding(go_cursor::specs::Reading::ended))]
    fn ended_stmt(&self, tokens: &mut Cursor<'_>) -> Result<Stmt, ParseError>
        requires { ReadsLower self.now.level.now.lower.readers (F.pre self.now.level.now.below) (F.post self.now.level.now.below) }
        ensures { Reads (bind ((statements self.now.level.now.lower.readers.height).stmt (terminals tokens.old)) ended) result tokens.new }
    {
        let stmt = self.level.stmt(tokens)?;
        tokens.ended()?;
        Ok(stmt.take())
    }

    // A statement and its end, if one stands here.
    #[tactic(auto, unfolding(go_stmt_descent::specs::Statements::stmt_item))]
    fn stmt_item(&self, tokens: &mut Cursor<'_>) -> Result<Option<Stmt>, ParseError>
        requires { ReadsLower self.now.level.now.lower.readers (F.pre self.now.level.now.below) (F.post self.now.level.now.below) }
        ensures { ReadsNext (rules.stmt_item (statements self.now.level.now.lower.readers.height).stmt (terminals tokens.old)) (terminals tokens.old) result tokens.new }
    {
        if stops(tokens) {
            return Ok(None);
        }
        Ok(Some(self.ended_stmt(tokens)?))
    }

    /// The statements up to the end of a block or a clause.
    pub fn stmts(&self, tokens: &mut Cursor<'_>) -> Result<HeldStmts, ParseError>
        requires { ReadsLower self.now.level.now.lower.readers (F.pre self.now.level.now.below) (F.post self.now.level.now.below) }
        ensures { Reads (rules.stmts (statements self.now.level.now.lower.readers.height).stmt (terminals tokens.old)) result tokens.new }
    {
        let mut stmts = HeldStmts::new(self.level.lower.readers.alloc);
        for _turn in 0..tokens.len() {
            match self.stmt_item(tokens)? {
                None => return Ok(stmts),
                Some(stmt) => stmts.push(stmt)?,
            }
        }
        Ok(stmts)
    }

    /// Statements in braces.
    #[tactic(auto, unfolding(go_stmt_descent::specs::Statements::block_of, go_cursor::specs::Reading::close, go_cursor::specs::Reading::expect))]
    pub fn block(&self, tokens: &mut Cursor<'_>) -> Result<HeldStmts, ParseError>
        requires { ReadsLower self.now.level.now.lower.readers (F.pre self.now.level.now.below) (F.post self.now.level.now.below) }
        ensures { Reads (rules.block_of (statements self.now.level.now.lower.readers.height).stmt (terminals tokens.old)) result tokens.new }
    {
        tokens.expect(TokenKind::LeftBrace)?;
        let stmts = self.stmts(tokens)?;
        tokens.expect(TokenKind::RightBrace)?;
        Ok(stmts)
    }

    // The statements of a clause, from `:` on.
    #[tactic(auto, unfolding(go_stmt_descent::specs::Statements::clause_body, go_cursor::specs::Reading::expect))]
    fn body(&self, tokens: &mut Cursor<'_>) -> Result<HeldStmts, ParseError>
        requires { ReadsLower self.now.level.now.lower.readers (F.pre self.now.level.now.below) (F.post self.now.level.now.below) }
        ensures { Reads (rules.clause_body (statements self.now.level.now.lower.readers.height).stmt (terminals tokens.old)) result tokens.new }
    {
        tokens.expect(TokenKind::Colon)?;
        self.stmts(tokens)
    }

    // A clause with values, from behind `case` on.
    #[tactic(auto, unfolding(go_stmt_descent::specs::Statements::values_case))]
    fn values_case(&self, tokens: &mut Cursor<'_>) -> Result<Case, ParseError>
        requires { ReadsLower self.now.level.now.lower.readers (F.pre self.now.level.now.below) (F.post self.now.level.now.below) }
        ensures { Reads (rules.values_case self.now.level.now.lower.readers.height (statements self.now.level.now.lower.readers.height).stmt (terminals tokens.old)) result tokens.new }
    {
        let simple = SimpleStmts {
            readers: self.level.lower.readers,
        };
        let values = simple.exprs(true, tokens)?;
        let body = self.body(tokens)?;
        Ok(Case {
            values: Some(values.take()),
            body: body.take(),
        })
    }

    // A clause without values, from behind `default` on.
    #[inline(never)]
    #[tactic(auto, unfolding(go_stmt_descent::specs::Statements::default_case))]
    fn default_case(&self, tokens: &mut Cursor<'_>) -> Result<Case, ParseError>
        requires { ReadsLower self.now.level.now.lower.readers (F.pre self.now.level.now.below) (F.post self.now.level.now.below) }
        ensures { Reads (rules.default_case (statements self.now.level.now.lower.readers.height).stmt (terminals tokens.old)) result tokens.new }
    {
        let body = self.body(tokens)?;
        Ok(Case {
            values: None,
            body: body.take(),
        })
    }

    // A clause of a `switch`, if one stands here.
    #[tactic(auto, unfolding(go_stmt_descent::specs::Statements::case_item))]
    fn case_item(&self, tokens: &mut Cursor<'_>) -> Result<Option<Case>, ParseError>
        requires { ReadsLower self.now.level.now.lower.readers (F.pre self.now.level.now.below) (F.post self.now.level.now.below) }
        ensures { ReadsNext (rules.case_item self.now.level.now.lower.readers.height (statements self.now.level.now.lower.readers.height).stmt (terminals tokens.old)) (terminals tokens.old) result tokens.new }
    {
        if tokens.begins(TokenKind::CaseWord) {
            tokens.advance();
            return Ok(Some(self.values_case(tokens)?));
        }
        if tokens.begins(TokenKind::DefaultWord) {
            tokens.advance();
            return Ok(Some(self.default_case(tokens)?));
        }
        Ok(None)
    }

    /// The clauses of a `switch`.
    pub fn cases(&self, tokens: &mut Cursor<'_>) -> Result<HeldCases, ParseError>
        requires { ReadsLower self.now.level.now.lower.readers (F.pre self.now.level.now.below) (F.post self.now.level.now.below) }
        ensures { Reads (rules.cases self.now.level.now.lower.readers.height (statements self.now.level.now.lower.readers.height).stmt (terminals tokens.old)) result tokens.new }
    {
        let mut cases = HeldCases::new(self.level.lower.readers.alloc);
        for _turn in 0..tokens.len() {
            match self.case_item(tokens)? {
                None => return Ok(cases),
                Some(case) => cases.push(case)?,
            }
        }
        Ok(cases)
    }

    // A clause with types, from behind `case` on.
    #[tactic(auto, unfolding(go_stmt_descent::specs::Statements::types_case))]
    fn types_case(&self, tokens: &mut Cursor<'_>) -> Result<TypeCase, ParseError>
        requires { ReadsLower self.now.level.now.lower.readers (F.pre self.now.level.now.below) (F.post self.now.level.now.below) }
        ensures { Reads (rules.types_case self.now.level.now.lower.readers.height (statements self.now.level.now.lower.readers.height).stmt (terminals tokens.old)) result tokens.new }
    {
        let types = types(&self.level.lower.readers, tokens)?;
        let body = self.body(tokens)?;
        Ok(TypeCase {
            types: Some(types.take()),
            body: body.take(),
        })
    }

    // A clause without types, from behind `default` on.
    #[inline(never)]
    #[tactic(auto, unfolding(go_stmt_descent::specs::Statements::default_type_case))]
    fn default_type_case(&self, tokens: &mut Cursor<'_>) -> Result<TypeCase, ParseError>
        requires { ReadsLower self.now.level.now.lower.readers (F.pre self.now.level.now.below) (F.post self.now.level.now.below) }
        ensures { Reads (rules.default_type_case (statements self.now.level.now.lower.readers.height).stmt (terminals tokens.old)) result tokens.new }
    {
        let body = self.body(tokens)?;
        Ok(TypeCase {
            types: None,
            body: body.take(),
        })
    }

    // A clause of a type switch, if one stands here.
    #[tactic(auto, unfolding(go_stmt_descent::specs::Statements::type_case_item))]
    fn type_case_item(&self, tokens: &mut Cursor<'_>) -> Result<Option<TypeCase>, ParseError>
        requires { ReadsLower self.now.level.now.lower.readers (F.pre self.now.level.now.below) (F.post self.now.level.now.below) }
        ensures { ReadsNext (rules.type_case_item self.now.level.now.lower.readers.height (statements self.now.level.now.lower.readers.height).stmt (terminals tokens.old)) (terminals tokens.old) result tokens.new }
    {
        if tokens.begins(TokenKind::CaseWord) {
            tokens.advance();
            return Ok(Some(self.types_case(tokens)?));
        }
        if tokens.begins(TokenKind::DefaultWord) {
            tokens.advance();
            return Ok(Some(self.default_type_case(tokens)?));
        }
        Ok(None)
    }

    /// The clauses of a type switch.
    pub fn type_cases(&self, tokens: &mut Cursor<'_>) -> Result<HeldTypeCases, ParseError>
        requires { ReadsLower self.now.level.now.lower.readers (F.pre self.now.level.now.below) (F.post self.now.level.now.below) }
        ensures { Reads (rules.type_cases self.now.level.now.lower.readers.height (statements self.now.level.now.lower.readers.height).stmt (terminals tokens.old)) result tokens.new }
    {
        let mut cases = HeldTypeCases::new(self.level.lower.readers.alloc);
        for _turn in 0..tokens.len() {
            match self.type_case_item(tokens)? {
                None => return Ok(cases),
                Some(case) => cases.push(case)?,
            }
        }
        Ok(cases)
    }

    // A communication as a statement.
    #[inline(never)]
    fn communication(&self, tokens: &mut Cursor<'_>) -> Result<HeldStmt, ParseError>
        ensures { Reads (bind (waits.communication_at self.now.level.now.lower.readers.height (terminals tokens.old)) (λ k u. Some (statement (start_of (terminals tokens.old)) k, u))) result tokens.new }
    {
        let start = tokens.place();
        let kind = communication_at(&self.level.lower.readers, tokens)?;
        Ok(HeldStmt::new(Stmt { start, kind }))
    }

    // A clause with a communication, from behind `case` on.
    #[tactic(auto, unfolding(go_stmt_descent::specs::Statements::communication_case))]
    fn communication_case(&self, tokens: &mut Cursor<'_>) -> Result<SelectCase, ParseError>
        requires { ReadsLower self.now.level.now.lower.readers (F.pre self.now.level.now.below) (F.post self.now.level.now.below) }
        ensures { Reads (rules.communication_case self.now.level.now.lower.readers.height (statements self.now.level.now.lower.readers.height).stmt (terminals tokens.old)) result tokens.new }
    {
        let communication = self.communication(tokens)?;
        let body = self.body(tokens)?;
        let boxed = boxed_stmt(self.level.lower.readers.alloc, communication.take())?;
        Ok(SelectCase {
            communication: Some(boxed),
            body: body.take(),
        })
    }

    // A clause without communication, from behind `default` on.
    #[inline(never)]
    #[tactic(auto, unfolding(go_stmt_descent::specs::Statements::default_select_case))]
    fn default_select_case(&self, tokens: &mut Cursor<'_>) -> Result<SelectCase, ParseError>
        requires { ReadsLower self.now.level.now.lower.readers (F.pre self.now.level.now.below) (F.post self.now.level.now.below) }
        ensures { Reads (rules.default_select_case (statements self.now.level.now.lower.readers.height).stmt (terminals tokens.old)) result tokens.new }
    {
        let body = self.body(tokens)?;
        Ok(SelectCase {
            communication: None,
            body: body.take(),
        })
    }

    // A clause of a `select`, if one stands here.
    #[tactic(auto, unfolding(go_stmt_descent::specs::Statements::select_case_item))]
    fn select_case_item(&self, tokens: &mut Cursor<'_>) -> Result<Option<SelectCase>, ParseError>
        requires { ReadsLower self.now.level.now.lower.readers (F.pre self.now.level.now.below) (F.post self.now.level.now.below) }
        ensures { ReadsNext (rules.select_case_item self.now.level.now.lower.readers.height (statements self.now.level.now.lower.readers.height).stmt (terminals tokens.old)) (terminals tokens.old) result tokens.new }
    {
        if tokens.begins(TokenKind::CaseWord) {
            tokens.advance();
            return Ok(Some(self.communication_case(tokens)?));
        }
        if tokens.begins(TokenKind::DefaultWord) {
            tokens.advance();
            return Ok(Some(self.default_select_case(tokens)?));
        }
        Ok(None)
    }

    /// The clauses of a `select`.
    pub fn select_cases(&self, tokens: &mut Cursor<'_>) -> Result<HeldSelectCases, ParseError>
        requires { ReadsLower self.now.level.now.lower.readers (F.pre self.now.level.now.below) (F.post self.now.level.now.below) }
        ensures { Reads (rules.select_cases self.now.level.now.lower.readers.height (statements self.now.level.now.lower.readers.height).stmt (terminals tokens.old)) result tokens.new }
    {
        let mut cases = HeldSelectCases::new(self.level.lower.readers.alloc);
        for _turn in 0..tokens.len() {
            match self.select_case_item(tokens)? {
                None => return Ok(cases),
                Some(case) => cases.push(case)?,
            }
        }
        Ok(cases)
    }
}
