//! The headers of `if`, `switch` and `for`: simple statements in them, and what the tokens ahead say of a header.
ghost use Rattle.std.specs.Prelude.{◌≡◌, IfOk, false};
ghost use Rattle.go_cursor.specs.Reading.{bind};
ghost use Rattle.go_cursor.specs.Reads.{Reads};
ghost use Rattle.go_descent.specs.Levels.{levels};
ghost use Rattle.go_descent.specs.Rules.{expr_of, exprs};
ghost use Rattle.go_cursor.specs.Names as name_rules;
ghost use Rattle.go_stmt_descent.specs.Headers as rules;
ghost use Rattle.go_syntax.specs.declared.statement.StmtKind.TheVariants as stmt;
ghost use Rattle.go_syntax.specs.declared.token.TokenKind.TheVariants as kind;
ghost use Rattle.go_syntax.specs.grammar.Statements.{start_of, statement};
ghost use Rattle.go_syntax.specs.grammar.Terminals.{terminals};

use crate::guards::past_binding;
use go_base::memory::NoMemory;
use go_cursor::cursor::Cursor;
use go_cursor::error::ParseError;
use go_cursor::looks::begins_type_switch;
use go_cursor::names::names;
use go_stmt_descent::go_exprs::readers::Readers;
use go_stmt_descent::go_simple_stmts::looks::begins_definition;
use go_stmt_descent::go_simple_stmts::simple::SimpleStmts;
use go_stmt_descent::headers::ForHeader;
use go_syntax::held::expression::{HeldExpr, HeldExprs};
use go_syntax::held::statement::{HeldOptionalStmt, HeldStmt};
use go_syntax::statement::{Stmt, StmtKind};
use go_syntax::token::TokenKind;

/// The readers of headers, whose trees have at most this height.
#[derive(Clone, Copy)]
pub struct Headers {
    pub readers: Readers,
}

impl Headers {
    /// A simple statement.
    #[tactic(auto, unfolding(go_stmt_descent::specs::Headers::simple_at))]
    pub fn simple(&self, composite: bool, tokens: &mut Cursor<'_>) -> Result<StmtKind, ParseError>
        ensures { Reads (rules.simple_at composite self.now.readers.height (terminals tokens.old)) result tokens.new }
    {
        if self.readers.height == 0 {
            return Err(ParseError::Syntax);
        }
        let readers = Readers {
            alloc: self.readers.alloc,
            height: self.readers.height - 1,
        };
        SimpleStmts { readers }.simple(composite, tokens)
    }

    /// A simple statement with its place.
    #[tactic(auto, unfolding(go_stmt_descent::specs::Headers::clause))]
    fn clause(&self, tokens: &mut Cursor<'_>) -> Result<HeldStmt, ParseError>
        ensures { Reads (rules.clause self.now.readers.height (terminals tokens.old)) result tokens.new }
    {
        let start = tokens.place();
        let kind = self.simple(false, tokens)?;
        Ok(HeldStmt::new(Stmt { start, kind }))
    }

    /// A simple statement that may be missing before this token.
    #[tactic(auto, unfolding(go_stmt_descent::specs::Headers::clause_before))]
    pub fn clause_before(
        &self,
        before: TokenKind,
        tokens: &mut Cursor<'_>,
    ) -> Result<HeldOptionalStmt, ParseError>
        ensures { Reads (rules.clause_before before self.now.readers.height (terminals tokens.old)) result tokens.new }
    {
        if tokens.begins(before) {
            return Ok(HeldOptionalStmt::none());
        }
        let clause = self.clause(tokens)?;
        Ok(HeldOptionalStmt::new(self.readers.alloc, clause.take())?)
    }

    /// An expression that may be missing before this token.
    #[tactic(auto, unfolding(go_stmt_descent::specs::Headers::optional_before))]
    pub fn optional_before(
        &self,
        before: TokenKind,
        tokens: &mut Cursor<'_>,
    ) -> Result<Option<HeldExpr>, ParseError>
        ensures { Reads (rules.optional_before before self.now.readers.height (terminals tokens.old)) result tokens.new }
    {
        if tokens.begins(before) {
            return Ok(None);
        }
        Ok(Some(HeldExpr::new(self.readers.expr(false, tokens)?)))
    }

    /// A statement before a condition or a tag, and its semicolon.
    #[tactic(auto, unfolding(go_stmt_descent::specs::Headers::init, go_cursor::specs::Reading::close, go_cursor::specs::Reading::expect))]
    fn init(&self, tokens: &mut Cursor<'_>) -> Result<HeldOptionalStmt, ParseError>
        ensures { Reads (rules.init self.now.readers.height (terminals tokens.old)) result tokens.new }
    {
        if tokens.begins(TokenKind::Semicolon) {
            let start = tokens.place();
            tokens.advance();
            return Ok(HeldOptionalStmt::new(
                self.readers.alloc,
                Stmt {
                    start,
                    kind: StmtKind::Empty,
                },
            )?);
        }
        let clause = self.clause(tokens)?;
        tokens.expect(TokenKind::Semicolon)?;
        Ok(HeldOptionalStmt::new(self.readers.alloc, clause.take())?)
    }

    /// The same, or nothing.
    fn optional_init(
        &self,
        stands: bool,
        tokens: &mut Cursor<'_>,
    ) -> Result<HeldOptionalStmt, ParseError>
        ensures { Reads (rules.optional_init stands self.now.readers.height (terminals tokens.old)) result tokens.new }
    {
        if stands {
            return self.init(tokens);
        }
        Ok(HeldOptionalStmt::none())
    }

    // An expression that is read ahead.
    fn expr_ahead(&self, ahead: &mut Cursor<'_>) -> Result<HeldExpr, ParseError>
        ensures { Reads (expr_of false (levels self.now.readers.height) (terminals ahead.old)) result ahead.new }
    {
        Ok(HeldExpr::new(self.readers.expr(false, ahead)?))
    }

    // Expressions that are read ahead.
    fn exprs_ahead(&self, ahead: &mut Cursor<'_>) -> Result<HeldExprs, ParseError>
        ensures { Reads (exprs (expr_of false (levels self.now.readers.height)) (terminals ahead.old)) result ahead.new }
    {
        SimpleStmts {
            readers: self.readers,
        }
        .exprs(false, ahead)
    }

    /// Whether an expression and then the block are next.
    #[tactic(auto, unfolding(go_stmt_descent::specs::Headers::begins_condition))]
    fn begins_condition(&self, tokens: &Cursor<'_>) -> Result<bool, NoMemory>
        ensures { IfOk result (λ b. b ≡ rules.begins_condition self.now.readers.height (terminals tokens.now)) }
    {
        if begins_definition(tokens) {
            return Ok(false);
        }
        let mut ahead = tokens.fork();
        match self.expr_ahead(&mut ahead) {
            Ok(_) => Ok(ahead.begins(TokenKind::LeftBrace)),
            Err(ParseError::Syntax) => Ok(false),
            Err(ParseError::NoMemory) => Err(NoMemory),
        }
    }

    /// Whether the guard of a type switch is next.
    #[tactic(auto, unfolding(go_stmt_descent::specs::Headers::begins_guard))]
    pub fn begins_guard(&self, tokens: &Cursor<'_>) -> Result<bool, NoMemory>
        ensures { IfOk result (λ b. b ≡ rules.begins_guard self.now.readers.height (terminals tokens.now)) }
    {
        let mut ahead = tokens.fork();
        past_binding(&mut ahead);
        match self.expr_ahead(&mut ahead) {
            Ok(_) => Ok(begins_type_switch(&ahead)),
            Err(ParseError::Syntax) => Ok(false),
            Err(ParseError::NoMemory) => Err(NoMemory),
        }
    }

    /// Whether a statement stands before the condition of an `if`.
    #[tactic(auto, unfolding(go_stmt_descent::specs::Headers::if_has_init))]
    fn if_has_init(&self, tokens: &Cursor<'_>) -> Result<bool, NoMemory>
        ensures { IfOk result (λ b. b ≡ rules.if_has_init self.now.readers.height (terminals tokens.now)) }
    {
        if tokens.begins(TokenKind::Semicolon) {
            return Ok(true);
        }
        let condition = self.begins_condition(tokens)?;
        Ok(!condition)
    }

    /// Whether a statement stands before the tag or the guard of a `switch`.
    #[tactic(auto, unfolding(go_stmt_descent::specs::Headers::switch_has_init))]
    fn switch_has_init(&self, tokens: &Cursor<'_>) -> Result<bool, NoMemory>
        ensures { IfOk result (λ b. b ≡ rules.switch_has_init self.now.readers.height (terminals tokens.now)) }
    {
        if tokens.begins(TokenKind::LeftBrace) {
            return Ok(false);
        }
        if self.begins_guard(tokens)? {
            return Ok(false);
        }
        self.if_has_init(tokens)
    }

    /// The statement before the condition of an `if`, which may be missing.
    pub fn if_init(&self, tokens: &mut Cursor<'_>) -> Result<HeldOptionalStmt, ParseError>
        ensures { Reads (rules.optional_init (rules.if_has_init self.now.readers.height (terminals tokens.old)) self.now.readers.height (terminals tokens.old)) result tokens.new }
    {
        let stands = self.if_has_init(tokens)?;
        self.optional_init(stands, tokens)
    }

    /// The statement before the tag or the guard of a `switch`, which may be missing.
    pub fn switch_init(&self, tokens: &mut Cursor<'_>) -> Result<HeldOptionalStmt, ParseError>
        ensures { Reads (rules.optional_init (rules.switch_has_init self.now.readers.height (terminals tokens.old)) self.now.readers.height (terminals tokens.old)) result tokens.new }
    {
        let stands = self.switch_has_init(tokens)?;
        self.optional_init(stands, tokens)
    }

    // What the header is that begins with names and `:=`.
    fn header_of_names(&self, tokens: &Cursor<'_>) -> Result<ForHeader, NoMemory>
        ensures { IfOk result (λ f. f ≡ rules.header_of_names (rules.range_follows (name_rules.names (terminals tokens.now)))) }
    {
        let mut ahead = tokens.fork();
        match names(self.readers.alloc, &mut ahead) {
            Ok(_) => {
                if ranges(TokenKind::Define, &ahead) {
                    return Ok(ForHeader::RangeDefine);
                }
                Ok(ForHeader::Clauses)
            }
            Err(ParseError::Syntax) => Ok(ForHeader::Clauses),
            Err(ParseError::NoMemory) => Err(NoMemory),
        }
    }

    // What the header is that begins with expressions.
    fn header_of_exprs(&self, tokens: &Cursor<'_>) -> Result<ForHeader, NoMemory>
        ensures { IfOk result (λ f. f ≡ rules.header_of_exprs (exprs (expr_of false (levels self.now.readers.height)) (terminals tokens.now))) }
    {
        let mut ahead = tokens.fork();
        match self.exprs_ahead(&mut ahead) {
            Ok(_) => Ok(header_after(&ahead)),
            Err(ParseError::Syntax) => Ok(ForHeader::Clauses),
            Err(ParseError::NoMemory) => Err(NoMemory),
        }
    }

    /// What the header of a `for` is.
    #[tactic(auto, unfolding(go_stmt_descent::specs::Headers::for_header))]
    pub fn for_header(&self, tokens: &Cursor<'_>) -> Result<ForHeader, NoMemory>
        ensures { IfOk result (λ f. f ≡ rules.for_header self.now.readers.height (terminals tokens.now)) }
    {
        if tokens.begins(TokenKind::LeftBrace) {
            return Ok(ForHeader::Condition);
        }
        if tokens.begins(TokenKind::RangeWord) {
            return Ok(ForHeader::Range);
        }
        if tokens.begins(TokenKind::Semicolon) {
            return Ok(ForHeader::Clauses);
        }
        if begins_definition(tokens) {
            return self.header_of_names(tokens);
        }
        self.header_of_exprs(tokens)
    }
}

/// Whether this token and `range` are next.
fn ranges(kind: TokenKind, tokens: &Cursor<'_>) -> bool
    ensures { result ≡ rules.ranges kind (terminals tokens.now) }
{
    if !tokens.begins(kind) {
        return false;
    }
    let mut ahead = tokens.fork();
    ahead.advance();
    ahead.begins(TokenKind::RangeWord)
}

/// What the header is behind whose first expressions these tokens stand.
fn header_after(tokens: &Cursor<'_>) -> ForHeader
    ensures { result ≡ rules.header_after (terminals tokens.now) }
{
    if tokens.begins(TokenKind::LeftBrace) {
        return ForHeader::Condition;
    }
    if ranges(TokenKind::Assign, tokens) {
        return ForHeader::RangeAssign;
    }
    ForHeader::Clauses
}
