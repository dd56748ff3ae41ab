//! What a case of a `select` waits for.
ghost use Rattle.std.specs.Prelude.{◌≡◌, ◌∷◌, [], IfOk, Some};
ghost use Rattle.go_cursor.specs.Reading.{bind, close};
ghost use Rattle.go_cursor.specs.Reads.{Reads};
ghost use Rattle.go_stmt_descent.specs.Communications as rules;
ghost use Rattle.go_syntax.specs.declared.expression.Expr.TheVariants as expr;
ghost use Rattle.go_syntax.specs.declared.statement.StmtKind.TheVariants as stmt;
ghost use Rattle.go_syntax.specs.declared.token.TokenKind.TheVariants as kind;
ghost use Rattle.go_syntax.specs.grammar.Terminals.{terminals};

use go_base::memory::NoMemory;
use go_cursor::cursor::Cursor;
use go_cursor::error::ParseError;
use go_cursor::names::names;
use go_stmt_descent::go_exprs::readers::Readers;
use go_stmt_descent::go_simple_stmts::looks::begins_definition;
use go_stmt_descent::go_simple_stmts::simple::SimpleStmts;
use go_syntax::expression::Expr;
use go_syntax::held::expression::{HeldExpr, HeldExprs, boxed_expr};
use go_syntax::statement::StmtKind;
use go_syntax::token::TokenKind;
use std::alloc::Global;

/// A receive in parentheses, whose closing one is left.
#[tactic(auto, unfolding(go_cursor::specs::Reading::close, go_cursor::specs::Reading::expect))]
fn closed(alloc: Global, tokens: &mut Cursor<'_>, inner: HeldExpr) -> Result<HeldExpr, ParseError>
    ensures { Reads (close kind.RightParen (expr.Paren inner) (terminals tokens.old)) result tokens.new }
{
    tokens.expect(TokenKind::RightParen)?;
    Ok(HeldExpr::new(Expr::Paren(boxed_expr(alloc, inner.take())?)))
}

/// A receive, which may stand in parentheses.
fn receive(readers: Readers, tokens: &mut Cursor<'_>) -> Result<HeldExpr, ParseError>
    ensures { Reads (rules.receive readers.height (terminals tokens.old)) result tokens.new }
{
    if !tokens.begins(TokenKind::LeftParen) {
        return receive_alone(&readers, tokens);
    }
    if readers.height == 0 {
        return Err(ParseError::Syntax);
    }
    tokens.advance();
    let lower = Readers {
        alloc: readers.alloc,
        height: readers.height - 1,
    };
    let inner = receive(lower, tokens)?;
    closed(readers.alloc, tokens, inner)
}

/// A receive without parentheses.
#[tactic(auto, unfolding(go_stmt_descent::specs::Communications::receive_alone))]
fn receive_alone(readers: &Readers, tokens: &mut Cursor<'_>) -> Result<HeldExpr, ParseError>
    ensures { Reads (rules.receive_alone readers.now.height (terminals tokens.old)) result tokens.new }
{
    if !tokens.begins(TokenKind::Arrow) {
        return Err(ParseError::Syntax);
    }
    Ok(HeldExpr::new(readers.unary_expr(true, tokens)?))
}

/// The readers of communications, whose expressions have parts of lower heights.
#[derive(Clone, Copy)]
pub struct Communications {
    pub readers: Readers,
}

impl Communications {
    // A receive, and no more.
    fn receive(&self, tokens: &mut Cursor<'_>) -> Result<HeldExpr, ParseError>
        ensures { Reads (rules.receive self.now.readers.height (terminals tokens.old)) result tokens.new }
    {
        receive(self.readers, tokens)
    }

    // These expressions alone.
    fn one(&self, expr: HeldExpr) -> Result<HeldExprs, NoMemory>
        ensures { IfOk result (λ xs. xs ≡ expr ∷ []) }
    {
        let mut exprs = HeldExprs::new(self.readers.alloc);
        exprs.push(expr.take())?;
        Ok(exprs)
    }

    // An assignment of a receive to these, from `=` on.
    #[tactic(auto, unfolding(go_stmt_descent::specs::Communications::receive_assign, go_cursor::specs::Reading::expect))]
    fn receive_assign(
        &self,
        tokens: &mut Cursor<'_>,
        sides: HeldExprs,
    ) -> Result<StmtKind, ParseError>
        ensures { Reads (rules.receive_assign self.now.readers.height sides (terminals tokens.old)) result tokens.new }
    {
        tokens.expect(TokenKind::Assign)?;
        let received = self.receive(tokens)?;
        let values = self.one(received)?;
        Ok(StmtKind::Assign(sides.take(), values.take()))
    }

    // A short variable declaration with a receive.
    #[tactic(auto, unfolding(go_stmt_descent::specs::Communications::receive_define, go_cursor::specs::Reading::expect))]
    fn receive_define(&self, tokens: &mut Cursor<'_>) -> Result<StmtKind, ParseError>
        ensures { Reads (rules.receive_define self.now.readers.height (terminals tokens.old)) result tokens.new }
    {
        let declared = names(self.readers.alloc, tokens)?;
        tokens.expect(TokenKind::Define)?;
        let received = self.receive(tokens)?;
        let values = self.one(received)?;
        Ok(StmtKind::Define(declared, values.take()))
    }

    // Whether a receive and `:` are next.
    #[tactic(auto, unfolding(go_stmt_descent::specs::Communications::begins_receive))]
    fn begins_receive(&self, tokens: &Cursor<'_>) -> Result<bool, NoMemory>
        ensures { IfOk result (λ b. b ≡ rules.begins_receive self.now.readers.height (terminals tokens.now)) }
    {
        let mut ahead = tokens.fork();
        match self.receive(&mut ahead) {
            Ok(_) => Ok(ahead.begins(TokenKind::Colon)),
            Err(ParseError::Syntax) => Ok(false),
            Err(ParseError::NoMemory) => Err(NoMemory),
        }
    }

    // A send to this channel, from behind `<-` on.
    #[tactic(auto, unfolding(go_stmt_descent::specs::Communications::send))]
    fn send(&self, tokens: &mut Cursor<'_>, channel: HeldExpr) -> Result<StmtKind, ParseError>
        ensures { Reads (rules.send self.now.readers.height channel (terminals tokens.old)) result tokens.new }
    {
        let value = HeldExpr::new(self.readers.expr(true, tokens)?);
        Ok(StmtKind::Send(channel.take(), value.take()))
    }

    // What follows the first expression of a send or an assignment.
    #[tactic(auto, unfolding(go_stmt_descent::specs::Communications::communication_end))]
    fn end(&self, tokens: &mut Cursor<'_>, first: HeldExpr) -> Result<StmtKind, ParseError>
        ensures { Reads (rules.communication_end self.now.readers.height first (terminals tokens.old)) result tokens.new }
    {
        if tokens.goes_on() {
            let sides = self.one(first)?;
            let simple = SimpleStmts {
                readers: self.readers,
            };
            let sides = simple.more_exprs(true, tokens, sides)?;
            return self.receive_assign(tokens, sides);
        }
        if tokens.begins(TokenKind::Arrow) {
            tokens.advance();
            return self.send(tokens, first);
        }
        let sides = self.one(first)?;
        self.receive_assign(tokens, sides)
    }

    // A receive as a statement.
    fn received(&self, tokens: &mut Cursor<'_>) -> Result<StmtKind, ParseError>
        ensures { Reads (bind (rules.receive self.now.readers.height (terminals tokens.old)) (λ x u. Some (stmt.Expr x, u))) result tokens.new }
    {
        let received = self.receive(tokens)?;
        Ok(StmtKind::Expr(received.take()))
    }

    /// A send, a receive, or an assignment or a declaration with one.
    #[tactic(auto, unfolding(go_stmt_descent::specs::Communications::communication))]
    pub fn communication(&self, tokens: &mut Cursor<'_>) -> Result<StmtKind, ParseError>
        ensures { Reads (rules.communication self.now.readers.height (terminals tokens.old)) result tokens.new }
    {
        if begins_definition(tokens) {
            return self.receive_define(tokens);
        }
        if self.begins_receive(tokens)? {
            return self.received(tokens);
        }
        let first = HeldExpr::new(self.readers.expr(true, tokens)?);
        self.end(tokens, first)
    }
}

/// The same of at most this height.
#[tactic(auto, unfolding(go_stmt_descent::specs::Communications::communication_at))]
pub fn communication_at(readers: &Readers, tokens: &mut Cursor<'_>) -> Result<StmtKind, ParseError>
    ensures { Reads (rules.communication_at readers.now.height (terminals tokens.old)) result tokens.new }
{
    if readers.height == 0 {
        return Err(ParseError::Syntax);
    }
    let lower = Readers {
        alloc: readers.alloc,
        height: readers.height - 1,
    };
    Communications { readers: lower }.communication(tokens)
}
