//! Simple statements.
ghost use Rattle.std.specs.Prelude.{◌≡◌, ◌∷◌, []};
ghost use Rattle.go_cursor.specs.Reads.{Reads};
ghost use Rattle.go_descent.specs.Levels.{levels};
ghost use Rattle.go_descent.specs.Rules.{expr_of, exprs, more_exprs, operator_at};
ghost use Rattle.go_simple_stmts.specs.SimpleStatements as rules;
ghost use Rattle.go_syntax.specs.grammar.Statements as grammar;
ghost use Rattle.go_syntax.specs.grammar.Symbols.{sign_at};
ghost use Rattle.go_syntax.specs.grammar.Terminals.{terminals};

use crate::looks::begins_definition;
use crate::operators::{assign_operator, step_operator};
use go_base::operator::AssignOperator;
use go_cursor::cursor::Cursor;
use go_cursor::error::ParseError;
use go_cursor::names::names;
use go_exprs::readers::Readers;
use go_syntax::held::expression::{HeldExpr, HeldExprs};
use go_syntax::statement::StmtKind;
use go_syntax::token::TokenKind;

/// The readers of simple statements, whose expressions have parts of lower heights. `composite` says whether a type's
/// name may begin a composite literal, as it may not in the header of a statement.
#[derive(Clone, Copy)]
pub struct SimpleStmts {
    pub readers: Readers,
}

impl SimpleStmts {
    /// More expressions, each after a comma.
    #[tactic(auto, unfolding(go_descent::specs::Rules::more_exprs))]
    pub fn more_exprs(
        &self,
        composite: bool,
        tokens: &mut Cursor<'_>,
        first: HeldExprs,
    ) -> Result<HeldExprs, ParseError>
        ensures { Reads (more_exprs (expr_of composite (levels self.now.readers.height)) first (terminals tokens.old)) result tokens.new }
    {
        let mut exprs = first;
        for _turn in 0..tokens.len() {
            if !tokens.goes_on() {
                return Ok(exprs);
            }
            tokens.advance();
            exprs.push(self.readers.expr(composite, tokens)?)?;
        }
        Ok(exprs)
    }

    /// Expressions with commas between them.
    #[tactic(auto, unfolding(go_descent::specs::Rules::exprs))]
    pub fn exprs(&self, composite: bool, tokens: &mut Cursor<'_>) -> Result<HeldExprs, ParseError>
        ensures { Reads (exprs (expr_of composite (levels self.now.readers.height)) (terminals tokens.old)) result tokens.new }
    {
        let mut first = HeldExprs::new(self.readers.alloc);
        first.push(self.readers.expr(composite, tokens)?)?;
        self.more_exprs(composite, tokens, first)
    }

    // A short variable declaration.
    #[tactic(auto, unfolding(crate::specs::SimpleStatements::definition, go_cursor::specs::Reading::expect))]
    fn definition(&self, composite: bool, tokens: &mut Cursor<'_>) -> Result<StmtKind, ParseError>
        ensures { Reads (rules.definition composite (levels self.now.readers.height) (terminals tokens.old)) result tokens.new }
    {
        let declared = names(self.readers.alloc, tokens)?;
        tokens.expect(TokenKind::Define)?;
        let values = self.exprs(composite, tokens)?;
        Ok(StmtKind::Define(declared, values.take()))
    }

    // An assignment to these, from `=` on.
    #[tactic(auto, unfolding(crate::specs::SimpleStatements::assignment, go_cursor::specs::Reading::expect))]
    fn assignment(
        &self,
        composite: bool,
        tokens: &mut Cursor<'_>,
        sides: HeldExprs,
    ) -> Result<StmtKind, ParseError>
        ensures { Reads (rules.assignment composite (levels self.now.readers.height) sides (terminals tokens.old)) result tokens.new }
    {
        tokens.expect(TokenKind::Assign)?;
        let values = self.exprs(composite, tokens)?;
        Ok(StmtKind::Assign(sides.take(), values.take()))
    }

    // An assignment to this with an operator, from behind the operator on.
    #[tactic(auto, unfolding(crate::specs::SimpleStatements::operation))]
    fn operation(
        &self,
        composite: bool,
        tokens: &mut Cursor<'_>,
        side: HeldExpr,
        operator: AssignOperator,
    ) -> Result<StmtKind, ParseError>
        ensures { Reads (rules.operation composite (levels self.now.readers.height) side operator (terminals tokens.old)) result tokens.new }
    {
        let value = HeldExpr::new(self.readers.expr(composite, tokens)?);
        Ok(StmtKind::AssignOp(side.take(), operator, value.take()))
    }

    // A send to this channel, from behind `<-` on.
    #[tactic(auto, unfolding(crate::specs::SimpleStatements::send))]
    fn send(
        &self,
        composite: bool,
        tokens: &mut Cursor<'_>,
        channel: HeldExpr,
    ) -> Result<StmtKind, ParseError>
        ensures { Reads (rules.send composite (levels self.now.readers.height) channel (terminals tokens.old)) result tokens.new }
    {
        let value = HeldExpr::new(self.readers.expr(composite, tokens)?);
        Ok(StmtKind::Send(channel.take(), value.take()))
    }

    // An expression with the operator that may be next.
    fn operated(
        &self,
        composite: bool,
        tokens: &mut Cursor<'_>,
        first: HeldExpr,
        operator: Option<AssignOperator>,
    ) -> Result<StmtKind, ParseError>
        ensures { Reads (rules.operated composite (levels self.now.readers.height) first operator (terminals tokens.old)) result tokens.new }
    {
        match operator {
            Some(operator) => {
                tokens.advance();
                self.operation(composite, tokens, first, operator)
            }
            None => Ok(StmtKind::Expr(first.take())),
        }
    }

    // An expression with the `++`, the `--` or the operator that may be next.
    fn stepped(
        &self,
        composite: bool,
        tokens: &mut Cursor<'_>,
        first: HeldExpr,
    ) -> Result<StmtKind, ParseError>
        ensures { Reads (rules.stepped composite (levels self.now.readers.height) first (operator_at grammar.step_operator (sign_at (terminals tokens.old))) (terminals tokens.old)) result tokens.new }
    {
        if let Some(operator) = step_operator(tokens.sign()) {
            tokens.advance();
            return Ok(StmtKind::Step(first.take(), operator));
        }
        let operator = assign_operator(tokens.sign());
        self.operated(composite, tokens, first, operator)
    }

    // A statement that begins with this expression, from behind the expression on.
    #[tactic(auto, unfolding(crate::specs::SimpleStatements::expr_end))]
    fn expr_end(
        &self,
        composite: bool,
        tokens: &mut Cursor<'_>,
        first: HeldExpr,
    ) -> Result<StmtKind, ParseError>
        ensures { Reads (rules.expr_end composite (levels self.now.readers.height) first (terminals tokens.old)) result tokens.new }
    {
        if tokens.begins(TokenKind::Arrow) {
            tokens.advance();
            return self.send(composite, tokens, first);
        }
        if tokens.begins(TokenKind::Assign) {
            let mut sides = HeldExprs::new(self.readers.alloc);
            sides.push(first.take())?;
            return self.assignment(composite, tokens, sides);
        }
        self.stepped(composite, tokens, first)
    }

    // The same where a comma and another expression may follow.
    #[tactic(auto, unfolding(crate::specs::SimpleStatements::list_end))]
    fn list_end(
        &self,
        composite: bool,
        tokens: &mut Cursor<'_>,
        first: HeldExpr,
    ) -> Result<StmtKind, ParseError>
        ensures { Reads (rules.list_end composite (levels self.now.readers.height) first (terminals tokens.old)) result tokens.new }
    {
        if !tokens.goes_on() {
            return self.expr_end(composite, tokens, first);
        }
        let mut sides = HeldExprs::new(self.readers.alloc);
        sides.push(first.take())?;
        let sides = self.more_exprs(composite, tokens, sides)?;
        self.assignment(composite, tokens, sides)
    }

    /// A simple statement that isn't empty.
    #[tactic(auto, unfolding(crate::specs::SimpleStatements::simple))]
    pub fn simple(&self, composite: bool, tokens: &mut Cursor<'_>) -> Result<StmtKind, ParseError>
        ensures { Reads (rules.simple composite (levels self.now.readers.height) (terminals tokens.old)) result tokens.new }
    {
        if begins_definition(tokens) {
            return self.definition(composite, tokens);
        }
        let first = HeldExpr::new(self.readers.expr(composite, tokens)?);
        self.list_end(composite, tokens, first)
    }
}
