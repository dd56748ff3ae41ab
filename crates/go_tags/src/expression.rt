//! Build expressions, read by recursive descent. Each rule takes the reader of an expression in
//! parentheses as a parameter.
ghost use Rattle.std.specs.Prelude.{◌≡◌, ◌≢◌, ℕ, List as Sequence, [], IfOk, IfErr};
ghost use Rattle.go_model.specs.files.BuildConstraints as grammar;
ghost use Rattle.go_tags.specs.inner.RecursiveDescent as descent;
ghost use Rattle.go_model.specs.files.BuildConstraints.{IsOr, IsExpression};
ghost use Rattle.go_model.specs.declared.files.build.Constraint.{Constraint};
ghost use Rattle.go_tags.specs.inner.ExpressionCauses.{OrCause, ExpressionCause};
ghost use Rattle.go_tags.specs.inner.ParserAnswers.{Reads, ReadsBelow};

use crate::cursor::Cursor;
use crate::error::TagError;
use crate::parts::parts_of;
use go_base::boxed::Box;
use go_base::list::List;
use go_base::memory::NoMemory;
use go_model::files::build::{Constraint, ConstraintPart};
use std::alloc::Global;

/// The rules, over a reader of expressions with parentheses less deep than `depth`.
#[derive(Clone, Copy)]
struct Grammar<F> {
    alloc: Global,
    depth: usize,
    inner: F,
}

fn or_chain(
    alloc: Global,
    first: Constraint,
    others: List<Constraint>,
) -> Result<Constraint, NoMemory>
    ensures { IfOk result (λ x. x ≡ grammar.or_chain first others) }
{
    if others.items().is_empty() {
        return Ok(first);
    }
    Ok(Constraint::Or(Box::new(alloc, first)?, others))
}

fn and_chain(
    alloc: Global,
    first: Constraint,
    others: List<Constraint>,
) -> Result<Constraint, NoMemory>
    ensures { IfOk result (λ x. x ≡ grammar.and_chain first others) }
{
    if others.items().is_empty() {
        return Ok(first);
    }
    Ok(Constraint::And(Box::new(alloc, first)?, others))
}

impl<F: Fn(Global, &mut Cursor<'_>, usize) -> Result<Constraint, TagError>> Grammar<F> {
    fn inner(&self, parts: &mut Cursor<'_>) -> Result<Constraint, TagError>
        requires { ReadsBelow self.now.depth (F.pre self.now.inner) (F.post self.now.inner) }
        ensures { Reads (descent.or_below self.now.depth parts.old) result parts.new }
    {
        (self.inner)(self.alloc, parts, self.depth)
    }

    fn close(&self, parts: &mut Cursor<'_>, inner: Constraint) -> Result<Constraint, TagError>
        ensures { Reads (descent.closed (Constraint.Paren inner) parts.old) result parts.new }
    {
        match parts.peek() {
            Some(ConstraintPart::Close) => {
                parts.advance();
                Ok(Constraint::Paren(Box::new(self.alloc, inner)?))
            }
            _ => Err(TagError::BadExpression),
        }
    }

    #[tactic(auto, unfolding(crate::specs::inner::RecursiveDescent::operand_of))]
    fn operand(&self, parts: &mut Cursor<'_>) -> Result<Constraint, TagError>
        requires { ReadsBelow self.now.depth (F.pre self.now.inner) (F.post self.now.inner) }
        ensures { Reads (descent.operand_of (descent.or_below self.now.depth) parts.old) result parts.new }
    {
        match parts.peek() {
            Some(ConstraintPart::Tag(name)) => {
                parts.advance();
                Ok(Constraint::Tag(name.copy()?))
            }
            Some(ConstraintPart::Open) => {
                parts.advance();
                let inner = self.inner(parts)?;
                self.close(parts, inner)
            }
            _ => Err(TagError::BadExpression),
        }
    }

    #[tactic(auto, unfolding(crate::specs::inner::RecursiveDescent::not_of))]
    fn not(&self, parts: &mut Cursor<'_>) -> Result<Constraint, TagError>
        requires { ReadsBelow self.now.depth (F.pre self.now.inner) (F.post self.now.inner) }
        ensures { Reads (descent.not_of (descent.or_below self.now.depth) parts.old) result parts.new }
    {
        if let Some(ConstraintPart::Not) = parts.peek() {
            parts.advance();
            let operand = self.operand(parts)?;
            return Ok(Constraint::Not(Box::new(self.alloc, operand)?));
        }
        self.operand(parts)
    }

    fn ands(&self, parts: &mut Cursor<'_>) -> Result<List<Constraint>, TagError>
        requires { ReadsBelow self.now.depth (F.pre self.now.inner) (F.post self.now.inner) }
        ensures { Reads (descent.all_turns (descent.and_turn (descent.not_of (descent.or_below self.now.depth))) [] parts.old) result parts.new }
    {
        let mut operands = List::new(self.alloc);
        for _turn in 0..parts.len() {
            match parts.peek() {
                Some(ConstraintPart::And) => {
                    parts.advance();
                    let operand = self.not(parts)?;
                    operands.push(operand)?;
                }
                _ => return Ok(operands),
            }
        }
        Ok(operands)
    }

    #[tactic(auto, unfolding(crate::specs::inner::RecursiveDescent::and_of, crate::specs::inner::RecursiveDescent::chain_of))]
    fn and(&self, parts: &mut Cursor<'_>) -> Result<Constraint, TagError>
        requires { ReadsBelow self.now.depth (F.pre self.now.inner) (F.post self.now.inner) }
        ensures { Reads (descent.and_of (descent.or_below self.now.depth) parts.old) result parts.new }
    {
        let first = self.not(parts)?;
        let others = self.ands(parts)?;
        Ok(and_chain(self.alloc, first, others)?)
    }

    fn ors(&self, parts: &mut Cursor<'_>) -> Result<List<Constraint>, TagError>
        requires { ReadsBelow self.now.depth (F.pre self.now.inner) (F.post self.now.inner) }
        ensures { Reads (descent.all_turns (descent.or_turn (descent.and_of (descent.or_below self.now.depth))) [] parts.old) result parts.new }
    {
        let mut operands = List::new(self.alloc);
        for _turn in 0..parts.len() {
            match parts.peek() {
                Some(ConstraintPart::Or) => {
                    parts.advance();
                    let operand = self.and(parts)?;
                    operands.push(operand)?;
                }
                _ => return Ok(operands),
            }
        }
        Ok(operands)
    }

    #[tactic(auto, unfolding(crate::specs::inner::RecursiveDescent::or_of, crate::specs::inner::RecursiveDescent::chain_of))]
    fn or(&self, parts: &mut Cursor<'_>) -> Result<Constraint, TagError>
        requires { ReadsBelow self.now.depth (F.pre self.now.inner) (F.post self.now.inner) }
        ensures { Reads (descent.or_of (descent.or_below self.now.depth) parts.old) result parts.new }
    {
        let first = self.and(parts)?;
        let others = self.ors(parts)?;
        Ok(or_chain(self.alloc, first, others)?)
    }
}

/// An expression with parentheses less deep than `depth`.
fn or_below(alloc: Global, parts: &mut Cursor<'_>, depth: usize) -> Result<Constraint, TagError>
    ensures { Reads (descent.or_below depth parts.old) result parts.new }
{
    if depth == 0 {
        return Err(TagError::BadExpression);
    }
    Grammar {
        alloc,
        depth: depth - 1,
        inner: or_below,
    }
    .or(parts)
}

/// How deep parentheses may nest.
const MAX_DEPTH: usize = 256;

fn read_parts(alloc: Global, parts: &[ConstraintPart]) -> Result<Constraint, TagError>
    ensures tree { IfOk result (IsOr 256 parts.now) }
    ensures cause { IfErr result (OrCause parts.now) }
{
    let mut cursor = Cursor::new(parts);
    match or_below(alloc, &mut cursor, MAX_DEPTH + 1) {
        Ok(found) => whole(found, &cursor),
        Err(error) => Err(error),
    }
}

fn whole(found: Constraint, cursor: &Cursor<'_>) -> Result<Constraint, TagError>
    ensures tree { IfOk result (λ x. (x ≡ found) × (cursor.now ≡ [])) }
    ensures cause { IfErr result (λ e. (e ≡ TagError.BadExpression) × (cursor.now ≢ [])) }
{
    if cursor.len() == 0 {
        Ok(found)
    } else {
        Err(TagError::BadExpression)
    }
}

/// The build expression that the text is. Errors: `BadExpression` exactly where it is none with
/// parentheses at most 256 deep.
pub fn expression_of(alloc: Global, text: &[u8]) -> Result<Constraint, TagError>
    ensures tree { IfOk result (IsExpression text.now) }
    ensures cause { IfErr result (ExpressionCause text.now) }
{
    let parts = parts_of(alloc, text)?;
    read_parts(alloc, parts.items())
}
