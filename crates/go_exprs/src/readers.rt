//! The readers of types and expressions, for the crates above. The body of a function literal is skipped.
ghost use Rattle.std.specs.Prelude.{◌≡◌, ◌≤◌};
ghost use Rattle.go_syntax.specs.grammar.Terminals.{terminals};
ghost use Rattle.go_descent.specs.go_cursor.Reads.{Reads};
ghost use Rattle.go_descent.specs.Levels.{levels};
ghost use Rattle.go_descent.specs.Rules as rules;

use crate::exprs::{expr, primary_expr, unary_expr};
use crate::levels::below;
use go_descent::go_cursor::cursor::Cursor;
use go_descent::go_cursor::error::ParseError;
use go_descent::grammar::Grammar;
use go_operand_exprs::go_type_exprs::types::TypeExprs;
use go_posts::posts::Posts;
use go_signatures::signatures::Signatures;
use go_syntax::body::BodyRange;
use go_syntax::expression::Expr;
use go_syntax::held::expression::HeldExprs;
use go_syntax::held::types::HeldParameters;
use go_syntax::types::{Signature, Type};
use std::alloc::Global;

/// The readers of trees of a height below this, and of those that have such trees as parts. A greater height would
/// take more of the stack.
#[derive(Clone, Copy)]
pub struct Readers {
    pub alloc: Global,
    pub height: usize,
    ghost bounded: { height ≤ 257 },
}

impl Readers {
    /// An expression of a lower height.
    pub fn expr_below(&self, tokens: &mut Cursor<'_>) -> Result<Expr, ParseError>
        ensures { Reads ((levels self.now.height).expr (terminals tokens.old)) result tokens.new }
    {
        Grammar {
            alloc: self.alloc,
            height: self.height,
            below,
        }
        .expr_below(tokens)
    }

    /// Expressions of lower heights with commas between them.
    pub fn exprs(&self, tokens: &mut Cursor<'_>) -> Result<HeldExprs, ParseError>
        ensures { Reads (rules.exprs (levels self.now.height).expr (terminals tokens.old)) result tokens.new }
    {
        let grammar = Grammar {
            alloc: self.alloc,
            height: self.height,
            below,
        };
        Posts { grammar: &grammar }.exprs(tokens)
    }

    /// A type of a lower height.
    pub fn type_below(&self, tokens: &mut Cursor<'_>) -> Result<Type, ParseError>
        ensures { Reads ((levels self.now.height).typ (terminals tokens.old)) result tokens.new }
    {
        Grammar {
            alloc: self.alloc,
            height: self.height,
            below,
        }
        .type_below(tokens)
    }

    /// Parameters and a result of a lower height.
    pub fn signature_below(&self, tokens: &mut Cursor<'_>) -> Result<Signature, ParseError>
        ensures { Reads ((levels self.now.height).signature (terminals tokens.old)) result tokens.new }
    {
        Grammar {
            alloc: self.alloc,
            height: self.height,
            below,
        }
        .signature_below(tokens)
    }

    /// Parameters in parentheses, whose types are of lower heights.
    pub fn parameters(&self, tokens: &mut Cursor<'_>) -> Result<HeldParameters, ParseError>
        ensures { Reads (rules.parameters (levels self.now.height).typ (terminals tokens.old)) result tokens.new }
    {
        let grammar = Grammar {
            alloc: self.alloc,
            height: self.height,
            below,
        };
        Signatures { grammar: &grammar }.parameters(tokens)
    }

    /// The body of a function, where it may have one at all.
    pub fn body_below(&self, tokens: &mut Cursor<'_>) -> Result<BodyRange, ParseError>
        ensures { Reads ((levels self.now.height).body (terminals tokens.old)) result tokens.new }
    {
        Grammar {
            alloc: self.alloc,
            height: self.height,
            below,
        }
        .body_below(tokens)
    }

    /// An expression whose parts are of lower heights. `composite` says whether a type's name may begin
    /// a composite literal here, as it may not in the header of a statement.
    pub fn expr(&self, composite: bool, tokens: &mut Cursor<'_>) -> Result<Expr, ParseError>
        ensures { Reads (rules.expr_of composite (levels self.now.height) (terminals tokens.old)) result tokens.new }
    {
        let grammar = Grammar {
            alloc: self.alloc,
            height: self.height,
            below,
        };
        expr(&grammar, composite, tokens)
    }

    /// The same of the operand of a prefix operator.
    pub fn unary_expr(&self, composite: bool, tokens: &mut Cursor<'_>) -> Result<Expr, ParseError>
        ensures { Reads (rules.unary_expr composite (levels self.now.height) (terminals tokens.old)) result tokens.new }
    {
        let grammar = Grammar {
            alloc: self.alloc,
            height: self.height,
            below,
        };
        unary_expr(&grammar, composite, tokens)
    }

    /// The same of an operand and what follows it.
    pub fn primary_expr(&self, composite: bool, tokens: &mut Cursor<'_>) -> Result<Expr, ParseError>
        ensures { Reads (rules.primary_expr composite (levels self.now.height) (terminals tokens.old)) result tokens.new }
    {
        let grammar = Grammar {
            alloc: self.alloc,
            height: self.height,
            below,
        };
        primary_expr(&grammar, composite, tokens)
    }

    /// A type whose parts are of lower heights.
    pub fn type_(&self, tokens: &mut Cursor<'_>) -> Result<Type, ParseError>
        ensures { Reads (rules.typ_of (levels self.now.height) (terminals tokens.old)) result tokens.new }
    {
        let grammar = Grammar {
            alloc: self.alloc,
            height: self.height,
            below,
        };
        TypeExprs { grammar: &grammar }.type_(tokens)
    }
}
