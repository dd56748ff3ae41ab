//! The readers of the trees of a height, over a reader of the lower trees that are their parts.
ghost use Rattle.std.specs.Prelude.{◌≡◌};
ghost use Rattle.go_syntax.specs.grammar.Terminals.{terminals};
ghost use Rattle.go_descent.specs.Levels.{levels};
ghost use Rattle.go_descent.specs.Parts.{ReadsBelow, ReadsPart};
ghost use Rattle.go_cursor.specs.Reads.{Reads};

use go_cursor::cursor::Cursor;
use go_cursor::error::ParseError;
use go_cursor::go_base::list::List;
use go_cursor::skipping::skipped_body;
use go_syntax::body::BodyRange;
use go_syntax::expression::{Element, Expr};
use go_syntax::held::expression::{HeldElements, HeldExpr};
use go_syntax::held::types::{HeldSignature, HeldType};
use go_syntax::types::{Signature, Type};
use std::alloc::Global;

/// What is read where a tree has a part of a lower height.
#[derive(Clone, Copy)]
pub enum Part {
    Expr,
    /// The operand of a prefix operator, and whether a type's name may begin a composite literal.
    Unary(bool),
    Type,
    /// A slice, an array, a map or a struct.
    CompositeType,
    Signature,
    /// The elements of a composite literal, in their braces.
    LiteralValue,
}

/// The tree of a part.
#[derive(Drop)]
pub enum PartTree {
    Expr(HeldExpr),
    Type(HeldType),
    Signature(HeldSignature),
    LiteralValue(HeldElements),
}

/// The readers of trees whose parts have a height below this.
#[derive(Clone, Copy)]
pub struct Grammar<F> {
    pub alloc: Global,
    pub height: usize,
    pub below: F,
}

impl<F: Fn(Global, &mut Cursor<'_>, usize, Part) -> Result<PartTree, ParseError>> Grammar<F> {
    /// Whether there are any lower trees.
    pub fn is_deep(&self) -> bool
        ensures { result ≡ (levels self.now.height).deep }
    {
        if self.height == 0 { false } else { true }
    }

    /// An expression of a lower height.
    pub fn expr_below(&self, tokens: &mut Cursor<'_>) -> Result<Expr, ParseError>
        requires { ReadsBelow self.now.height (F.pre self.now.below) (F.post self.now.below) }
        ensures { Reads ((levels self.now.height).expr (terminals tokens.old)) result tokens.new }
    {
        match (self.below)(self.alloc, tokens, self.height, Part::Expr)? {
            PartTree::Expr(tree) => Ok(tree.take()),
            _ => Err(ParseError::Syntax),
        }
    }

    /// The operand of a prefix operator, of a lower height.
    pub fn unary_below(&self, composite: bool, tokens: &mut Cursor<'_>) -> Result<Expr, ParseError>
        requires { ReadsBelow self.now.height (F.pre self.now.below) (F.post self.now.below) }
        ensures { Reads ((levels self.now.height).unary composite (terminals tokens.old)) result tokens.new }
    {
        match (self.below)(self.alloc, tokens, self.height, Part::Unary(composite))? {
            PartTree::Expr(tree) => Ok(tree.take()),
            _ => Err(ParseError::Syntax),
        }
    }

    /// A type of a lower height.
    pub fn type_below(&self, tokens: &mut Cursor<'_>) -> Result<Type, ParseError>
        requires { ReadsBelow self.now.height (F.pre self.now.below) (F.post self.now.below) }
        ensures { Reads ((levels self.now.height).typ (terminals tokens.old)) result tokens.new }
    {
        match (self.below)(self.alloc, tokens, self.height, Part::Type)? {
            PartTree::Type(tree) => Ok(tree.take()),
            _ => Err(ParseError::Syntax),
        }
    }

    /// A slice, an array, a map or a struct of a lower height.
    pub fn composite_type_below(&self, tokens: &mut Cursor<'_>) -> Result<Type, ParseError>
        requires { ReadsBelow self.now.height (F.pre self.now.below) (F.post self.now.below) }
        ensures { Reads ((levels self.now.height).composite_type (terminals tokens.old)) result tokens.new }
    {
        match (self.below)(self.alloc, tokens, self.height, Part::CompositeType)? {
            PartTree::Type(tree) => Ok(tree.take()),
            _ => Err(ParseError::Syntax),
        }
    }

    /// Parameters and a result of a lower height.
    pub fn signature_below(&self, tokens: &mut Cursor<'_>) -> Result<Signature, ParseError>
        requires { ReadsBelow self.now.height (F.pre self.now.below) (F.post self.now.below) }
        ensures { Reads ((levels self.now.height).signature (terminals tokens.old)) result tokens.new }
    {
        match (self.below)(self.alloc, tokens, self.height, Part::Signature)? {
            PartTree::Signature(tree) => Ok(tree.take()),
            _ => Err(ParseError::Syntax),
        }
    }

    /// The elements of a composite literal of a lower height, in their braces.
    pub fn literal_value_below(&self, tokens: &mut Cursor<'_>) -> Result<List<Element>, ParseError>
        requires { ReadsBelow self.now.height (F.pre self.now.below) (F.post self.now.below) }
        ensures { Reads ((levels self.now.height).literal_value (terminals tokens.old)) result tokens.new }
    {
        match (self.below)(self.alloc, tokens, self.height, Part::LiteralValue)? {
            PartTree::LiteralValue(trees) => Ok(trees.take()),
            _ => Err(ParseError::Syntax),
        }
    }

    /// The body of a function, where it may have one at all.
    pub fn body_below(&self, tokens: &mut Cursor<'_>) -> Result<BodyRange, ParseError>
        ensures { Reads ((levels self.now.height).body (terminals tokens.old)) result tokens.new }
    {
        if !self.is_deep() {
            return Err(ParseError::Syntax);
        }
        skipped_body(self.alloc, tokens)
    }
}
