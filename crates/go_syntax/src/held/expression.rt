//! Expressions and their parts in the making.
ghost use Rattle.std.specs.Prelude.{◌≡◌, ◌++◌, ◌∷◌, [], IfOk, OnErr, OnOk, length};
ghost use Rattle.go_syntax.specs.declared.expression.Expr.TheVariants as expr;
ghost use Rattle.go_syntax.specs.declared.expression.Post.TheVariants as post;

use crate::expression::{Element, ElementValue, Expr, Post};
use crate::held::whole::Whole;
use crate::types::Type;
use go_base::boxed::Box;
use go_base::list::List;
use go_base::memory::NoMemory;
use std::alloc::Global;
use std::marker::Model;

/// An expression in the making.
pub struct HeldExpr {
    tree: Whole<Expr>,
}

impl Drop for HeldExpr {
    fn drop(self) {
        let HeldExpr { tree: _ } = self;
    }
}

impl Model for HeldExpr {
    ghost use Rattle.go_syntax.specs.declared.expression.Expr.{Expr};
    ghost use Rattle.go_syntax.specs.contracts.expression.Expr as t;
    ghost use Rattle.std.specs.Coded.{codes};

    ghost Value = { Expr };

    ghost coded = { Prim.hlevel (codes, t.the_row.coded) };

    ghost view = { λ h. h.tree };
}

impl HeldExpr {
    /// Holds this tree.
    pub fn new(tree: Expr) -> HeldExpr
        ensures { result ≡ tree }
    {
        HeldExpr {
            tree: Whole::new(tree),
        }
    }

    /// The tree, moved out.
    pub fn take(self) -> Expr
        ensures { result ≡ self }
    {
        let HeldExpr { tree } = self;
        tree.take()
    }
}

/// Expressions in the making.
pub struct HeldExprs {
    trees: List<Expr>,
}

impl Drop for HeldExprs {
    fn drop(self) {
        let HeldExprs { trees: _ } = self;
    }
}

impl Model for HeldExprs {
    ghost use Rattle.go_syntax.specs.declared.expression.Expr.{Expr};
    ghost use Rattle.go_syntax.specs.contracts.expression.Expr as t;
    ghost use Rattle.std.specs.Coded.{codes, coded_list};
    ghost use Rattle.std.specs.Prelude.{List as Sequence};

    ghost Value = { Sequence Expr };

    ghost coded = { coded_list (Prim.hlevel (codes, t.the_row.coded)) };

    ghost view = { λ h. h.trees };
}

impl HeldExprs {
    /// No tree.
    pub fn new(alloc: Global) -> HeldExprs
        ensures { result ≡ [] }
    {
        HeldExprs {
            trees: List::new(alloc),
        }
    }

    /// How many trees there are.
    pub fn len(&self) -> usize
        ensures { result ≡ length self.now }
    {
        self.trees.items().len()
    }

    /// Appends a tree. One that found no room is given up.
    pub fn push(&mut self, tree: Expr) -> Result<(), NoMemory>
        ensures ok { OnOk result (self.new ≡ self.old ++ tree ∷ []) }
        ensures err { OnErr result (self.new ≡ self.old) }
    {
        self.trees.push(tree)
    }

    /// The trees, moved out.
    pub fn take(self) -> List<Expr>
        ensures { result ≡ self }
    {
        let HeldExprs { trees } = self;
        trees
    }
}

/// What follows an operand, in the making.
pub struct HeldPosts {
    trees: List<Post>,
}

impl Drop for HeldPosts {
    fn drop(self) {
        let HeldPosts { trees: _ } = self;
    }
}

impl Model for HeldPosts {
    ghost use Rattle.go_syntax.specs.declared.expression.Post.{Post};
    ghost use Rattle.go_syntax.specs.contracts.expression.Post as t;
    ghost use Rattle.std.specs.Coded.{codes, coded_list};
    ghost use Rattle.std.specs.Prelude.{List as Sequence};

    ghost Value = { Sequence Post };

    ghost coded = { coded_list (Prim.hlevel (codes, t.the_row.coded)) };

    ghost view = { λ h. h.trees };
}

impl HeldPosts {
    /// No tree.
    pub fn new(alloc: Global) -> HeldPosts
        ensures { result ≡ [] }
    {
        HeldPosts {
            trees: List::new(alloc),
        }
    }

    /// How many trees there are.
    pub fn len(&self) -> usize
        ensures { result ≡ length self.now }
    {
        self.trees.items().len()
    }

    /// Appends a tree. One that found no room is given up.
    pub fn push(&mut self, tree: Post) -> Result<(), NoMemory>
        ensures ok { OnOk result (self.new ≡ self.old ++ tree ∷ []) }
        ensures err { OnErr result (self.new ≡ self.old) }
    {
        self.trees.push(tree)
    }

    /// The trees, moved out.
    pub fn take(self) -> List<Post>
        ensures { result ≡ self }
    {
        let HeldPosts { trees } = self;
        trees
    }
}

/// A key or a value of a composite literal in the making.
pub struct HeldElementValue {
    tree: Whole<ElementValue>,
}

impl Drop for HeldElementValue {
    fn drop(self) {
        let HeldElementValue { tree: _ } = self;
    }
}

impl Model for HeldElementValue {
    ghost use Rattle.go_syntax.specs.declared.expression.ElementValue.{ElementValue};
    ghost use Rattle.go_syntax.specs.contracts.expression.ElementValue as t;
    ghost use Rattle.std.specs.Coded.{codes};

    ghost Value = { ElementValue };

    ghost coded = { Prim.hlevel (codes, t.the_row.coded) };

    ghost view = { λ h. h.tree };
}

impl HeldElementValue {
    /// Holds this tree.
    pub fn new(tree: ElementValue) -> HeldElementValue
        ensures { result ≡ tree }
    {
        HeldElementValue {
            tree: Whole::new(tree),
        }
    }

    /// The tree, moved out.
    pub fn take(self) -> ElementValue
        ensures { result ≡ self }
    {
        let HeldElementValue { tree } = self;
        tree.take()
    }
}

/// Elements of a composite literal in the making.
pub struct HeldElements {
    trees: List<Element>,
}

impl Drop for HeldElements {
    fn drop(self) {
        let HeldElements { trees: _ } = self;
    }
}

impl Model for HeldElements {
    ghost use Rattle.go_syntax.specs.declared.expression.Element.{Element};
    ghost use Rattle.go_syntax.specs.contracts.expression.Element as t;
    ghost use Rattle.std.specs.Coded.{codes, coded_list};
    ghost use Rattle.std.specs.Prelude.{List as Sequence};

    ghost Value = { Sequence Element };

    ghost coded = { coded_list (Prim.hlevel (codes, t.the_row.coded)) };

    ghost view = { λ h. h.trees };
}

impl HeldElements {
    /// No tree.
    pub fn new(alloc: Global) -> HeldElements
        ensures { result ≡ [] }
    {
        HeldElements {
            trees: List::new(alloc),
        }
    }

    /// How many trees there are.
    pub fn len(&self) -> usize
        ensures { result ≡ length self.now }
    {
        self.trees.items().len()
    }

    /// Appends a tree. One that found no room is given up.
    pub fn push(&mut self, tree: Element) -> Result<(), NoMemory>
        ensures ok { OnOk result (self.new ≡ self.old ++ tree ∷ []) }
        ensures err { OnErr result (self.new ≡ self.old) }
    {
        self.trees.push(tree)
    }

    /// The trees, moved out.
    pub fn take(self) -> List<Element>
        ensures { result ≡ self }
    {
        let HeldElements { trees } = self;
        trees
    }
}

/// A box of an expression. One that found no room is given up.
pub fn boxed_expr(alloc: Global, tree: Expr) -> Result<Box<Expr>, NoMemory>
    ensures { IfOk result (λ b. b ≡ tree) }
{
    Box::new(alloc, tree)
}

/// A box of an expression that may be missing. One that found no room is given up.
fn boxed_optional(alloc: Global, tree: Option<HeldExpr>) -> Result<Option<Box<Expr>>, NoMemory>
    ensures { IfOk result (λ b. b ≡ tree) }
{
    match tree {
        None => Ok(None),
        Some(tree) => Ok(Some(Box::new(alloc, tree.take())?)),
    }
}

/// A type literal as an expression. One that found no room is given up.
pub fn type_expr(alloc: Global, type_: Type) -> Result<Expr, NoMemory>
    ensures { IfOk result (λ x. x ≡ expr.Type type_) }
{
    Ok(Expr::Type(Box::new(alloc, type_)?))
}

/// A composite literal of this type and these elements, which are given up where memory is wanting.
pub fn composite(alloc: Global, type_: Type, elements: List<Element>) -> Result<Expr, NoMemory>
    ensures { IfOk result (λ x. x ≡ expr.Composite type_ elements) }
{
    let type_ = Box::new(alloc, type_)?;
    Ok(Expr::Composite(type_, elements))
}

/// The same of an array whose length its elements tell.
pub fn composite_array(
    alloc: Global,
    element: Type,
    elements: List<Element>,
) -> Result<Expr, NoMemory>
    ensures { IfOk result (λ x. x ≡ expr.CompositeArray element elements) }
{
    let element = Box::new(alloc, element)?;
    Ok(Expr::CompositeArray(element, elements))
}

/// A slice with these bounds, which are given up where memory is wanting.
pub fn slice_post(
    alloc: Global,
    low: Option<HeldExpr>,
    high: Option<HeldExpr>,
) -> Result<Post, NoMemory>
    ensures { IfOk result (λ p. p ≡ post.Slice low high) }
{
    let low = boxed_optional(alloc, low)?;
    let high = boxed_optional(alloc, high)?;
    Ok(Post::Slice(low, high))
}

/// The same of a slice with three bounds, of which the first may be missing.
pub fn full_slice_post(
    alloc: Global,
    low: Option<HeldExpr>,
    high: HeldExpr,
    max: HeldExpr,
) -> Result<Post, NoMemory>
    ensures { IfOk result (λ p. p ≡ post.FullSlice low high max) }
{
    let low = boxed_optional(alloc, low)?;
    let high = Box::new(alloc, high.take())?;
    let max = Box::new(alloc, max.take())?;
    Ok(Post::FullSlice(low, high, max))
}
