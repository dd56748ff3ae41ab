//! The trees in a statement.
ghost use Rattle.std.specs.Prelude.{◌≡◌, ◌++◌, ◌∷◌, [], map, IfOk, OnOk};
ghost use Rattle.go_base.specs.Keys.{item_of};
ghost use Rattle.go_nodes.specs.Trees.{nodes_in};
ghost use Rattle.go_rules.specs.Nodes.{expression, type as type_node};
ghost use Rattle.go_statement_rules.specs.Contexts.{own_nodes};
ghost use Rattle.go_statement_rules.specs.Statements.{listed_nodes, tag_nodes};
ghost use Rattle.go_syntax.specs.declared.statement.StmtKind.{out-StmtKind};

use go_base::list::List;
use go_base::memory::NoMemory;
use go_nodes::tree::Tree;
use go_nodes::trees::Trees;
use go_syntax::expression::Expr;
use go_syntax::statement::StmtKind;
use go_syntax::types::Type;
use std::alloc::Global;

/// Adds expressions.
pub fn push_exprs<'a>(trees: &mut Trees<'a>, exprs: &'a [Expr]) -> Result<(), NoMemory>
    ensures { OnOk result (nodes_in trees.new ≡ nodes_in trees.old ++ map expression exprs.now) }
{
    for expr in exprs {
        trees.push(Tree::Expr(expr))?;
    }
    Ok(())
}

fn push_types<'a>(trees: &mut Trees<'a>, forms: &'a [Type]) -> Result<(), NoMemory>
    ensures { OnOk result (nodes_in trees.new ≡ nodes_in trees.old ++ map type_node forms.now) }
{
    for form in forms {
        trees.push(Tree::Type(form))?;
    }
    Ok(())
}

/// One expression.
pub fn expr_tree<'a>(alloc: Global, expr: &'a Expr) -> Result<Trees<'a>, NoMemory>
    ensures { IfOk result (λ trees. nodes_in trees ≡ expression expr.now ∷ []) }
{
    let mut trees = Trees::new(alloc);
    trees.push(Tree::Expr(expr))?;
    Ok(trees)
}

/// Expressions.
pub fn expr_trees<'a>(alloc: Global, exprs: &'a [Expr]) -> Result<Trees<'a>, NoMemory>
    ensures { IfOk result (λ trees. nodes_in trees ≡ map expression exprs.now) }
{
    let mut trees = Trees::new(alloc);
    push_exprs(&mut trees, exprs)?;
    Ok(trees)
}

/// An expression that may be left out.
pub fn optional_tree<'a>(alloc: Global, expr: Option<&'a Expr>) -> Result<Trees<'a>, NoMemory>
    ensures { IfOk result (λ trees. nodes_in trees ≡ tag_nodes (item_of expr.entry)) }
{
    match expr {
        Some(expr) => expr_tree(alloc, expr),
        None => Ok(Trees::new(alloc)),
    }
}

/// The types that a clause lists.
pub fn listed_trees<'a>(alloc: Global, forms: &'a Option<List<Type>>) -> Result<Trees<'a>, NoMemory>
    ensures { IfOk result (λ trees. nodes_in trees ≡ listed_nodes forms.now) }
{
    let mut trees = Trees::new(alloc);
    match forms {
        Some(forms) => {
            push_types(&mut trees, forms.items())?;
            Ok(trees)
        }
        None => Ok(trees),
    }
}

fn two_trees<'a>(alloc: Global, left: &'a Expr, right: &'a Expr) -> Result<Trees<'a>, NoMemory>
    ensures { IfOk result (λ trees. nodes_in trees ≡ expression left.now ∷ expression right.now ∷ []) }
{
    let mut trees = Trees::new(alloc);
    trees.push(Tree::Expr(left))?;
    trees.push(Tree::Expr(right))?;
    Ok(trees)
}

fn side_trees<'a>(
    alloc: Global,
    sides: &'a [Expr],
    values: &'a [Expr],
) -> Result<Trees<'a>, NoMemory>
    ensures { IfOk result (λ trees. nodes_in trees ≡ map expression (sides.now ++ values.now)) }
{
    let mut trees = Trees::new(alloc);
    push_exprs(&mut trees, sides)?;
    push_exprs(&mut trees, values)?;
    Ok(trees)
}

/// An expression, and others.
pub fn and_trees<'a>(
    alloc: Global,
    first: &'a Expr,
    others: &'a [Expr],
) -> Result<Trees<'a>, NoMemory>
    ensures { IfOk result (λ trees. nodes_in trees ≡ expression first.now ∷ map expression others.now) }
{
    let mut trees = Trees::new(alloc);
    trees.push(Tree::Expr(first))?;
    push_exprs(&mut trees, others)?;
    Ok(trees)
}

/// The expressions of a flat statement; want of memory is told of any other.
pub fn own_trees<'a>(alloc: Global, kind: &'a StmtKind) -> Result<Trees<'a>, NoMemory>
    ensures { IfOk result (λ trees. nodes_in trees ≡ own_nodes (out-StmtKind kind.now)) }
{
    match kind {
        StmtKind::Expr(expr) => expr_tree(alloc, expr),
        StmtKind::Send(channel, value) => two_trees(alloc, channel, value),
        StmtKind::Step(side, _) => expr_tree(alloc, side),
        StmtKind::Assign(sides, values) => side_trees(alloc, sides.items(), values.items()),
        StmtKind::AssignOp(side, _, value) => two_trees(alloc, side, value),
        StmtKind::Go(call) => expr_tree(alloc, call),
        StmtKind::Defer(call) => expr_tree(alloc, call),
        StmtKind::Return(values) => expr_trees(alloc, values.items()),
        StmtKind::Empty => Ok(Trees::new(alloc)),
        StmtKind::Break(_) => Ok(Trees::new(alloc)),
        StmtKind::Continue(_) => Ok(Trees::new(alloc)),
        StmtKind::Goto(_) => Ok(Trees::new(alloc)),
        StmtKind::Fallthrough => Ok(Trees::new(alloc)),
        _ => Err(NoMemory),
    }
}
