//! The function literals in trees.
ghost use Rattle.std.specs.Prelude.{◌≡◌, ◌++◌, [], ◌∷◌, IfOk, OnOk};
ghost use Rattle.go_literal_blocks.specs.Literals.{AreLiteralsOf, form_in, forms_in, listed, literal_here};
ghost use Rattle.go_nodes.specs.Trees.{node_of, nodes_in};

use go_base::list::List;
use go_base::memory::NoMemory;
use go_nodes::tree::Tree;
use go_nodes::trees::Trees;
use go_syntax::body::BodyRange;
use go_syntax::expression::Expr;
use go_syntax::types::Signature;
use std::alloc::Global;

/// A function literal: its signature, and where its block stands.
#[derive(Clone, Copy)]
pub struct Literal<'a> {
    pub signature: &'a Signature,
    pub body: &'a BodyRange,
}

fn literal_of(expr: &Expr) -> Option<Literal<'_>>
    ensures { form_in result ≡ literal_here (node_of (Tree.Expr expr.entry)) }
{
    match expr {
        Expr::FuncLit(signature, body) => Some(Literal {
            signature: signature.value(),
            body,
        }),
        _ => None,
    }
}

fn literal_here(tree: Tree<'_>) -> Option<Literal<'_>>
    ensures { form_in result ≡ literal_here (node_of tree.entry) }
{
    match tree {
        Tree::Expr(expr) => literal_of(expr),
        Tree::Post(_) => None,
        Tree::Value(_) => None,
        Tree::Type(_) => None,
        Tree::Signature(_) => None,
    }
}

// Adds a tree, where it is a function literal itself.
fn note<'a>(found: &mut List<Literal<'a>>, tree: Tree<'a>) -> Result<(), NoMemory>
    ensures { OnOk result (forms_in found.new ≡ forms_in found.old ++ listed (literal_here (node_of tree.entry))) }
{
    match literal_here(tree) {
        Some(literal) => found.push(literal),
        None => Ok(()),
    }
}

/// The function literals that stand in trees, outside of the blocks of others.
pub fn literals_in<'a>(alloc: Global, mut trees: Trees<'a>) -> Result<List<Literal<'a>>, NoMemory>
    ensures { IfOk result (λ found. AreLiteralsOf (nodes_in trees.entry) (forms_in found)) }
{
    let mut found = List::new(alloc);
    for _ in 0..usize::MAX {
        match trees.pop() {
            Some(tree) => {
                note(&mut found, tree)?;
                trees.push_parts(tree)?;
            }
            None => return Ok(found),
        }
    }
    Err(NoMemory)
}
