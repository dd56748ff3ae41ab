//! Numbers that the profile can't say.
ghost use Rattle.std.specs.Prelude.{◌≡◌, length, IfOk};
ghost use Rattle.go_beyond.specs.Numbers.{HasNumberAt, IsNumber, IsNumberHere};
ghost use Rattle.go_declarations.specs.Forms.{form_of};
ghost use Rattle.go_declarations.specs.Listings.{declarations_of};
ghost use Rattle.go_exposed.specs.BeyondProfile.{HasNumber, is_beyond};
ghost use Rattle.go_graphs.specs.Flags.{AreFlagsOf};
ghost use Rattle.go_nodes.specs.Trees.{node_of};
ghost use Rattle.go_selectors.specs.Answers.{Decides};

use go_base::memory::NoMemory;
use go_declarations::form::Form;
use go_declarations::listing::Declaration;
use go_nodes::declarations::trees_of;
use go_nodes::tree::Tree;
use go_syntax::expression::{Expr, Literal};
use std::alloc::Global;

fn is_beyond(literal: &Literal) -> bool
    ensures { result ≡ is_beyond literal.now }
{
    match literal {
        Literal::Wide => true,
        Literal::Float => true,
        Literal::Imaginary => true,
        _ => false,
    }
}

// Whether an expression is such a number.
fn is_number(expr: &Expr) -> bool
    ensures { Decides result (IsNumber expr.now) }
{
    match expr {
        Expr::Literal(literal) => is_beyond(literal),
        _ => false,
    }
}

// Whether a tree by itself is such a number.
fn is_number_here(tree: Tree<'_>) -> bool
    ensures { Decides result (IsNumberHere (node_of tree.entry)) }
{
    match tree {
        Tree::Expr(expr) => is_number(expr),
        Tree::Post(_) => false,
        Tree::Value(_) => false,
        Tree::Type(_) => false,
        Tree::Signature(_) => false,
    }
}

/// Whether a number that the profile can't say is written in a declaration, outside of bodies: an integer that is too large, a
/// floating-point number or an imaginary one.
pub fn has_number(alloc: Global, form: Form<'_>) -> Result<bool, NoMemory>
    ensures { IfOk result (λ answer. Decides answer (HasNumber (form_of form.entry))) }
{
    let mut trees = trees_of(alloc, form)?;
    for _ in 0..usize::MAX {
        match trees.pop() {
            Some(tree) => {
                if is_number_here(tree) {
                    return Ok(true);
                }
                trees.push_parts(tree)?;
            }
            None => return Ok(false),
        }
    }
    Err(NoMemory)
}

/// Flags of the declarations of a package in which such a number is written.
pub fn having_numbers(
    alloc: Global,
    declarations: &[Declaration<'_>],
) -> Result<Vec<bool>, NoMemory>
    ensures { IfOk result (λ flags. AreFlagsOf (length declarations.now) (HasNumberAt (declarations_of declarations.now)) flags.items) }
{
    let mut flags = Vec::new(alloc);
    for number in 0..declarations.len() {
        let found = has_number(alloc, declarations[number].form)?;
        flags.push(found)?;
    }
    Ok(flags)
}
