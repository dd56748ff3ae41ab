//! What is asked in trees of expressions and types, outside of the bodies of function literals.
ghost use Rattle.std.specs.Prelude.{IfOk};
ghost use Rattle.go_base.specs.Lists.{Each};
ghost use Rattle.go_nodes.specs.Here.{MeetsHere};
ghost use Rattle.go_nodes.specs.Trees.{node_of, nodes_in};
ghost use Rattle.go_rules.specs.Asks.{AreDistinctNames, Meets, TypeMeets, signature_names};
ghost use Rattle.go_selectors.specs.Answers.{Decides};
ghost use Rattle.go_syntax.specs.declared.types.«Type».{«out-Type» as out-Typ};
ghost use Rattle.go_type_terms.specs.Answers.{env_in};

use crate::keys::key_compares;
use crate::members::{interface_meets, structure_meets};
use go_base::memory::NoMemory;
use go_expr::go_usability::context::Context;
use go_nodes::distinct::are_distinct;
use go_nodes::names::signature_names;
use go_nodes::tree::Tree;
use go_nodes::trees::Trees;
use go_syntax::types::{Signature, Type};
use std::alloc::Global;

// Whether a type form by itself meets what it is asked.
fn type_meets(context: &Context<'_>, alloc: Global, form: &Type) -> Result<bool, NoMemory>
    ensures { IfOk result (λ answer. Decides answer (TypeMeets (env_in context.now) (out-Typ form.now))) }
{
    match form {
        Type::Map(key, _) => key_compares(context, alloc, key.value()),
        Type::Struct(decls) => structure_meets(context, alloc, decls.items()),
        Type::Interface(elements) => interface_meets(context, alloc, elements.items()),
        _ => Ok(true),
    }
}

// Whether the names of parameters and results are distinct.
fn signature_meets(alloc: Global, signature: &Signature) -> Result<bool, NoMemory>
    ensures { IfOk result (λ answer. Decides answer (AreDistinctNames (signature_names signature.now))) }
{
    let names = signature_names(alloc, signature)?;
    let distinct = are_distinct(alloc, names.items())?;
    Ok(distinct)
}

// Whether a tree by itself meets what it is asked.
fn meets_here(context: &Context<'_>, alloc: Global, tree: Tree<'_>) -> Result<bool, NoMemory>
    ensures { IfOk result (λ answer. Decides answer (MeetsHere (env_in context.now) (node_of tree.entry))) }
{
    match tree {
        Tree::Expr(_) => Ok(true),
        Tree::Post(_) => Ok(true),
        Tree::Value(_) => Ok(true),
        Tree::Type(form) => type_meets(context, alloc, form),
        Tree::Signature(signature) => signature_meets(alloc, signature),
    }
}

/// Whether all that is asked in each of these trees is met.
pub fn meet(context: &Context<'_>, alloc: Global, mut trees: Trees<'_>) -> Result<bool, NoMemory>
    ensures { IfOk result (λ answer. Decides answer (Each (Meets (env_in context.now)) (nodes_in trees.entry))) }
{
    for _ in 0..usize::MAX {
        match trees.pop() {
            Some(tree) => {
                if !meets_here(context, alloc, tree)? {
                    return Ok(false);
                }
                trees.push_parts(tree)?;
            }
            None => return Ok(true),
        }
    }
    Err(NoMemory)
}

/// Whether all that is asked in a tree is met: that the keys of maps can be compared, that what is
/// embedded may be, and that names are distinct where they have to be.
pub fn meets(context: &Context<'_>, alloc: Global, tree: Tree<'_>) -> Result<bool, NoMemory>
    ensures { IfOk result (λ answer. Decides answer (Meets (env_in context.now) (node_of tree.entry))) }
{
    let mut trees = Trees::new(alloc);
    trees.push(tree)?;
    let met = meet(context, alloc, trees)?;
    Ok(met)
}
