//! The methods that selectors find.
ghost use Rattle.std.specs.Prelude.{IfOk, OnOk, ◌≡◌};
ghost use Rattle.go_base.specs.Growing.{Grows};
ghost use Rattle.go_base.specs.Keys.{item_of};
ghost use Rattle.go_leads.specs.Listed.{Lists};
ghost use Rattle.go_leads.specs.Methods.{found_in};
ghost use Rattle.go_leads.specs.inner.Chains.{FoundAlong, FoundAt, FoundHere, FoundIn, FoundOf, FoundPost, ImportedAlong, owner_in};
ghost use Rattle.go_leads.specs.inner.Some.{SomeIn};
ghost use Rattle.go_nodes.specs.Trees.{node_of, nodes_in};
ghost use Rattle.go_rules.specs.Environments.{selector_of};
ghost use Rattle.go_rules.specs.Scopes.{env_of};
ghost use Rattle.go_syntax.specs.declared.expression.Expr.{Expr-F, out-Expr};
ghost use Rattle.go_syntax.specs.declared.expression.Post.{out-Post};
ghost use Rattle.go_type_terms.specs.Answers.{env_in};

use go_base::list::List;
use go_base::memory::NoMemory;
use go_expr::go_operators::values::{type_in, type_of};
use go_expr::typing::{type_expr, type_imported, type_post};
use go_model::types::found::Found;
use go_model::types::names::{Sel, TypeName};
use go_model::types::term::Term;
use go_nodes::tree::Tree;
use go_nodes::trees::Trees;
use go_rules::env::Env;
use go_rules::operand::Operand;
use go_selectors::lookup::error_type;
use go_syntax::expression::{Expr, Post};
use go_syntax::name::Name;
use go_type_terms::error::ExprError;
use go_usability::context::Context;
use go_usability::finding::found;
use std::alloc::Global;

/// A method, by the type that it is declared for and its selector.
#[derive(Drop)]
pub struct FoundMethod {
    pub owner: TypeName,
    pub sel: Sel,
}

// The type for which a method that was found is declared.
fn owner_in(found: &Option<Found>) -> Option<&TypeName>
    ensures { item_of result ≡ owner_in found.now }
{
    match found {
        Some(Found::MethodAt(at)) => at.owner.as_ref(),
        _ => None,
    }
}

fn push_method(
    alloc: Global,
    owner: &TypeName,
    sel: Sel,
    methods: &mut List<FoundMethod>,
) -> Result<(), NoMemory>
    ensures { OnOk result (Grows (λ m. m ≡ record { owner = owner.now; sel = sel }) methods.old methods.new) }
{
    methods.push(FoundMethod {
        owner: owner.copy(alloc)?,
        sel,
    })
}

// Adds the method that a name finds in a type.
fn push_in(
    context: &Context<'_>,
    alloc: Global,
    term: &Term,
    name: &Name,
    methods: &mut List<FoundMethod>,
) -> Result<(), NoMemory>
    ensures { OnOk result (Grows (FoundIn (env_in context.now) (selector_of (env_in context.now) name.now.text) term.now) methods.old methods.new) }
{
    let sel = context.env.selector(name.text.bytes())?;
    let answer = found(context, alloc, term, &sel)?;
    match owner_in(&answer) {
        Some(owner) => push_method(alloc, owner, sel, methods),
        None => Ok(()),
    }
}

// Adds the method that a name finds in an operand: in the type of a value, or in a type.
fn push_of(
    context: &Context<'_>,
    alloc: Global,
    operand: &Operand,
    name: &Name,
    methods: &mut List<FoundMethod>,
) -> Result<(), NoMemory>
    ensures { OnOk result (Grows (FoundOf (env_in context.now) operand.now (selector_of (env_in context.now) name.now.text)) methods.old methods.new) }
{
    if let Some(term) = type_in(operand) {
        return push_in(context, alloc, term, name, methods);
    }
    match type_of(operand) {
        Some(term) => push_in(context, alloc, term, name, methods),
        None => Ok(()),
    }
}

// Adds the method that a post finds in an operand, where it is a selector.
fn push_post(
    context: &Context<'_>,
    alloc: Global,
    operand: &Operand,
    post: &Post,
    methods: &mut List<FoundMethod>,
) -> Result<(), NoMemory>
    ensures { OnOk result (Grows (FoundPost (env_in context.now) operand.now (out-Post post.now)) methods.old methods.new) }
{
    match post {
        Post::Selector(name) => push_of(context, alloc, operand, name, methods),
        _ => Ok(()),
    }
}

// Adds the methods that are found in what follows an operand.
fn push_along(
    context: &Context<'_>,
    alloc: Global,
    first: Operand,
    posts: &[Post],
    methods: &mut List<FoundMethod>,
) -> Result<(), NoMemory>
    ensures { OnOk result (Grows (FoundAlong (env_in context.now) first posts.now) methods.old methods.new) }
{
    let mut operand = first;
    for post in posts {
        push_post(context, alloc, &operand, post, methods)?;
        match type_post(context, alloc, &operand, post) {
            Ok(next) => operand = next,
            Err(ExprError::Untyped) => return Ok(()),
            Err(ExprError::NoMemory) => return Err(NoMemory),
        }
    }
    Ok(())
}

// Adds the methods that are found behind an object of an imported package.
fn push_imported(
    context: &Context<'_>,
    alloc: Global,
    operand: &Expr,
    posts: &[Post],
    methods: &mut List<FoundMethod>,
) -> Result<(), NoMemory>
    ensures { OnOk result (Grows (ImportedAlong (env_in context.now) operand.now posts.now) methods.old methods.new) }
{
    let post = match posts.first() {
        Some(post) => post,
        None => return Ok(()),
    };
    match type_imported(context, alloc, operand, post) {
        Ok(first) => push_along(context, alloc, first, &posts[1..], methods),
        Err(ExprError::Untyped) => Ok(()),
        Err(ExprError::NoMemory) => Err(NoMemory),
    }
}

// Adds the methods that are found in an operand and what follows it.
fn push_primary(
    context: &Context<'_>,
    alloc: Global,
    operand: &Expr,
    posts: &[Post],
    methods: &mut List<FoundMethod>,
) -> Result<(), NoMemory>
    ensures { OnOk result (Grows (FoundAt (env_in context.now) (Expr-F.Primary operand.now posts.now)) methods.old methods.new) }
{
    match type_expr(context, alloc, operand) {
        Ok(first) => push_along(context, alloc, first, posts, methods),
        Err(ExprError::Untyped) => push_imported(context, alloc, operand, posts, methods),
        Err(ExprError::NoMemory) => Err(NoMemory),
    }
}

fn push_expr(
    context: &Context<'_>,
    alloc: Global,
    expr: &Expr,
    methods: &mut List<FoundMethod>,
) -> Result<(), NoMemory>
    ensures { OnOk result (Grows (FoundAt (env_in context.now) (out-Expr expr.now)) methods.old methods.new) }
{
    match expr {
        Expr::Primary(operand, posts) => {
            push_primary(context, alloc, operand.value(), posts.items(), methods)
        }
        _ => Ok(()),
    }
}

// Adds the methods that are found in a tree by itself.
fn push_here(
    context: &Context<'_>,
    alloc: Global,
    tree: Tree<'_>,
    methods: &mut List<FoundMethod>,
) -> Result<(), NoMemory>
    ensures { OnOk result (Grows (FoundHere (env_in context.now) (node_of tree.entry)) methods.old methods.new) }
{
    match tree {
        Tree::Expr(expr) => push_expr(context, alloc, expr, methods),
        Tree::Post(_) => Ok(()),
        Tree::Value(_) => Ok(()),
        Tree::Type(_) => Ok(()),
        Tree::Signature(_) => Ok(()),
    }
}

// Adds the methods that are found in each of these trees.
fn push_all(
    context: &Context<'_>,
    alloc: Global,
    mut trees: Trees<'_>,
    methods: &mut List<FoundMethod>,
) -> Result<(), NoMemory>
    ensures { OnOk result (Grows (SomeIn (found_in (env_in context.now)) (nodes_in trees.entry)) methods.old methods.new) }
{
    for _ in 0..usize::MAX {
        match trees.pop() {
            Some(tree) => {
                push_here(context, alloc, tree, methods)?;
                trees.push_parts(tree)?;
            }
            None => return Ok(()),
        }
    }
    Err(NoMemory)
}

/// The methods that selectors find in a tree, outside of the bodies of function literals: those of values, and
/// those of method expressions.
pub fn found_methods(
    env: &Env<'_>,
    alloc: Global,
    tree: Tree<'_>,
) -> Result<List<FoundMethod>, NoMemory>
    ensures { IfOk result (Lists (found_in (env_of env.now) (node_of tree.entry))) }
{
    let error = error_type(alloc)?;
    let context = Context::new(env, &error);
    let mut trees = Trees::new(alloc);
    trees.push(tree)?;
    let mut methods = List::new(alloc);
    push_all(&context, alloc, trees, &mut methods)?;
    Ok(methods)
}
