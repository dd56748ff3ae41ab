//! The names that are keys of struct literals.
ghost use Rattle.std.specs.Prelude.{◌≡◌, ◌++◌, IfOk, OnOk};
ghost use Rattle.go_base.specs.Growing.{Grows};
ghost use Rattle.go_leads.specs.Listed.{Lists, names_of};
ghost use Rattle.go_leads.specs.inner.Bares.{bares_in, bare_values};
ghost use Rattle.go_leads.specs.inner.FieldKeys.{KeyAt, KeyHere, KeyIn, field_keys, key_name, key_names, name_alone, value_name};
ghost use Rattle.go_leads.specs.inner.Some.{SomeIn, keys_of};
ghost use Rattle.go_model.specs.types.Underlying.{under};
ghost use Rattle.go_nodes.specs.Trees.{node_of, nodes_in};
ghost use Rattle.go_rules.specs.Scopes.{env_of};
ghost use Rattle.go_syntax.specs.declared.expression.ElementValue.{out-ElementValue};
ghost use Rattle.go_syntax.specs.declared.expression.Expr.{Expr-F, out-Expr};
ghost use Rattle.go_type_terms.specs.Answers.{env_in};
ghost use Rattle.go_typings.specs.References.{IsFieldKey};

use crate::bares::{Bare, Bares};
use go_base::list::List;
use go_base::memory::NoMemory;
use go_expr::typing::type_of;
use go_model::types::term::Term;
use go_nodes::tree::Tree;
use go_nodes::trees::Trees;
use go_rules::env::Env;
use go_selectors::lookup::error_type;
use go_syntax::expression::{Element, ElementValue, Expr};
use go_syntax::name::Name;
use go_syntax::types::Type;
use go_type_terms::error::ExprError;
use go_usability::context::Context;
use std::alloc::Global;

fn push_name<'a>(keys: &mut List<&'a Name>, expr: &'a Expr) -> Result<(), NoMemory>
    ensures { OnOk result (names_of keys.new ≡ names_of keys.old ++ name_alone (out-Expr expr.now)) }
{
    match expr {
        Expr::Name(name) => keys.push(name),
        _ => Ok(()),
    }
}

fn push_value<'a>(keys: &mut List<&'a Name>, value: &'a ElementValue) -> Result<(), NoMemory>
    ensures { OnOk result (names_of keys.new ≡ names_of keys.old ++ value_name (out-ElementValue value.now)) }
{
    match value {
        ElementValue::Value(expr) => push_name(keys, expr),
        ElementValue::Literal(_) => Ok(()),
    }
}

fn push_key<'a>(keys: &mut List<&'a Name>, key: &'a Option<ElementValue>) -> Result<(), NoMemory>
    ensures { OnOk result (names_of keys.new ≡ names_of keys.old ++ key_name key.now) }
{
    match key {
        Some(key) => push_value(keys, key),
        None => Ok(()),
    }
}

fn push_keys<'a>(keys: &mut List<&'a Name>, elements: &'a [Element]) -> Result<(), NoMemory>
    ensures { OnOk result (names_of keys.new ≡ names_of keys.old ++ key_names elements.now) }
{
    for element in elements {
        push_key(keys, &element.key)?;
    }
    Ok(())
}

// Adds the keys of a literal that name fields.
fn push_fields<'a>(
    context: &Context<'_>,
    term: &Term,
    elements: &'a [Element],
    keys: &mut List<&'a Name>,
) -> Result<(), NoMemory>
    ensures { OnOk result (names_of keys.new ≡ names_of keys.old ++ field_keys (under (env_in context.now).table term.now) elements.now) }
{
    match context.under(term) {
        Term::Struct(_) => push_keys(keys, elements),
        _ => Ok(()),
    }
}

// Adds the keys of literals that name fields, and of those without a type among their elements.
fn push_bares<'t, 'a>(
    context: &Context<'t>,
    mut bares: Bares<'t, 'a>,
    keys: &mut List<&'a Name>,
) -> Result<(), NoMemory>
    ensures { OnOk result (Grows (SomeIn (keys_of (env_in context.now)) (bares_in bares.entry)) (names_of keys.old) (names_of keys.new)) }
{
    for _ in 0..usize::MAX {
        match bares.pop() {
            Some(bare) => {
                push_fields(context, bare.term, bare.elements, keys)?;
                bares.push_inner(context, bare)?;
            }
            None => return Ok(()),
        }
    }
    Err(NoMemory)
}

// Adds the keys of a literal of this type.
fn push_literal<'a>(
    context: &Context<'_>,
    alloc: Global,
    term: &Term,
    elements: &'a [Element],
    keys: &mut List<&'a Name>,
) -> Result<(), NoMemory>
    ensures { OnOk result (Grows (KeyIn (env_in context.now) term.now elements.now) (names_of keys.old) (names_of keys.new)) }
{
    let mut bares = Bares::new(alloc);
    bares.push(Bare { term, elements })?;
    push_bares(context, bares, keys)
}

// Adds the keys of a literal of an array of this element type.
fn push_array<'a>(
    context: &Context<'_>,
    alloc: Global,
    term: &Term,
    elements: &'a [Element],
    keys: &mut List<&'a Name>,
) -> Result<(), NoMemory>
    ensures { OnOk result (Grows (SomeIn (keys_of (env_in context.now)) (bare_values (env_in context.now) term.now elements.now)) (names_of keys.old) (names_of keys.new)) }
{
    let mut bares = Bares::new(alloc);
    bares.push_values(context, term, elements)?;
    push_bares(context, bares, keys)
}

fn push_composite<'a>(
    context: &Context<'_>,
    alloc: Global,
    form: &Type,
    elements: &'a [Element],
    keys: &mut List<&'a Name>,
) -> Result<(), NoMemory>
    ensures { OnOk result (Grows (KeyAt (env_in context.now) (Expr-F.Composite form.now elements.now)) (names_of keys.old) (names_of keys.new)) }
{
    match type_of(context, alloc, form) {
        Ok(term) => push_literal(context, alloc, &term, elements, keys),
        Err(ExprError::Untyped) => Ok(()),
        Err(ExprError::NoMemory) => Err(NoMemory),
    }
}

fn push_composite_array<'a>(
    context: &Context<'_>,
    alloc: Global,
    form: &Type,
    elements: &'a [Element],
    keys: &mut List<&'a Name>,
) -> Result<(), NoMemory>
    ensures { OnOk result (Grows (KeyAt (env_in context.now) (Expr-F.CompositeArray form.now elements.now)) (names_of keys.old) (names_of keys.new)) }
{
    match type_of(context, alloc, form) {
        Ok(term) => push_array(context, alloc, &term, elements, keys),
        Err(ExprError::Untyped) => Ok(()),
        Err(ExprError::NoMemory) => Err(NoMemory),
    }
}

fn push_expr<'a>(
    context: &Context<'_>,
    alloc: Global,
    expr: &'a Expr,
    keys: &mut List<&'a Name>,
) -> Result<(), NoMemory>
    ensures { OnOk result (Grows (KeyAt (env_in context.now) (out-Expr expr.now)) (names_of keys.old) (names_of keys.new)) }
{
    match expr {
        Expr::Composite(form, elements) => {
            push_composite(context, alloc, form.value(), elements.items(), keys)
        }
        Expr::CompositeArray(form, elements) => {
            push_composite_array(context, alloc, form.value(), elements.items(), keys)
        }
        _ => Ok(()),
    }
}

// Adds the keys of the literal that a tree by itself is.
fn push_here<'a>(
    context: &Context<'_>,
    alloc: Global,
    tree: Tree<'a>,
    keys: &mut List<&'a Name>,
) -> Result<(), NoMemory>
    ensures { OnOk result (Grows (KeyHere (env_in context.now) (node_of tree.entry)) (names_of keys.old) (names_of keys.new)) }
{
    match tree {
        Tree::Expr(expr) => push_expr(context, alloc, expr, keys),
        Tree::Post(_) => Ok(()),
        Tree::Value(_) => Ok(()),
        Tree::Type(_) => Ok(()),
        Tree::Signature(_) => Ok(()),
    }
}

// Adds the keys of literals in each of these trees.
fn push_all<'a>(
    context: &Context<'_>,
    alloc: Global,
    mut trees: Trees<'a>,
    keys: &mut List<&'a Name>,
) -> Result<(), NoMemory>
    ensures { OnOk result (Grows (SomeIn (IsFieldKey (env_in context.now)) (nodes_in trees.entry)) (names_of keys.old) (names_of keys.new)) }
{
    for _ in 0..usize::MAX {
        match trees.pop() {
            Some(tree) => {
                push_here(context, alloc, tree, keys)?;
                trees.push_parts(tree)?;
            }
            None => return Ok(()),
        }
    }
    Err(NoMemory)
}

/// The names that are keys of struct literals in a tree, outside of the bodies of function literals: those of
/// fields.
pub fn field_keys<'a>(
    env: &Env<'_>,
    alloc: Global,
    tree: Tree<'a>,
) -> Result<List<&'a Name>, NoMemory>
    ensures { IfOk result (λ keys. Lists (IsFieldKey (env_of env.now) (node_of tree.entry)) (names_of keys)) }
{
    let error = error_type(alloc)?;
    let context = Context::new(env, &error);
    let mut trees = Trees::new(alloc);
    trees.push(tree)?;
    let mut keys = List::new(alloc);
    push_all(&context, alloc, trees, &mut keys)?;
    Ok(keys)
}
