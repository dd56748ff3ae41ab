//! The numbers of the methods of the package that selectors find.
ghost use Rattle.std.specs.Prelude.{◌≡◌, ◌++◌, OnOk};
ghost use Rattle.go_base.specs.Gathered.{gather};
ghost use Rattle.go_base.specs.Growing.{Grows};
ghost use Rattle.go_leads.specs.inner.Some.{SomeIn};
ghost use Rattle.go_rules.specs.Scopes.{env_of};
ghost use Rattle.go_declaration_graph.specs.inner.FoundNumbers.{FindsNumberIn, found};

use crate::method_index::MethodIndex;
use go_base::list::List;
use go_base::memory::NoMemory;
use go_declared::names::DeclaredNames;
use go_leads::methods::{FoundMethod, found_methods};
use go_nodes::tree::Tree;
use go_rules::env::Env;
use std::alloc::Global;

fn push_numbers(row: &mut List<u32>, numbers: &[u32]) -> Result<(), NoMemory>
    ensures { OnOk result (row.new ≡ row.old ++ numbers.now) }
{
    for number in numbers {
        row.push(*number)?;
    }
    Ok(())
}

fn push_found(
    row: &mut List<u32>,
    path: &[u8],
    names: &DeclaredNames,
    index: &MethodIndex,
    method: &FoundMethod,
) -> Result<(), NoMemory>
    ensures { OnOk result (row.new ≡ row.old ++ found path.now names.now index.now.tables method.now) }
{
    if method.owner.path.bytes() != path {
        return Ok(());
    }
    push_numbers(row, index.get(names, &method.owner.name, &method.sel.name))
}

fn push_all_found(
    row: &mut List<u32>,
    path: &[u8],
    names: &DeclaredNames,
    index: &MethodIndex,
    methods: &[FoundMethod],
) -> Result<(), NoMemory>
    ensures { OnOk result (row.new ≡ row.old ++ gather (found path.now names.now index.now.tables) methods.now) }
{
    for method in methods {
        push_found(row, path, names, index, method)?;
    }
    Ok(())
}

// Adds the methods of the package that selectors find in a tree.
fn push_found_in(
    env: &Env<'_>,
    alloc: Global,
    row: &mut List<u32>,
    names: &DeclaredNames,
    index: &MethodIndex,
    tree: Tree<'_>,
) -> Result<(), NoMemory>
    ensures { OnOk result (Grows (FindsNumberIn (env_of env.now) names.now index.now.tables tree.entry) row.old row.new) }
{
    let methods = found_methods(env, alloc, tree)?;
    push_all_found(row, env.path(), names, index, methods.items())
}

/// Adds the methods of the package that selectors find in one of these trees.
pub(crate) fn push_found_in_each(
    env: &Env<'_>,
    alloc: Global,
    row: &mut List<u32>,
    names: &DeclaredNames,
    index: &MethodIndex,
    trees: &[Tree<'_>],
) -> Result<(), NoMemory>
    ensures { OnOk result (Grows (SomeIn (FindsNumberIn (env_of env.now) names.now index.now.tables) trees.now) row.old row.new) }
{
    for tree in trees {
        push_found_in(env, alloc, row, names, index, *tree)?;
    }
    Ok(())
}
