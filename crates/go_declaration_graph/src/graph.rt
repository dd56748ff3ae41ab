//! The graph of a package's declarations.
ghost use Rattle.std.specs.Prelude.{◌≡◌, ◌≢◌, ◌+◌, [], length, IfOk, OnOk};
ghost use Rattle.go_declarations.specs.Listings.{declaration_of, declarations_of};
ghost use Rattle.go_declared.specs.PackageTables.{AreTables};
ghost use Rattle.go_package_scopes.specs.KeptScopes.{IsMoved};
ghost use Rattle.go_package_scopes.specs.PackageScopes.{IsScopeOf, at_declaration};
ghost use Rattle.go_rules.specs.Scopes.{env_of};
ghost use Rattle.go_sifting.specs.Graphs.{IsGraphOf};
ghost use Rattle.go_typings.specs.Declarations.{declarations as declarations_in};
ghost use Rattle.go_typings.specs.PackageEnvironments.{Entries};
ghost use Rattle.go_typings.specs.Sources.{PackageSource, Setting};
ghost use Rattle.go_declaration_graph.specs.declared.rows.DeclarationRows.{DeclarationRows as Rows};
ghost use Rattle.go_declaration_graph.specs.inner.Rows.{AreRowsIn, HasRows, with_rows};

use crate::method_index::MethodIndex;
use crate::rows::{DeclarationRows, rows};
use go_base::list::List;
use go_base::memory::NoMemory;
use go_declarations::listing::Declaration;
use go_declared::methods::DeclaredMethods;
use go_declared::names::DeclaredNames;
use go_declared::package::PackageTables;
use go_rules::env::Env;
use go_sifting::graph::DeclarationGraph;
use std::alloc::Global;

// A graph of no declarations.
fn no_rows(alloc: Global) -> DeclarationGraph
    ensures { result ≡ record { depends = []; leads = []; after = []; lengths = [] } }
{
    DeclarationGraph {
        depends: List::new(alloc),
        leads: List::new(alloc),
        after: List::new(alloc),
        lengths: List::new(alloc),
    }
}

fn add(graph: &mut DeclarationGraph, rows: DeclarationRows) -> Result<(), NoMemory>
    ensures { OnOk result (graph.new ≡ with_rows graph.old rows) }
{
    let DeclarationRows {
        depends,
        leads,
        after,
        lengths,
    } = rows;
    graph.depends.push(depends)?;
    graph.leads.push(leads)?;
    graph.after.push(after)?;
    graph.lengths.push(lengths)
}

/// Makes the environment that of a declaration.
pub(crate) fn turn_to(env: &mut Env<'_>, declaration: &Declaration<'_>)
    ensures { env.new ≡ at_declaration env.old (declaration_of declaration.now) }
{
    env.turn_to(declaration.file);
    env.set_iota(declaration.form.iota());
}

// Adds the rows of a declaration.
fn add_declaration(
    alloc: Global,
    env: &mut Env<'_>,
    names: &DeclaredNames,
    methods: &DeclaredMethods,
    index: &MethodIndex,
    declaration: &Declaration<'_>,
    graph: &mut DeclarationGraph,
) -> Result<(), NoMemory>
    ensures moved { env.new ≡ at_declaration env.old (declaration_of declaration.now) }
    ensures rows { OnOk result ((r : Rows) × (graph.new ≡ with_rows graph.old r) × AreRowsIn names.now methods.now index.now.tables (env_of (at_declaration env.old (declaration_of declaration.now))) (declaration_of declaration.now).form r) }
{
    turn_to(env, declaration);
    let rows = rows(env, alloc, names, methods, index, declaration.form)?;
    add(graph, rows)
}

// Adds the rows of each of these declarations.
fn add_declarations(
    alloc: Global,
    env: &mut Env<'_>,
    names: &DeclaredNames,
    methods: &DeclaredMethods,
    index: &MethodIndex,
    declarations: &[Declaration<'_>],
) -> Result<DeclarationGraph, NoMemory>
    ensures moved { IsMoved env.old env.new }
    ensures rows { IfOk result (HasRows names.now methods.now index.now.tables env.old (declarations_of declarations.now) (length declarations.now)) }
{
    let mut graph = no_rows(alloc);
    for declaration in declarations {
        add_declaration(alloc, env, names, methods, index, declaration, &mut graph)?;
    }
    Ok(graph)
}

/// What the declarations of a package have to do with one another, where the environment has what is had of it. `names`
/// tells where they declare names, and `methods` which methods they declare. The file in turn and the value of `iota`
/// change. For numbers past 32 bits there is no memory.
pub fn graph(
    alloc: Global,
    env: &mut Env<'_>,
    tables: &PackageTables<'_>,
) -> Result<DeclarationGraph, NoMemory>
    requires { AreTables tables.now }
    ensures graph { (s : Setting) (u : PackageSource) (a : Entries) → declarations_in u ≡ declarations_of tables.now.declarations.now → u.path ≢ [] → IsScopeOf s u a env.old → IfOk result (λ g. IsGraphOf s u a g) }
    ensures moved { IsMoved env.old env.new }
{
    let index = MethodIndex::of(alloc, tables.declarations, tables.methods)?;
    add_declarations(
        alloc,
        env,
        tables.names,
        tables.methods,
        &index,
        tables.declarations,
    )
}
