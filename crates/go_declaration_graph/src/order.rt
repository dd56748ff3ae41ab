//! What mostly tells by itself that no declaration of a package is lost.
ghost use Rattle.std.specs.Prelude.{◌≡◌, ◌≢◌, ◌+◌, ◌++◌, ◌∷◌, ℕ, true, List as Sequence, [], Some, length, replicate, set, slice_get, IfOk, OnOk};
ghost use Rattle.go_base.specs.Lists.{Has};
ghost use Rattle.go_declarations.specs.Listings.{declaration_of, declarations_of};
ghost use Rattle.go_declared.specs.PackageTables.{AreTables};
ghost use Rattle.go_graphs.specs.Flags.{AreFlagsOf};
ghost use Rattle.go_package_scopes.specs.KeptScopes.{IsMoved};
ghost use Rattle.go_package_scopes.specs.PackageScopes.{IsScopeOf, at_declaration};
ghost use Rattle.go_rules.specs.Scopes.{Scopes, env_of};
ghost use Rattle.go_sifting.specs.Orders.{IsOrderOf, IsReached};
ghost use Rattle.go_typings.specs.Declarations.{declarations as declarations_in};
ghost use Rattle.go_typings.specs.PackageEnvironments.{Entries};
ghost use Rattle.go_typings.specs.Sources.{PackageSource, Setting};
ghost use Rattle.go_declaration_graph.specs.inner.MethodNumbers.{tables_of};
ghost use Rattle.go_declaration_graph.specs.inner.Orders.{HasReach, IsKindRow};
ghost use Rattle.go_declaration_graph.specs.inner.Reaching.{ArePending, AreReached, numbers_in};
ghost use Rattle.go_declaration_graph.specs.inner.Rows.{HasRowsOf, LeadsIn};

use crate::graph::turn_to;
use crate::method_index::MethodIndex;
use crate::references::Kind;
use crate::rows::{kind_row, leads_row};
use go_base::list::List;
use go_base::memory::NoMemory;
use go_declarations::listing::Declaration;
use go_declared::names::DeclaredNames;
use go_declared::package::PackageTables;
use go_graphs::flags::{flag, flags_of};
use go_rules::env::Env;
use go_sifting::order::DeclarationOrder;
use std::alloc::Global;

// Adds the row of a declaration.
fn add_row(
    alloc: Global,
    env: &mut Env<'_>,
    names: &DeclaredNames,
    kind: Kind,
    declaration: &Declaration<'_>,
    rows: &mut List<List<u32>>,
) -> Result<(), NoMemory>
    ensures moved { env.new ≡ at_declaration env.old (declaration_of declaration.now) }
    ensures row { OnOk result ((r : Sequence ℕ) × (rows.new ≡ rows.old ++ r ∷ []) × IsKindRow names.now kind (env_of (at_declaration env.old (declaration_of declaration.now))) (declaration_of declaration.now).form r) }
{
    turn_to(env, declaration);
    let row = kind_row(env, alloc, names, kind, declaration.form)?;
    rows.push(row)?;
    Ok(())
}

// The rows of each of these declarations.
fn kind_rows(
    alloc: Global,
    env: &mut Env<'_>,
    names: &DeclaredNames,
    kind: Kind,
    declarations: &[Declaration<'_>],
) -> Result<List<List<u32>>, NoMemory>
    ensures moved { IsMoved env.old env.new }
    ensures rows { IfOk result (HasRowsOf (IsKindRow names.now kind) env.old (declarations_of declarations.now) (length declarations.now)) }
{
    let mut rows = List::new(alloc);
    for declaration in declarations {
        add_row(alloc, env, names, kind, declaration, &mut rows)?;
    }
    Ok(rows)
}

// Rows of steps, and flags of the declarations whose row is told.
#[derive(Drop)]
struct Reach {
    rows: Vec<List<u32>>,
    flags: Vec<bool>,
}

fn empty_rows(alloc: Global, count: usize) -> Result<Vec<List<u32>>, NoMemory>
    ensures { IfOk result (λ rows. rows.items ≡ replicate count []) }
{
    let mut rows = Vec::new(alloc);
    for _ in 0..count {
        rows.push(List::new(alloc))?;
    }
    Ok(rows)
}

// No row is told.
fn no_reach(alloc: Global, count: usize) -> Result<Reach, NoMemory>
    ensures rows { IfOk result (λ reach. reach.rows.items ≡ replicate count []) }
    ensures flags { IfOk result (λ reach. AreFlagsOf count (Has []) reach.flags.items) }
{
    let rows = empty_rows(alloc, count)?;
    let flags = flags_of(alloc, count, &[])?;
    Ok(Reach { rows, flags })
}

fn push_all(pending: &mut Vec<u32>, numbers: &[u32]) -> Result<(), NoMemory>
    ensures { OnOk result (pending.new.items ≡ pending.old.items ++ numbers.now) }
{
    for number in numbers {
        pending.push(*number)?;
    }
    Ok(())
}

// The numbers in these rows.
fn numbers_in(alloc: Global, rows: &[List<u32>]) -> Result<Vec<u32>, NoMemory>
    ensures { IfOk result (λ numbers. numbers.items ≡ numbers_in rows.now) }
{
    let mut numbers = Vec::new(alloc);
    for row in rows {
        push_all(&mut numbers, row.items())?;
    }
    Ok(numbers)
}

fn number_at(numbers: &Vec<u32>, place: usize) -> Option<usize>
    ensures { result ≡ slice_get numbers.now.items place }
{
    match numbers.get(place) {
        None => None,
        Some(number) => Some(*number as usize),
    }
}

fn put_row(rows: &mut Vec<List<u32>>, number: usize, row: List<u32>)
    ensures { rows.new.items ≡ set rows.old.items number row }
{
    if number < rows.len() {
        rows[number] = row;
    }
}

fn put_flag(flags: &mut Vec<bool>, number: usize)
    ensures { flags.new.items ≡ set flags.old.items number true }
{
    if number < flags.len() {
        flags[number] = true;
    }
}

// Tells the row of the declaration of a number. What it leads to is pending then.
fn tell(
    alloc: Global,
    env: &mut Env<'_>,
    names: &DeclaredNames,
    index: &MethodIndex,
    declaration: &Declaration<'_>,
    number: usize,
    reach: &mut Reach,
    pending: &mut Vec<u32>,
) -> Result<(), NoMemory>
    ensures moved { env.new ≡ at_declaration env.old (declaration_of declaration.now) }
    ensures flags { OnOk result (reach.new.flags.items ≡ set reach.old.flags.items number true) }
    ensures row { OnOk result ((r : Sequence ℕ) × (reach.new.rows.items ≡ set reach.old.rows.items number r) × (pending.new.items ≡ pending.old.items ++ r) × LeadsIn names.now index.now.tables (env_of (at_declaration env.old (declaration_of declaration.now))) (declaration_of declaration.now).form r) }
{
    turn_to(env, declaration);
    let row = leads_row(env, alloc, names, index, declaration.form)?;
    push_all(pending, row.items())?;
    put_row(&mut reach.rows, number, row);
    put_flag(&mut reach.flags, number);
    Ok(())
}

// The same, unless it is told already or there is no such declaration.
fn visit(
    alloc: Global,
    env: &mut Env<'_>,
    names: &DeclaredNames,
    index: &MethodIndex,
    declarations: &[Declaration<'_>],
    number: usize,
    reach: &mut Reach,
    pending: &mut Vec<u32>,
) -> Result<(), NoMemory>
    ensures moved { IsMoved env.old env.new }
    ensures reach { OnOk result ((c : Scopes) → IsMoved c env.old → HasReach names.now index.now.tables c (declarations_of declarations.now) reach.old → HasReach names.now index.now.tables c (declarations_of declarations.now) reach.new) }
    ensures pending { OnOk result ((starts : Sequence (Sequence ℕ)) (at : ℕ) → slice_get pending.old.items at ≡ Some number → ArePending starts (length declarations.now) pending.old.items at reach.old.flags.items reach.old.rows.items → ArePending starts (length declarations.now) pending.new.items (at + 1) reach.new.flags.items reach.new.rows.items) }
{
    if flag(&reach.flags, number) {
        return Ok(());
    }
    if number >= declarations.len() {
        return Ok(());
    }
    let declaration = &declarations[number];
    tell(
        alloc,
        env,
        names,
        index,
        declaration,
        number,
        reach,
        pending,
    )?;
    Ok(())
}

// Tells the rows of those that are pending, and of those to which steps lead from them.
fn follow(
    alloc: Global,
    env: &mut Env<'_>,
    names: &DeclaredNames,
    index: &MethodIndex,
    declarations: &[Declaration<'_>],
    reach: &mut Reach,
    pending: &mut Vec<u32>,
) -> Result<(), NoMemory>
    ensures moved { IsMoved env.old env.new }
    ensures reach { OnOk result (HasReach names.now index.now.tables env.old (declarations_of declarations.now) reach.old → HasReach names.now index.now.tables env.old (declarations_of declarations.now) reach.new) }
    ensures reached { OnOk result ((starts : Sequence (Sequence ℕ)) → ArePending starts (length declarations.now) pending.old.items 0 reach.old.flags.items reach.old.rows.items → AreReached starts (length declarations.now) reach.new.flags.items reach.new.rows.items) }
{
    for at in 0..usize::MAX {
        match number_at(pending, at) {
            None => return Ok(()),
            Some(number) => visit(
                alloc,
                env,
                names,
                index,
                declarations,
                number,
                reach,
                pending,
            )?,
        }
    }
    Err(NoMemory)
}

// The steps from the declarations that are named in lengths, and from those to which these lead.
fn reach_of(
    alloc: Global,
    env: &mut Env<'_>,
    tables: &PackageTables<'_>,
    lengths: &[List<u32>],
) -> Result<Reach, NoMemory>
    ensures moved { IsMoved env.old env.new }
    ensures reach { IfOk result (HasReach tables.now.names.now (tables_of (declarations_of tables.now.declarations.now) tables.now.methods.now) env.old (declarations_of tables.now.declarations.now)) }
    ensures reached { IfOk result (λ reach. AreReached lengths.now (length tables.now.declarations.now) reach.flags.items reach.rows.items) }
{
    let mut reach = no_reach(alloc, tables.declarations.len())?;
    let mut pending = numbers_in(alloc, lengths)?;
    if pending.is_empty() {
        return Ok(reach);
    }
    let index = MethodIndex::of(alloc, tables.declarations, tables.methods)?;
    follow(
        alloc,
        env,
        tables.names,
        &index,
        tables.declarations,
        &mut reach,
        &mut pending,
    )?;
    Ok(reach)
}

/// Which of a package's declarations have to be settled before which, which are named in lengths, and where steps lead from
/// these, where the environment has what is had of the package. `names` tells where the declarations declare names, and
/// `methods` which methods they declare. The file in turn and the value of `iota` change. For numbers past 32 bits there is
/// no memory.
pub fn order(
    alloc: Global,
    env: &mut Env<'_>,
    tables: &PackageTables<'_>,
) -> Result<DeclarationOrder, NoMemory>
    requires { AreTables tables.now }
    ensures order { (s : Setting) (u : PackageSource) (a : Entries) → declarations_in u ≡ declarations_of tables.now.declarations.now → u.path ≢ [] → IsScopeOf s u a env.old → IfOk result (λ o. IsOrderOf s u a o) }
    ensures reached { (s : Setting) (u : PackageSource) (a : Entries) → declarations_in u ≡ declarations_of tables.now.declarations.now → u.path ≢ [] → IsScopeOf s u a env.old → IfOk result (λ o. AreFlagsOf (length (declarations_in u)) (IsReached s u a) o.reached.items) }
    ensures moved { IsMoved env.old env.new }
{
    let after = kind_rows(alloc, env, tables.names, Kind::Strong, tables.declarations)?;
    let lengths = kind_rows(
        alloc,
        env,
        tables.names,
        Kind::InLengths,
        tables.declarations,
    )?;
    let reach = reach_of(alloc, env, tables, lengths.items())?;
    Ok(DeclarationOrder {
        after,
        lengths,
        leads: reach.rows,
        reached: reach.flags,
    })
}
