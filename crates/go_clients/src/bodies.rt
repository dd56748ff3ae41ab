//! The first body of a package that isn't typed.
ghost use Rattle.std.specs.Prelude.{◌≡◌, ◌≢◌, ◌⊎◌, [], None, Some, IfOk};
ghost use Rattle.go_base.specs.Keys.{first_with};
ghost use Rattle.go_client_typings.specs.Clients.{blocks_in, setting};
ghost use Rattle.go_clients.specs.inner.Told.{Finds, FindsIn, TellsDeclaration, comes_first, earlier, lesser, lists_of, turned};
ghost use Rattle.go_declarations.specs.Listings.{declaration_of, declarations_of};
ghost use Rattle.go_declared.specs.PackageTables.{AreTables};
ghost use Rattle.go_local_scopes.specs.States.{around};
ghost use Rattle.go_model.specs.worlds.Worlds.{path_of};
ghost use Rattle.go_sources.specs.UnitSources.{source_of};
ghost use Rattle.go_typings.specs.Declarations.{declarations as all_declarations};

use crate::declarations::untyped;
use crate::scopes::typed_scopes;
use go_base::list::List;
use go_base::memory::NoMemory;
use go_check::declarations::declarations_in;
use go_check::go_package_entries::hints::hints;
use go_client_units::units::ClientUnit;
use go_declarations::listing::Declaration;
use go_declared::methods::DeclaredMethods;
use go_declared::names::DeclaredNames;
use go_declared::package::PackageTables;
use go_literal_blocks::blocks::Blocks;
use go_model::types::world::World;
use go_package_scopes::laws::same_environment;
use go_rules::env::Env;
use go_syntax::name::Place;
use go_syntax::statement::LiteralBlock;
use std::alloc::Global;

fn comes_first(left: Place, right: Place) -> bool
    ensures { result ≡ comes_first left right }
{
    if left.file == right.file {
        left.offset <= right.offset
    } else {
        left.file < right.file
    }
}

fn earlier(left: Place, right: Place) -> Place
    ensures { result ≡ earlier left right }
{
    if comes_first(left, right) {
        left
    } else {
        right
    }
}

fn lesser_than(left: Place, right: Option<Place>) -> Option<Place>
    ensures { result ≡ lesser (Some left) right }
{
    match right {
        None => Some(left),
        Some(place) => Some(earlier(left, place)),
    }
}

// The place that comes first, where there is one.
fn lesser(left: Option<Place>, right: Option<Place>) -> Option<Place>
    ensures { result ≡ lesser left right }
{
    match left {
        None => right,
        Some(place) => lesser_than(place, right),
    }
}

// The blocks of all files, to be found by their places.
fn all_blocks<'a>(
    alloc: Global,
    lists: &'a [List<LiteralBlock>],
) -> Result<List<Blocks<'a>>, NoMemory>
    ensures { IfOk result (λ all. lists_of all ≡ lists.now) }
{
    let mut all = List::new(alloc);
    for list in lists {
        let blocks = Blocks::new(list.items());
        all.push(blocks)?;
    }
    Ok(all)
}

// The place of the first body in a declaration that isn't typed, where its file has no blocks.
fn untyped_without(
    alloc: Global,
    env: &mut Env<'_>,
    declaration: &Declaration<'_>,
) -> Result<Option<Place>, NoMemory>
    requires { env.old.opened ≡ [] }
    ensures moved { env.new ≡ turned env.old (declaration_of declaration.now) }
    ensures told { IfOk result (TellsDeclaration (around (turned env.old (declaration_of declaration.now))) [] (declaration_of declaration.now)) }
{
    let none = Blocks::new(&[]);
    untyped(alloc, env, &none, declaration)
}

fn untyped_in(
    alloc: Global,
    env: &mut Env<'_>,
    all: &[Blocks<'_>],
    declaration: &Declaration<'_>,
) -> Result<Option<Place>, NoMemory>
    requires { env.old.opened ≡ [] }
    ensures moved { env.new ≡ turned env.old (declaration_of declaration.now) }
    ensures told { IfOk result (TellsDeclaration (around (turned env.old (declaration_of declaration.now))) (blocks_in (lists_of all.now) declaration.now.file) (declaration_of declaration.now)) }
{
    match all.get(declaration.file as usize) {
        None => untyped_without(alloc, env, declaration),
        Some(blocks) => untyped(alloc, env, blocks, declaration),
    }
}

// The first place of a body that isn't typed, in these declarations.
fn first_in(
    alloc: Global,
    mut env: Env<'_>,
    all: &[Blocks<'_>],
    declarations: &[Declaration<'_>],
) -> Result<Option<Place>, NoMemory>
    requires { env.opened ≡ [] }
    ensures { IfOk result (FindsIn env.entry (lists_of all.now) (declarations_of declarations.now)) }
{
    let mut found = None;
    for declaration in declarations {
        let next = untyped_in(alloc, &mut env, all, declaration)?;
        found = lesser(found, next);
    }
    Ok(found)
}

// The place of the first body of a client that isn't typed, where these are the tables of its package.
fn untyped_by(
    alloc: Global,
    client: &ClientUnit,
    imports: &World,
    bits: u32,
    profile: bool,
    tables: &PackageTables<'_>,
    hints: &[u32],
) -> Result<Option<Place>, NoMemory>
    requires bits { (bits ≡ 32) ⊎ (bits ≡ 64) }
    requires pathed { client.now.unit.path ≢ [] }
    requires absent { first_with path_of imports.now.packages client.now.unit.path ≡ None }
    requires listed { declarations_of tables.now.declarations.now ≡ all_declarations (source_of client.now.unit) }
    requires tables { AreTables tables.now }
    ensures { IfOk result (Finds (setting imports.now bits profile) (source_of client.now.unit) client.now.blocks) }
{
    same_environment();
    let env = typed_scopes(alloc, &client.unit, imports, bits, profile, tables, hints)?;
    let lists = client.blocks.items();
    let blocks = all_blocks(alloc, lists)?;
    let all = blocks.items();
    first_in(alloc, env, all, tables.declarations)
}

/// The place of the first body of a client that isn't typed, by file and offset, where its declarations are.
pub(crate) fn first_untyped(
    alloc: Global,
    client: &ClientUnit,
    imports: &World,
    bits: u32,
    profile: bool,
) -> Result<Option<Place>, NoMemory>
    requires bits { (bits ≡ 32) ⊎ (bits ≡ 64) }
    requires pathed { client.now.unit.path ≢ [] }
    requires absent { first_with path_of imports.now.packages client.now.unit.path ≡ None }
    ensures { IfOk result (Finds (setting imports.now bits profile) (source_of client.now.unit) client.now.blocks) }
{
    let declarations = declarations_in(alloc, &client.unit)?;
    let names = DeclaredNames::of(alloc, declarations.items())?;
    let methods = DeclaredMethods::of(alloc, declarations.items(), &names)?;
    let hints = hints(alloc, declarations.items(), &names)?;
    let tables = PackageTables {
        declarations: declarations.items(),
        names: &names,
        methods: &methods,
    };
    untyped_by(alloc, client, imports, bits, profile, &tables, &hints)
}
