//! The bodies in a declaration.
ghost use Rattle.std.specs.Prelude.{◌≡◌, [], IfOk};
ghost use Rattle.go_client_typings.specs.Bodies.{AreTypedBodies, HasBody, IsTypedFunc, func_in};
ghost use Rattle.go_clients.specs.inner.Told.{HasOwnRun, TellsDeclaration, func_of, own_place, told_by, turned};
ghost use Rattle.go_declarations.specs.Forms.{form_of};
ghost use Rattle.go_declarations.specs.Listings.{declaration_of};
ghost use Rattle.go_judged.specs.Judging.{Judges};
ghost use Rattle.go_local_scopes.specs.States.{around};

use go_base::memory::NoMemory;
use go_blocks::bodies::type_body;
use go_blocks::literals::type_literals;
use go_check::go_left_out::places::place_of;
use go_declarations::form::Form;
use go_declarations::listing::Declaration;
use go_judged::judged::Judged;
use go_literal_blocks::blocks::Blocks;
use go_nodes::declarations::trees_of;
use go_rules::env::Env;
use go_syntax::declaration::Func;
use go_syntax::name::Place;
use std::alloc::Global;

fn func_in<'a>(form: Form<'a>) -> Option<&'a Func>
    ensures { func_of result ≡ func_in (form_of form.entry) }
{
    match form {
        Form::Function(func) => Some(func),
        Form::Method(_, func) => Some(func),
        _ => None,
    }
}

// The body of what is declared, where it has one.
fn body(
    alloc: Global,
    env: &mut Env<'_>,
    blocks: &Blocks<'_>,
    func: Option<&Func>,
) -> Result<Judged, NoMemory>
    requires { env.old.opened ≡ [] }
    ensures same { env.new ≡ env.old }
    ensures judged { IfOk result (Judges (around env.old) blocks.now.list.now (IsTypedFunc (around env.old) blocks.now.list.now (func_of func.entry)) (HasOwnRun (around env.old) blocks.now.list.now (func_of func.entry))) }
{
    match func {
        None => Ok(Judged::tested(true)),
        Some(func) => type_body(env, alloc, blocks, func),
    }
}

// The bodies in a declaration where it stands.
fn bodies(
    alloc: Global,
    env: &mut Env<'_>,
    blocks: &Blocks<'_>,
    form: Form<'_>,
) -> Result<Judged, NoMemory>
    requires { env.old.opened ≡ [] }
    ensures same { env.new ≡ env.old }
    ensures judged { IfOk result (Judges (around env.old) blocks.now.list.now (AreTypedBodies (around env.old) blocks.now.list.now (form_of form.entry)) (HasBody (around env.old) blocks.now.list.now (form_of form.entry))) }
{
    let own = body(alloc, env, blocks, func_in(form))?;
    let trees = trees_of(alloc, form)?;
    let literals = type_literals(env, alloc, blocks, trees)?;
    Ok(own.both(literals))
}

// The place of a declaration, where its bodies aren't typed.
fn own_place(declaration: &Declaration<'_>, typed: bool) -> Option<Place>
    ensures { result ≡ own_place (declaration_of declaration.now) typed }
{
    if typed {
        None
    } else {
        Some(place_of(declaration))
    }
}

fn told(declaration: &Declaration<'_>, judged: Judged) -> Option<Place>
    ensures { result ≡ told_by (declaration_of declaration.now) judged }
{
    match judged.place {
        None => own_place(declaration, judged.typed),
        Some(offset) => Some(Place {
            file: declaration.file,
            offset,
        }),
    }
}

/// The place of the first body in a declaration that isn't typed. The environment is moved to the declaration.
pub(crate) fn untyped(
    alloc: Global,
    env: &mut Env<'_>,
    blocks: &Blocks<'_>,
    declaration: &Declaration<'_>,
) -> Result<Option<Place>, NoMemory>
    requires { env.old.opened ≡ [] }
    ensures moved { env.new ≡ turned env.old (declaration_of declaration.now) }
    ensures told { IfOk result (TellsDeclaration (around (turned env.old (declaration_of declaration.now))) blocks.now.list.now (declaration_of declaration.now)) }
{
    env.turn_to(declaration.file);
    env.set_iota(declaration.form.iota());
    let judged = bodies(alloc, env, blocks, declaration.form)?;
    Ok(told(declaration, judged))
}
