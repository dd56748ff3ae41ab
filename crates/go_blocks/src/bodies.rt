//! The bodies of declared functions.
ghost use Rattle.std.specs.Prelude.{◌≡◌, ◌≢◌, [], Some, IfOk};
ghost use Rattle.go_blocks.specs.Bodies.{EntersWith, IsTypedWith, names_of, variables_of};
ghost use Rattle.go_judged.specs.Judging.{Judges};
ghost use Rattle.go_local_scopes.specs.States.{IsAt, Kept, Reaches, around};
ghost use Rattle.go_rules.specs.Environments.{Env as Around};
ghost use Rattle.go_rules.specs.Expressions.{OfSignature};
ghost use Rattle.go_rules.specs.Scopes.{env_of};
ghost use Rattle.go_statement_rules.specs.Bodies.{IsTypedBody};
ghost use Rattle.go_statement_rules.specs.Functions.{EntersBody, OfReceiver};
ghost use Rattle.go_statement_rules.specs.Scopes.{Declares, Scopes, opened};
ghost use Rattle.go_syntax.specs.declared.types.Signature.{out-Signature};
ghost use Rattle.go_usability.specs.Answers.{Gives};
ghost use Rattle.go_switch_statements.specs.go_walks.Below.{blocks_of};

use crate::levels::place_in;
use crate::receivers::receiver_terms;
use go_base::list::List;
use go_base::memory::NoMemory;
use go_judged::judged::Judged;
use go_literal_blocks::blocks::Blocks;
use go_local_scopes::declaring::declare_all;
use go_local_scopes::slots::{push_locals, push_receiver, push_signature};
use go_model::types::term::{Signature as Signed, Term};
use go_rules::env::Env;
use go_selectors::lookup::error_type;
use go_switch_statements::go_expr::typing::signature_of;
use go_switch_statements::go_walks::answers::found;
use go_switch_statements::go_walks::frame::Frame;
use go_syntax::body::BodyRange;
use go_syntax::declaration::Func;
use go_syntax::statement::Stmt;
use go_syntax::types::Signature;
use go_usability::context::Context;
use std::alloc::Global;

// The signature of a function, where it has one.
fn signature_here(
    frame: &Frame<'_>,
    env: &Env<'_>,
    signature: &Signature,
) -> Result<Option<Signed>, NoMemory>
    ensures { IfOk result (Gives (OfSignature (env_of env.now) (out-Signature signature.now).parameters (out-Signature signature.now).result)) }
{
    let context = Context::new(env, frame.error);
    found(signature_of(&context, frame.alloc, signature))
}

// Declares the receiver, the parameters and the results of a function.
fn declare_variables(
    env: &mut Env<'_>,
    alloc: Global,
    func: &Func,
    received: &[Term],
    signed: &Signed,
) -> Result<bool, NoMemory>
    requires { env.old.opened ≢ [] }
    ensures kept { Kept env.old env.new }
    ensures declared { IfOk result (λ b. Reaches b (Declares env.old.opened (names_of func.now) (variables_of received.now signed.now)) env.new.opened) }
{
    let mut names = List::new(alloc);
    push_receiver(&mut names, &func.receiver)?;
    push_signature(&mut names, &func.signature)?;
    let mut meanings = List::new(alloc);
    push_locals(alloc, &mut meanings, received)?;
    push_locals(alloc, &mut meanings, signed.params.items())?;
    push_locals(alloc, &mut meanings, signed.results.items())?;
    declare_all(env, alloc, names.items(), meanings.items())
}

// The statements of a body in the scope that was opened for it.
fn entered(
    env: &mut Env<'_>,
    frame: &Frame<'_>,
    func: &Func,
    received: &[Term],
    signed: &Signed,
    start: u32,
    statements: &[Stmt],
) -> Result<Judged, NoMemory>
    requires { env.old.opened ≢ [] }
    ensures kept { Kept env.old env.new }
    ensures judged { IfOk result (λ j. (E : Around) (s : Scopes) → IsAt E (opened s) env.old → Judges E (blocks_of frame.now) (IsTypedWith E (blocks_of frame.now) (opened s) func.now received.now signed.now start statements.now) (EntersWith (opened s) func.now received.now signed.now start statements.now) j) }
{
    let declared = declare_variables(env, frame.alloc, func, received, signed)?;
    if !declared {
        return Ok(Judged::tested(false));
    }
    let within = frame.inner(signed.results.items(), start);
    let place = place_in(env, &within, statements)?;
    Ok(Judged::found(place))
}

// The statements of a body in a scope of their own.
fn opened_body(
    env: &mut Env<'_>,
    frame: &Frame<'_>,
    func: &Func,
    received: &[Term],
    signed: &Signed,
    start: u32,
    statements: &[Stmt],
) -> Result<Judged, NoMemory>
    ensures same { env.new ≡ env.old }
    ensures judged { IfOk result (λ j. (E : Around) (s : Scopes) → IsAt E s env.old → Judges E (blocks_of frame.now) (IsTypedWith E (blocks_of frame.now) (opened s) func.now received.now signed.now start statements.now) (EntersWith (opened s) func.now received.now signed.now start statements.now) j) }
{
    env.open_scope()?;
    let judged = entered(env, frame, func, received, signed, start, statements);
    env.close_scope();
    judged
}

// The body of a function whose receiver and signature have these types, where no scope is open.
fn listed_body(
    env: &mut Env<'_>,
    frame: &Frame<'_>,
    func: &Func,
    body: &BodyRange,
    received: &[Term],
    signed: &Signed,
) -> Result<Judged, NoMemory>
    ensures same { env.new ≡ env.old }
    ensures judged { func.now.body ≡ Some body.now → OfReceiver (env_of env.old) func.now.receiver received.now → OfSignature (env_of env.old) (out-Signature func.now.signature).parameters (out-Signature func.now.signature).result signed.now
        → IfOk result (λ j. (E : Around) → IsAt E [] env.old → Judges E (blocks_of frame.now) (IsTypedBody E (blocks_of frame.now) func.now) (EntersBody E (blocks_of frame.now) func.now) j) }
{
    let place = frame.blocks.find(body.start);
    let at = match place {
        Some(at) => at,
        None => return Ok(Judged::tested(false)),
    };
    let list = frame.blocks.statements(at);
    opened_body(env, frame, func, received, signed, body.start, list)
}

// The same of a function whose receiver has these types.
fn signed_body(
    env: &mut Env<'_>,
    frame: &Frame<'_>,
    func: &Func,
    body: &BodyRange,
    received: &[Term],
) -> Result<Judged, NoMemory>
    ensures same { env.new ≡ env.old }
    ensures judged { func.now.body ≡ Some body.now → OfReceiver (env_of env.old) func.now.receiver received.now
        → IfOk result (λ j. (E : Around) → IsAt E [] env.old → Judges E (blocks_of frame.now) (IsTypedBody E (blocks_of frame.now) func.now) (EntersBody E (blocks_of frame.now) func.now) j) }
{
    let given = signature_here(frame, env, &func.signature)?;
    let signed = match given {
        Some(signed) => signed,
        None => return Ok(Judged::tested(false)),
    };
    listed_body(env, frame, func, body, received, &signed)
}

// The same of a function.
fn body_here(
    env: &mut Env<'_>,
    frame: &Frame<'_>,
    func: &Func,
    body: &BodyRange,
) -> Result<Judged, NoMemory>
    ensures same { env.new ≡ env.old }
    ensures judged { func.now.body ≡ Some body.now → IfOk result (λ j. (E : Around) → IsAt E [] env.old → Judges E (blocks_of frame.now) (IsTypedBody E (blocks_of frame.now) func.now) (EntersBody E (blocks_of frame.now) func.now) j) }
{
    let given = receiver_terms(frame, env, &func.receiver)?;
    let received = match given {
        Some(received) => received,
        None => return Ok(Judged::tested(false)),
    };
    signed_body(env, frame, func, body, received.items())
}

// The same with the frame of what stands outside of functions, where `iota` has no value.
fn written_body(
    env: &mut Env<'_>,
    alloc: Global,
    blocks: &Blocks<'_>,
    func: &Func,
    body: &BodyRange,
) -> Result<Judged, NoMemory>
    requires { env.old.opened ≡ [] }
    ensures same { env.new ≡ env.old }
    ensures judged { func.now.body ≡ Some body.now → IfOk result (Judges (around env.old) blocks.now.list.now (IsTypedBody (around env.old) blocks.now.list.now func.now) (EntersBody (around env.old) blocks.now.list.now func.now)) }
{
    let error = error_type(alloc)?;
    let frame = Frame::new(alloc, blocks, &error, &[], 0);
    let before = env.iota();
    env.set_iota(None);
    let judged = body_here(env, &frame, func, body);
    env.set_iota(before);
    judged
}

/// The body of a declared function or method, where no scope is open: whether it is typed, and its untyped place. Its receiver, its
/// parameters, the names of its results and its statements share one scope. The environment is as before.
pub fn type_body(
    env: &mut Env<'_>,
    alloc: Global,
    blocks: &Blocks<'_>,
    func: &Func,
) -> Result<Judged, NoMemory>
    requires { env.old.opened ≡ [] }
    ensures same { env.new ≡ env.old }
    ensures judged { IfOk result (Judges (around env.old) blocks.now.list.now (IsTypedBody (around env.old) blocks.now.list.now func.now) (EntersBody (around env.old) blocks.now.list.now func.now)) }
{
    match &func.body {
        Some(body) => written_body(env, alloc, blocks, func, body),
        None => Ok(Judged::tested(true)),
    }
}
