//! The answer to a line.
ghost use Rattle.std.specs.Prelude.{◌≡◌, length};

use crate::operands::{meaning, operand};
use crate::place::Place;
use crate::tree::tree;
use go_asks::operands::operand as met_operand;
use go_base::text::Text;
use go_expr::typing::type_expr;
use go_model::types::package::Entity;
use go_model::types::world::World;
use go_rules::env::{DeclareError, Env};
use go_rules::operand::Operand;
use go_rules::seen::Seen;
use go_selectors::lookup::error_type;
use go_syntax::expression::Expr;
use go_syntax::held::expression::HeldExpr;
use go_type_terms::error::ExprError;
use go_usability::context::Context;
use std::alloc::Global;
use worlds::constants::{const_term, value};
use worlds::objects::{defined, entity, type_entity};
use worlds::read::{Stack, sel, split, text};
use worlds::refusal::Refusal;

fn line(alloc: Global, words: &str) -> Result<Vec<u8>, Refusal> {
    let mut out = Vec::from_slice(alloc, words.as_bytes())?;
    out.push(b'\n')?;
    Ok(out)
}

fn number(word: &str) -> Result<u64, Refusal> {
    match word.parse::<u64>() {
        Ok(number) => Ok(number),
        Err(_) => Err(Refusal::WrongLine),
    }
}

fn file(word: &str) -> Result<u32, Refusal> {
    match word.parse::<u32>() {
        Ok(number) => Ok(number),
        Err(_) => Err(Refusal::WrongLine),
    }
}

// What is told of an expression: what it is, or the same where all that is asked in it is met.
#[derive(Clone, Copy)]
enum Question {
    Expression,
    Operand,
}

fn answered(
    alloc: Global,
    env: &Env<'_>,
    question: Question,
    expr: &Expr,
) -> Result<Operand, ExprError> {
    let error = error_type(alloc)?;
    let context = Context::new(env, &error);
    match question {
        Question::Expression => type_expr(&context, alloc, expr),
        Question::Operand => met_operand(&context, alloc, expr),
    }
}

// What is told of an expression. The tree goes back into its holder, so that giving it up is a call.
fn typed(
    alloc: Global,
    env: &Env<'_>,
    question: Question,
    held: HeldExpr,
) -> Result<Vec<u8>, Refusal> {
    let expr = held.take();
    let answer = answered(alloc, env, question, &expr);
    let _tree = HeldExpr::new(expr);
    match answer {
        Ok(found) => Ok(operand(alloc, &found)?),
        Err(ExprError::Untyped) => Ok(Vec::from_slice(alloc, b"untyped")?),
        Err(ExprError::NoMemory) => Err(Refusal::NoMemory),
    }
}

fn expression(
    alloc: Global,
    env: &Env<'_>,
    question: Question,
    words: &str,
) -> Result<Vec<u8>, Refusal> {
    let mut out = match tree(alloc, words)? {
        Some(held) => typed(alloc, env, question, held)?,
        None => Vec::from_slice(alloc, b"no expression")?,
    };
    out.push(b'\n')?;
    Ok(out)
}

fn means(alloc: Global, env: &Env<'_>, name: &str) -> Result<Vec<u8>, Refusal> {
    let name = Text::of(alloc, name.as_bytes())?;
    let mut out = meaning(alloc, env.meaning(&name))?;
    out.push(b'\n')?;
    Ok(out)
}

fn told(alloc: Global, declared: Result<(), DeclareError>) -> Result<Vec<u8>, Refusal> {
    match declared {
        Ok(()) => Ok(Vec::new(alloc)),
        Err(DeclareError::Already) => line(alloc, "already"),
        Err(DeclareError::NoMemory) => Err(Refusal::NoMemory),
    }
}

#[tactic(auto, using(crate::proofs::OpenScopes::declared_opened))]
fn put(env: &mut Env<'_>, name: Text, seen: Seen) -> Result<(), DeclareError>
    ensures { length env.new.opened ≡ length env.old.opened }
{
    env.declare(name, seen)
}

fn declare(alloc: Global, env: &mut Env<'_>, name: &str, entity: Entity) -> Result<Vec<u8>, Refusal>
    ensures { length env.new.opened ≡ length env.old.opened }
{
    let name = text(alloc, name)?;
    told(alloc, put(env, name, Seen::Object(entity)))
}

fn declare_type(
    alloc: Global,
    env: &mut Env<'_>,
    stack: &mut Stack,
    words: &str,
) -> Result<Vec<u8>, Refusal>
    ensures { length env.new.opened ≡ length env.old.opened }
{
    let (name, rest) = split(words)?;
    let entity = type_entity(alloc, env.path(), name)?;
    let defined = defined(alloc, stack, name, rest)?;
    let answer = declare(alloc, env, name, entity)?;
    if answer.is_empty() {
        env.define(defined)?;
    }
    Ok(answer)
}

fn declare_local(
    alloc: Global,
    env: &mut Env<'_>,
    name: &str,
    seen: Seen,
) -> Result<Vec<u8>, Refusal>
    ensures { length env.new.opened ≡ length env.old.opened }
{
    let name = text(alloc, name)?;
    told(alloc, put(env, name, seen))
}

fn local(
    alloc: Global,
    env: &mut Env<'_>,
    stack: &mut Stack,
    words: &str,
) -> Result<Vec<u8>, Refusal>
    ensures { length env.new.opened ≡ length env.old.opened }
{
    let (name, rest) = split(words)?;
    let term = stack.one(alloc, rest)?;
    declare_local(alloc, env, name, Seen::Local(term.value().copy(alloc)?))
}

fn local_const(
    alloc: Global,
    env: &mut Env<'_>,
    stack: &mut Stack,
    words: &str,
) -> Result<Vec<u8>, Refusal>
    ensures { length env.new.opened ≡ length env.old.opened }
{
    let (name, rest) = split(words)?;
    let (word, of) = split(rest)?;
    let value = value(alloc, word)?;
    let seen = Seen::LocalConst(const_term(alloc, stack, of)?, value);
    declare_local(alloc, env, name, seen)
}

fn define(
    alloc: Global,
    env: &mut Env<'_>,
    stack: &mut Stack,
    words: &str,
) -> Result<Vec<u8>, Refusal>
    ensures { length env.new.opened ≡ length env.old.opened }
{
    let (name, rest) = split(words)?;
    env.define(defined(alloc, stack, name, rest)?)?;
    Ok(Vec::new(alloc))
}

fn import(alloc: Global, env: &mut Env<'_>, words: &str) -> Result<Vec<u8>, Refusal>
    ensures { length env.new.opened ≡ length env.old.opened }
{
    let (number, rest) = split(words)?;
    let (name, path) = split(rest)?;
    let (name, path) = (text(alloc, name)?, text(alloc, path)?);
    told(alloc, env.import(file(number)?, name, path))
}

fn set_iota(alloc: Global, env: &mut Env<'_>, word: &str) -> Result<Vec<u8>, Refusal>
    ensures { length env.new.opened ≡ length env.old.opened }
{
    let place = match word {
        "none" => None,
        _ => Some(number(word)?),
    };
    env.set_iota(place);
    Ok(Vec::new(alloc))
}

fn await_method(alloc: Global, env: &mut Env<'_>, words: &str) -> Result<Vec<u8>, Refusal>
    ensures { length env.new.opened ≡ length env.old.opened }
{
    let (name, selector) = split(words)?;
    let name = text(alloc, name)?;
    env.await_method(name, sel(alloc, selector)?)?;
    Ok(Vec::new(alloc))
}

// A line about what is known, or a question.
fn asked(
    alloc: Global,
    env: &mut Env<'_>,
    stack: &mut Stack,
    kind: &str,
    words: &str,
) -> Result<Vec<u8>, Refusal>
    ensures { length env.new.opened ≡ length env.old.opened }
{
    match kind {
        "expression" => expression(alloc, env, Question::Expression, words),
        "operand" => expression(alloc, env, Question::Operand, words),
        "means" => means(alloc, env, words),
        "type" => declare_type(alloc, env, stack, words),
        "local" => local(alloc, env, stack, words),
        "local-const" => local_const(alloc, env, stack, words),
        "define" => define(alloc, env, stack, words),
        "import" => import(alloc, env, words),
        "iota" => set_iota(alloc, env, words),
        "announce" => {
            env.announce(text(alloc, words)?)?;
            Ok(Vec::new(alloc))
        }
        "await" => await_method(alloc, env, words),
        "turn" => {
            env.turn_to(file(words)?);
            Ok(Vec::new(alloc))
        }
        _ => {
            let (name, rest) = split(words)?;
            let entity = entity(alloc, stack, kind, rest)?;
            declare(alloc, env, name, entity)
        }
    }
}

fn place<'w>(alloc: Global, world: &'w World, words: &str) -> Result<Place<'w>, Refusal> {
    let (path, rest) = split(words)?;
    let (wide, profile) = match rest {
        "32 plain" => (false, false),
        "64 plain" => (true, false),
        "32 profile" => (false, true),
        "64 profile" => (true, true),
        _ => return Err(Refusal::WrongLine),
    };
    Ok(Place::of(
        alloc,
        world,
        Text::of(alloc, path.as_bytes())?,
        wide,
        profile,
    ))
}

/// The answer to a line outside of the packages of the world, with its line's end; nothing where it asks
/// nothing and is obeyed.
pub fn answer<'w>(
    alloc: Global,
    world: &'w World,
    here: &mut Place<'w>,
    stack: &mut Stack,
    words: &str,
) -> Result<Vec<u8>, Refusal> {
    if words.starts_with('#') {
        return line(alloc, words);
    }
    match words {
        "" => Ok(Vec::new(alloc)),
        "open" => {
            here.open()?;
            Ok(Vec::new(alloc))
        }
        "close" => {
            here.close()?;
            Ok(Vec::new(alloc))
        }
        _ => {
            let (kind, rest) = split(words)?;
            if kind == "typed" {
                *here = place(alloc, world, rest)?;
                return Ok(Vec::new(alloc));
            }
            asked(alloc, &mut here.env, stack, kind, rest)
        }
    }
}
