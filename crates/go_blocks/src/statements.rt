//! Statements by their kind, and statements one after another.
ghost use Rattle.std.specs.Prelude.{◌≡◌, ◌≢◌, []};
ghost use Rattle.go_blocks.specs.Kinds.{is_declaring};
ghost use Rattle.go_switch_statements.specs.go_flat_statements.Judging.{JudgesHere, JudgesStatement};
ghost use Rattle.go_local_scopes.specs.States.{Kept};
ghost use Rattle.go_syntax.specs.declared.statement.StmtKind.{StmtKind-F, out-StmtKind};
ghost use Rattle.go_untyped_places.specs.Surveys.{place_or};
ghost use Rattle.go_switch_statements.specs.go_walks.Below.{Runs, RunsBelow};

use go_base::list::List;
use go_base::memory::NoMemory;
use go_judged::judged::Judged;
use go_rules::env::Env;
use go_switch_statements::go_flat_statements::declared::{constants, variables};
use go_switch_statements::go_flat_statements::defined::definition;
use go_switch_statements::go_flat_statements::flat::flat;
use go_switch_statements::go_flat_statements::kinds::is_flat;
use go_switch_statements::go_nested_statements::branches::branches;
use go_switch_statements::go_nested_statements::loops::{counted, repeated};
use go_switch_statements::go_nested_statements::ranges::{assigned, bare, defined};
use go_switch_statements::go_walks::frame::Frame;
use go_switch_statements::go_walks::inner::Inner;
use go_switch_statements::go_walks::walk::Walk;
use go_switch_statements::selects::select;
use go_switch_statements::switches::switch;
use go_switch_statements::type_switches::type_switch;
use go_syntax::statement::{Stmt, StmtKind};

fn is_declaring(kind: &StmtKind) -> bool
    ensures { result ≡ is_declaring (out-StmtKind kind.now) }
{
    matches!(
        kind,
        StmtKind::Define(_, _) | StmtKind::Const(_) | StmtKind::Var(_) | StmtKind::Labeled(_, _)
    )
}

// A statement that may declare names in the innermost scope.
fn declaring<F: Fn(&mut Env<'_>, &Frame<'_>, usize, Inner<'_>) -> Result<Option<u32>, NoMemory>>(
    walk: &Walk<'_, F>,
    env: &mut Env<'_>,
    kind: &StmtKind,
) -> Result<Judged, NoMemory>
    requires below { RunsBelow walk.now.height (F.pre walk.now.below) (F.post walk.now.below) }
    requires opened { env.old.opened ≢ [] }
    ensures kept { Kept env.old env.new }
    ensures judged { JudgesStatement walk.now.frame.now env.old (out-StmtKind kind.now) env.new result }
{
    match kind {
        StmtKind::Define(names, exprs) => definition(walk, env, names.items(), exprs.items()),
        StmtKind::Const(specs) => constants(walk, env, specs.items()),
        StmtKind::Var(specs) => variables(walk, env, specs.items()),
        StmtKind::Labeled(_, statement) => walk.lone(env, statement),
        _ => Err(NoMemory),
    }
}

// A block as a statement.
fn inner<F: Fn(&mut Env<'_>, &Frame<'_>, usize, Inner<'_>) -> Result<Option<u32>, NoMemory>>(
    walk: &Walk<'_, F>,
    env: &mut Env<'_>,
    statements: &List<Stmt>,
) -> Result<Judged, NoMemory>
    requires { RunsBelow walk.now.height (F.pre walk.now.below) (F.post walk.now.below) }
    ensures same { env.new ≡ env.old }
    ensures judged { JudgesHere walk.now.frame.now env.old (StmtKind-F.Block statements.now) result }
{
    walk.block(env, statements)
}

// A statement that has others in it.
fn nested<F: Fn(&mut Env<'_>, &Frame<'_>, usize, Inner<'_>) -> Result<Option<u32>, NoMemory>>(
    walk: &Walk<'_, F>,
    env: &mut Env<'_>,
    kind: &StmtKind,
) -> Result<Judged, NoMemory>
    requires { RunsBelow walk.now.height (F.pre walk.now.below) (F.post walk.now.below) }
    ensures same { env.new ≡ env.old }
    ensures judged { JudgesHere walk.now.frame.now env.old (out-StmtKind kind.now) result }
{
    match kind {
        StmtKind::Block(statements) => inner(walk, env, statements),
        StmtKind::If(init, expr, then, other) => branches(walk, env, init, expr, then, other),
        StmtKind::Switch(init, expr, cases) => switch(walk, env, init, expr, cases.items()),
        StmtKind::TypeSwitch(init, name, expr, cases) => {
            type_switch(walk, env, init, name, expr, cases.items())
        }
        StmtKind::Select(cases) => select(walk, env, cases.items()),
        StmtKind::For(init, expr, post, body) => counted(walk, env, init, expr, post, body),
        StmtKind::While(expr, body) => repeated(walk, env, expr, body),
        StmtKind::Range(expr, body) => bare(walk, env, expr, body),
        StmtKind::RangeAssign(sides, expr, body) => {
            assigned(walk, env, sides.items(), expr, body)
        }
        StmtKind::RangeDefine(names, expr, body) => {
            defined(walk, env, names.items(), expr, body)
        }
        _ => Err(NoMemory),
    }
}

// A statement of any kind.
fn statement<F: Fn(&mut Env<'_>, &Frame<'_>, usize, Inner<'_>) -> Result<Option<u32>, NoMemory>>(
    walk: &Walk<'_, F>,
    env: &mut Env<'_>,
    kind: &StmtKind,
) -> Result<Judged, NoMemory>
    requires below { RunsBelow walk.now.height (F.pre walk.now.below) (F.post walk.now.below) }
    requires opened { env.old.opened ≢ [] }
    ensures kept { Kept env.old env.new }
    ensures judged { JudgesStatement walk.now.frame.now env.old (out-StmtKind kind.now) env.new result }
{
    if is_flat(kind) {
        return flat(walk, env, kind);
    }
    if is_declaring(kind) {
        return declaring(walk, env, kind);
    }
    nested(walk, env, kind)
}

// The place that is told of a statement: the least one inside of it, where there is one, else its own.
fn place_or(start: u32, place: Option<u32>) -> u32
    ensures { result ≡ place_or start place }
{
    match place {
        Some(place) => place,
        None => start,
    }
}

/// Statements one after another: the untyped place, where there is one.
pub(crate) fn statements<
    F: Fn(&mut Env<'_>, &Frame<'_>, usize, Inner<'_>) -> Result<Option<u32>, NoMemory>,
>(walk: &Walk<'_, F>, env: &mut Env<'_>, list: &[Stmt]) -> Result<Option<u32>, NoMemory>
    requires below { RunsBelow walk.now.height (F.pre walk.now.below) (F.post walk.now.below) }
    requires opened { env.old.opened ≢ [] }
    ensures kept { Kept env.old env.new }
    ensures runs { Runs walk.now.frame.now env.old list.now result env.new }
{
    for one in list {
        let judged = statement(walk, env, &one.kind)?;
        let typed = judged.typed;
        if !typed {
            return Ok(Some(place_or(one.start, judged.place)));
        }
    }
    Ok(None)
}
