//! `for` statements without a range.
ghost use Rattle.std.specs.Prelude.{◌≡◌, ◌≢◌, []};
ghost use Rattle.go_flat_statements.specs.Judging.{JudgesHere};
ghost use Rattle.go_local_scopes.specs.States.{Kept};
ghost use Rattle.go_nested_statements.specs.Heads.{JudgesWithin, turned};
ghost use Rattle.go_selectors.specs.Answers.{Decides};
ghost use Rattle.go_statement_rules.specs.Statements.{IsPost, is_definition};
ghost use Rattle.go_syntax.specs.declared.statement.StmtKind.{StmtKind-F, out-StmtKind};
ghost use Rattle.go_flat_statements.specs.go_walks.Below.{RunsBelow};

use crate::conditions::tested_where;
use crate::headers::decided;
use go_base::boxed::Box;
use go_base::list::List;
use go_base::memory::NoMemory;
use go_flat_statements::go_walks::frame::Frame;
use go_flat_statements::go_walks::inner::Inner;
use go_flat_statements::go_walks::walk::Walk;
use go_judged::judged::Judged;
use go_rules::env::Env;
use go_syntax::expression::Expr;
use go_syntax::statement::{Stmt, StmtKind};

fn is_definition(kind: &StmtKind) -> bool
    ensures { result ≡ is_definition (out-StmtKind kind.now) }
{
    matches!(kind, StmtKind::Define(_, _))
}

// Whether a statement may stand behind a condition.
fn is_post(post: &Option<Box<Stmt>>) -> bool
    ensures { Decides result (IsPost post.now) }
{
    match post {
        Some(statement) => !is_definition(&statement.value().kind),
        None => true,
    }
}

// The statement behind the condition, and the block, which waits for it.
fn turn(after: Judged, body: Judged) -> Judged
    ensures { result ≡ turned after body }
{
    let typed = after.typed;
    if !typed {
        return after;
    }
    after.both(body)
}

// The block and the statement behind the condition, behind the header.
fn counted_within<
    F: Fn(&mut Env<'_>, &Frame<'_>, usize, Inner<'_>) -> Result<Option<u32>, NoMemory>,
>(
    walk: &Walk<'_, F>,
    env: &mut Env<'_>,
    init: &Option<Box<Stmt>>,
    condition: &Option<Expr>,
    post: &Option<Box<Stmt>>,
    body: &List<Stmt>,
) -> Result<Judged, NoMemory>
    requires below { RunsBelow walk.now.height (F.pre walk.now.below) (F.post walk.now.below) }
    requires opened { env.old.opened ≢ [] }
    ensures kept { Kept env.old env.new }
    ensures judged { JudgesWithin walk.now.frame.now env.old (StmtKind-F.For init.now condition.now post.now body.now) result }
{
    let head = decided(walk, env, init, condition.as_ref())?;
    let typed = head.typed;
    if !typed {
        return Ok(head);
    }
    let body = walk.block(env, body)?;
    let after = walk.optional(env, post)?;
    let posted = is_post(post);
    let tested = after.with_test(posted);
    let rest = turn(tested, body);
    Ok(head.both(rest))
}

/// A `for` statement with a header of three parts.
pub fn counted<F: Fn(&mut Env<'_>, &Frame<'_>, usize, Inner<'_>) -> Result<Option<u32>, NoMemory>>(
    walk: &Walk<'_, F>,
    env: &mut Env<'_>,
    init: &Option<Box<Stmt>>,
    condition: &Option<Expr>,
    post: &Option<Box<Stmt>>,
    body: &List<Stmt>,
) -> Result<Judged, NoMemory>
    requires { RunsBelow walk.now.height (F.pre walk.now.below) (F.post walk.now.below) }
    ensures same { env.new ≡ env.old }
    ensures judged { JudgesHere walk.now.frame.now env.old (StmtKind-F.For init.now condition.now post.now body.now) result }
{
    env.open_scope()?;
    let judged = counted_within(walk, env, init, condition, post, body);
    env.close_scope();
    judged
}

/// A `for` statement with a condition alone, or with none.
pub fn repeated<F: Fn(&mut Env<'_>, &Frame<'_>, usize, Inner<'_>) -> Result<Option<u32>, NoMemory>>(
    walk: &Walk<'_, F>,
    env: &mut Env<'_>,
    condition: &Option<Expr>,
    body: &List<Stmt>,
) -> Result<Judged, NoMemory>
    requires { RunsBelow walk.now.height (F.pre walk.now.below) (F.post walk.now.below) }
    ensures same { env.new ≡ env.old }
    ensures judged { JudgesHere walk.now.frame.now env.old (StmtKind-F.While condition.now body.now) result }
{
    let head = tested_where(walk, env, condition.as_ref())?;
    let typed = head.typed;
    if !typed {
        return Ok(head);
    }
    let body = walk.block(env, body)?;
    Ok(head.both(body))
}
