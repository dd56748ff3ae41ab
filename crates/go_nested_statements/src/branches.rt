//! `if` statements.
ghost use Rattle.std.specs.Prelude.{◌≡◌, ◌≢◌, []};
ghost use Rattle.go_flat_statements.specs.Judging.{JudgesHere};
ghost use Rattle.go_local_scopes.specs.States.{Kept};
ghost use Rattle.go_nested_statements.specs.Heads.{JudgesWithin};
ghost use Rattle.go_syntax.specs.declared.statement.StmtKind.{StmtKind-F};
ghost use Rattle.go_flat_statements.specs.go_walks.Below.{RunsBelow};

use crate::headers::decided;
use go_base::boxed::Box;
use go_base::list::List;
use go_base::memory::NoMemory;
use go_flat_statements::go_walks::frame::Frame;
use go_flat_statements::go_walks::inner::Inner;
use go_flat_statements::go_walks::walk::Walk;
use go_judged::judged::Judged;
use go_rules::env::Env;
use go_syntax::expression::Expr;
use go_syntax::statement::Stmt;

// Both branches behind the header.
fn branches_within<
    F: Fn(&mut Env<'_>, &Frame<'_>, usize, Inner<'_>) -> Result<Option<u32>, NoMemory>,
>(
    walk: &Walk<'_, F>,
    env: &mut Env<'_>,
    init: &Option<Box<Stmt>>,
    condition: &Expr,
    body: &List<Stmt>,
    other: &Option<Box<Stmt>>,
) -> Result<Judged, NoMemory>
    requires below { RunsBelow walk.now.height (F.pre walk.now.below) (F.post walk.now.below) }
    requires opened { env.old.opened ≢ [] }
    ensures kept { Kept env.old env.new }
    ensures judged { JudgesWithin walk.now.frame.now env.old (StmtKind-F.If init.now condition.now body.now other.now) result }
{
    let head = decided(walk, env, init, Some(condition))?;
    let typed = head.typed;
    if !typed {
        return Ok(head);
    }
    let taken = walk.block(env, body)?;
    let other = walk.optional(env, other)?;
    let rest = taken.both(other);
    Ok(head.both(rest))
}

/// An `if` statement, whose header has a scope of its own.
pub fn branches<F: Fn(&mut Env<'_>, &Frame<'_>, usize, Inner<'_>) -> Result<Option<u32>, NoMemory>>(
    walk: &Walk<'_, F>,
    env: &mut Env<'_>,
    init: &Option<Box<Stmt>>,
    condition: &Expr,
    body: &List<Stmt>,
    other: &Option<Box<Stmt>>,
) -> Result<Judged, NoMemory>
    requires { RunsBelow walk.now.height (F.pre walk.now.below) (F.post walk.now.below) }
    ensures same { env.new ≡ env.old }
    ensures judged { JudgesHere walk.now.frame.now env.old (StmtKind-F.If init.now condition.now body.now other.now) result }
{
    env.open_scope()?;
    let judged = branches_within(walk, env, init, condition, body, other);
    env.close_scope();
    judged
}
