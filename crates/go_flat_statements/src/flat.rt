//! Statements that have no statement in them and declare nothing.
ghost use Rattle.std.specs.Prelude.{◌≡◌, true};
ghost use Rattle.go_flat_statements.specs.Flat.{is_flat};
ghost use Rattle.go_flat_statements.specs.Judging.{JudgesHere};
ghost use Rattle.go_syntax.specs.declared.statement.StmtKind.{out-StmtKind};
ghost use Rattle.go_walks.specs.Below.{RunsBelow};

use crate::fitting::fits;
use crate::trees::own_trees;
use go_base::memory::NoMemory;
use go_judged::judged::Judged;
use go_rules::env::Env;
use go_syntax::statement::StmtKind;
use go_walks::frame::Frame;
use go_walks::inner::Inner;
use go_walks::walk::Walk;

/// A flat statement: whether it is typed, and the least untyped place in the function literals in it.
pub fn flat<F: Fn(&mut Env<'_>, &Frame<'_>, usize, Inner<'_>) -> Result<Option<u32>, NoMemory>>(
    walk: &Walk<'_, F>,
    env: &mut Env<'_>,
    kind: &StmtKind,
) -> Result<Judged, NoMemory>
    requires { RunsBelow walk.now.height (F.pre walk.now.below) (F.post walk.now.below) }
    ensures same { env.new ≡ env.old }
    ensures judged { is_flat (out-StmtKind kind.now) ≡ true → JudgesHere walk.now.frame.now env.old (out-StmtKind kind.now) result }
{
    let trees = own_trees(walk.frame.alloc, kind)?;
    let literals = walk.literals(env, trees)?;
    let fit = fits(walk.frame, env, kind)?;
    Ok(literals.with_test(fit))
}
