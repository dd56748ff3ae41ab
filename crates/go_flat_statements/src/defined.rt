//! Short variable declarations.
ghost use Rattle.std.specs.Prelude.{◌≢◌, []};
ghost use Rattle.go_flat_statements.specs.Judging.{JudgesStatement};
ghost use Rattle.go_local_scopes.specs.States.{Kept};
ghost use Rattle.go_syntax.specs.declared.statement.StmtKind.{StmtKind-F};
ghost use Rattle.go_walks.specs.Below.{RunsBelow};

use crate::trees::expr_trees;
use go_assignments::defined::define;
use go_base::memory::NoMemory;
use go_judged::judged::Judged;
use go_rules::env::Env;
use go_syntax::expression::Expr;
use go_syntax::name::Name;
use go_type_terms::error::ExprError;
use go_walks::frame::Frame;
use go_walks::inner::Inner;
use go_walks::walk::Walk;

/// A short variable declaration, which leaves what it declares in the innermost scope.
pub fn definition<
    F: Fn(&mut Env<'_>, &Frame<'_>, usize, Inner<'_>) -> Result<Option<u32>, NoMemory>,
>(walk: &Walk<'_, F>, env: &mut Env<'_>, names: &[Name], exprs: &[Expr]) -> Result<Judged, NoMemory>
    requires below { RunsBelow walk.now.height (F.pre walk.now.below) (F.post walk.now.below) }
    requires opened { env.old.opened ≢ [] }
    ensures kept { Kept env.old env.new }
    ensures judged { JudgesStatement walk.now.frame.now env.old (StmtKind-F.Define names.now exprs.now) env.new result }
{
    let trees = expr_trees(walk.frame.alloc, exprs)?;
    let literals = walk.literals(env, trees)?;
    match define(env, walk.frame.alloc, walk.frame.error, names, exprs) {
        Ok(()) => Ok(literals),
        Err(ExprError::Untyped) => Ok(literals.with_test(false)),
        Err(ExprError::NoMemory) => Err(NoMemory),
    }
}
