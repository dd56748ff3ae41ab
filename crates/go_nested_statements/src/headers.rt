//! Headers of statements: a statement that may be left out, and a condition.
ghost use Rattle.std.specs.Prelude.{◌≢◌, [], IfOk};
ghost use Rattle.go_base.specs.Keys.{item_of};
ghost use Rattle.go_judged.specs.Judging.{JudgesTo};
ghost use Rattle.go_local_scopes.specs.States.{IsAt, Kept};
ghost use Rattle.go_nested_statements.specs.Heads.{InHead};
ghost use Rattle.go_rules.specs.Environments.{Env as Around};
ghost use Rattle.go_statement_rules.specs.Contexts.{Decides as Decided};
ghost use Rattle.go_statement_rules.specs.Scopes.{Scopes, opened};
ghost use Rattle.go_statement_rules.specs.Statements.{tag_nodes};
ghost use Rattle.go_flat_statements.specs.go_walks.Below.{RunsBelow, blocks_of, enclosing_of};

use crate::conditions::tested_where;
use go_base::boxed::Box;
use go_base::memory::NoMemory;
use go_flat_statements::go_walks::frame::Frame;
use go_flat_statements::go_walks::inner::Inner;
use go_flat_statements::go_walks::walk::Walk;
use go_judged::judged::Judged;
use go_rules::env::Env;
use go_syntax::expression::Expr;
use go_syntax::statement::Stmt;

/// A statement and a condition, in the scope that was opened for them.
pub(crate) fn decided<
    F: Fn(&mut Env<'_>, &Frame<'_>, usize, Inner<'_>) -> Result<Option<u32>, NoMemory>,
>(
    walk: &Walk<'_, F>,
    env: &mut Env<'_>,
    init: &Option<Box<Stmt>>,
    expr: Option<&Expr>,
) -> Result<Judged, NoMemory>
    requires below { RunsBelow walk.now.height (F.pre walk.now.below) (F.post walk.now.below) }
    requires opened { env.old.opened ≢ [] }
    ensures kept { Kept env.old env.new }
    ensures judged { IfOk result (λ j. (E : Around) (s : Scopes) → IsAt E (opened s) env.old → JudgesTo E (blocks_of walk.now.frame.now) (Decided E (blocks_of walk.now.frame.now) (enclosing_of walk.now.frame.now) s init.now (item_of expr.entry)) env.new.opened (InHead E (blocks_of walk.now.frame.now) (enclosing_of walk.now.frame.now) s init.now (tag_nodes (item_of expr.entry))) j) }
{
    let begun = walk.optional(env, init)?;
    let typed = begun.typed;
    if !typed {
        return Ok(begun);
    }
    let tested = tested_where(walk, env, expr)?;
    Ok(begun.both(tested))
}
