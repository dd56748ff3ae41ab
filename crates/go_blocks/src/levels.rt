//! Statements to a depth.
ghost use Rattle.std.specs.Prelude.{◌≢◌, []};
ghost use Rattle.go_local_scopes.specs.States.{Kept};
ghost use Rattle.go_switch_statements.specs.go_walks.Below.{Runs};
ghost use Rattle.go_switch_statements.specs.go_walks.Inners.{statements_in};

use crate::statements::statements;
use go_base::memory::NoMemory;
use go_rules::env::Env;
use go_switch_statements::go_walks::frame::Frame;
use go_switch_statements::go_walks::inner::Inner;
use go_switch_statements::go_walks::walk::Walk;
use go_syntax::statement::Stmt;

/// More than how deep statements and function literals stand in one another: as many as a `usize` counts, so that no tree is
/// refused for its depth.
pub(crate) const DEPTH: usize = usize::MAX;

/// The untyped place of statements, where there is one; statements in one another stand to this depth.
pub(crate) fn below(
    env: &mut Env<'_>,
    frame: &Frame<'_>,
    height: usize,
    inner: Inner<'_>,
) -> Result<Option<u32>, NoMemory>
    requires { env.old.opened ≢ [] }
    ensures kept { Kept env.old env.new }
    ensures runs { Runs frame.now env.old (statements_in inner.entry) result env.new }
{
    if height == 0 {
        return Err(NoMemory);
    }
    let walk = Walk {
        frame: &*frame,
        height: height - 1,
        below,
    };
    statements(&walk, env, inner.items())
}

/// The same of statements that stand in one another to any depth.
pub(crate) fn place_in(
    env: &mut Env<'_>,
    frame: &Frame<'_>,
    list: &[Stmt],
) -> Result<Option<u32>, NoMemory>
    requires { env.old.opened ≢ [] }
    ensures kept { Kept env.old env.new }
    ensures runs { Runs frame.now env.old list.now result env.new }
{
    let walk = Walk {
        frame: &*frame,
        height: DEPTH,
        below,
    };
    statements(&walk, env, list)
}
