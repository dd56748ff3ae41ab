//! `select` statements.
ghost use Rattle.std.specs.Prelude.{◌≡◌, ◌≢◌, [], IfOk};
ghost use Rattle.go_base.specs.Lists.{Each};
ghost use Rattle.go_nested_statements.specs.go_flat_statements.Judging.{JudgesHere};
ghost use Rattle.go_judged.specs.Judging.{Among, Judges};
ghost use Rattle.go_local_scopes.specs.States.{IsAt, Kept};
ghost use Rattle.go_switch_statements.specs.Selecting.{InSelectCase, IsTypedSelectCase};
ghost use Rattle.go_rules.specs.Environments.{Env as Around};
ghost use Rattle.go_statement_rules.specs.Scopes.{Scopes, opened};
ghost use Rattle.go_syntax.specs.declared.statement.StmtKind.{StmtKind-F};
ghost use Rattle.go_walks.specs.Below.{RunsBelow, blocks_of, enclosing_of};

use go_base::memory::NoMemory;
use go_judged::judged::Judged;
use go_rules::env::Env;
use go_syntax::statement::SelectCase;
use go_walks::frame::Frame;
use go_walks::inner::Inner;
use go_walks::walk::Walk;

// The communication of a clause and its statements, in the scope that was opened for them.
fn clause_within<
    F: Fn(&mut Env<'_>, &Frame<'_>, usize, Inner<'_>) -> Result<Option<u32>, NoMemory>,
>(walk: &Walk<'_, F>, env: &mut Env<'_>, case: &SelectCase) -> Result<Judged, NoMemory>
    requires below { RunsBelow walk.now.height (F.pre walk.now.below) (F.post walk.now.below) }
    requires opened { env.old.opened ≢ [] }
    ensures kept { Kept env.old env.new }
    ensures judged { IfOk result (λ j. (E : Around) (s : Scopes) → IsAt E (opened s) env.old → Judges E (blocks_of walk.now.frame.now) (IsTypedSelectCase E (blocks_of walk.now.frame.now) (enclosing_of walk.now.frame.now) s case.now) (InSelectCase E (blocks_of walk.now.frame.now) (enclosing_of walk.now.frame.now) s case.now) j) }
{
    let begun = walk.optional(env, &case.communication)?;
    let typed = begun.typed;
    if !typed {
        return Ok(begun);
    }
    let place = walk.run(env, walk.frame, Inner::All(&case.body))?;
    Ok(begun.both(Judged::found(place)))
}

// A clause.
fn clause<F: Fn(&mut Env<'_>, &Frame<'_>, usize, Inner<'_>) -> Result<Option<u32>, NoMemory>>(
    walk: &Walk<'_, F>,
    env: &mut Env<'_>,
    case: &SelectCase,
) -> Result<Judged, NoMemory>
    requires { RunsBelow walk.now.height (F.pre walk.now.below) (F.post walk.now.below) }
    ensures same { env.new ≡ env.old }
    ensures judged { IfOk result (λ j. (E : Around) (s : Scopes) → IsAt E s env.old → Judges E (blocks_of walk.now.frame.now) (IsTypedSelectCase E (blocks_of walk.now.frame.now) (enclosing_of walk.now.frame.now) s case.now) (InSelectCase E (blocks_of walk.now.frame.now) (enclosing_of walk.now.frame.now) s case.now) j) }
{
    env.open_scope()?;
    let judged = clause_within(walk, env, case);
    env.close_scope();
    judged
}

// The clauses.
fn clauses<F: Fn(&mut Env<'_>, &Frame<'_>, usize, Inner<'_>) -> Result<Option<u32>, NoMemory>>(
    walk: &Walk<'_, F>,
    env: &mut Env<'_>,
    cases: &[SelectCase],
) -> Result<Judged, NoMemory>
    requires { RunsBelow walk.now.height (F.pre walk.now.below) (F.post walk.now.below) }
    ensures same { env.new ≡ env.old }
    ensures judged { IfOk result (λ j. (E : Around) (s : Scopes) → IsAt E s env.old → Judges E (blocks_of walk.now.frame.now) (Each (IsTypedSelectCase E (blocks_of walk.now.frame.now) (enclosing_of walk.now.frame.now) s) cases.now) (Among (InSelectCase E (blocks_of walk.now.frame.now) (enclosing_of walk.now.frame.now) s) cases.now) j) }
{
    let mut judged = Judged::tested(true);
    for case in cases {
        let one = clause(walk, env, case)?;
        judged = judged.both(one);
    }
    Ok(judged)
}

/// A `select` statement, each clause of which has a scope of its own.
pub fn select<F: Fn(&mut Env<'_>, &Frame<'_>, usize, Inner<'_>) -> Result<Option<u32>, NoMemory>>(
    walk: &Walk<'_, F>,
    env: &mut Env<'_>,
    cases: &[SelectCase],
) -> Result<Judged, NoMemory>
    requires { RunsBelow walk.now.height (F.pre walk.now.below) (F.post walk.now.below) }
    ensures same { env.new ≡ env.old }
    ensures judged { JudgesHere walk.now.frame.now env.old (StmtKind-F.Select cases.now) result }
{
    clauses(walk, env, cases)
}
