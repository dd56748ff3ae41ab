//! Expression switches.
ghost use Rattle.std.specs.Prelude.{◌≡◌, ◌≢◌, [], Some, IfOk};
ghost use Rattle.go_base.specs.Lists.{Each};
ghost use Rattle.go_type_switches.specs.go_clauses.Clauses.{AreCasesOf, IsTagOf};
ghost use Rattle.go_nested_statements.specs.go_flat_statements.Judging.{JudgesHere};
ghost use Rattle.go_judged.specs.Judging.{Among, Judges};
ghost use Rattle.go_local_scopes.specs.States.{IsAt, Kept};
ghost use Rattle.go_nested_statements.specs.Heads.{JudgesWithin};
ghost use Rattle.go_switch_statements.specs.Casing.{AreValues, InTagged, InValues, IsTypedCase, IsTypedTagged};
ghost use Rattle.go_rules.specs.Environments.{Env as Around};
ghost use Rattle.go_rules.specs.Scopes.{env_of};
ghost use Rattle.go_selectors.specs.Answers.{Decides};
ghost use Rattle.go_statement_rules.specs.Scopes.{Scopes};
ghost use Rattle.go_syntax.specs.declared.statement.StmtKind.{StmtKind-F};
ghost use Rattle.go_untyped_places.specs.Parts.{InCase};
ghost use Rattle.go_usability.specs.Answers.{Gives};
ghost use Rattle.go_walks.specs.Below.{RunsBelow, blocks_of, enclosing_of};

use go_base::boxed::Box;
use go_base::list::List;
use go_base::memory::NoMemory;
use go_judged::judged::Judged;
use go_model::types::term::Term;
use go_nested_statements::go_flat_statements::trees::{expr_trees, optional_tree};
use go_rules::env::Env;
use go_syntax::expression::Expr;
use go_syntax::statement::{Case, Stmt};
use go_type_switches::go_clauses::tags::{cases, tag};
use go_usability::context::Context;
use go_walks::answers::found;
use go_walks::frame::Frame;
use go_walks::inner::Inner;
use go_walks::walk::Walk;

// The type with whose values those of the clauses are compared, where there is one.
fn tag_term(frame: &Frame<'_>, env: &Env<'_>, expr: &Option<Expr>) -> Result<Option<Term>, NoMemory>
    ensures { IfOk result (Gives (IsTagOf (env_of env.now) expr.now)) }
{
    let context = Context::new(env, frame.error);
    found(tag(&context, frame.alloc, expr))
}

// Whether the values of a clause can be compared with those of a type.
fn are_cases(
    frame: &Frame<'_>,
    env: &Env<'_>,
    term: &Term,
    exprs: &[Expr],
) -> Result<bool, NoMemory>
    ensures { IfOk result (λ b. Decides b (AreCasesOf (env_of env.now) term.now exprs.now)) }
{
    let context = Context::new(env, frame.error);
    cases(&context, frame.alloc, term, exprs)
}

// The values of a clause, where it has some.
fn some_values<F: Fn(&mut Env<'_>, &Frame<'_>, usize, Inner<'_>) -> Result<Option<u32>, NoMemory>>(
    walk: &Walk<'_, F>,
    env: &mut Env<'_>,
    term: &Term,
    exprs: &[Expr],
) -> Result<Judged, NoMemory>
    requires { RunsBelow walk.now.height (F.pre walk.now.below) (F.post walk.now.below) }
    ensures same { env.new ≡ env.old }
    ensures judged { IfOk result (λ j. (E : Around) (s : Scopes) → IsAt E s env.old → Judges E (blocks_of walk.now.frame.now) (AreValues E (blocks_of walk.now.frame.now) (enclosing_of walk.now.frame.now) s term.now (Some exprs.now)) (InValues E (blocks_of walk.now.frame.now) (enclosing_of walk.now.frame.now) s (Some exprs.now)) j) }
{
    let trees = expr_trees(walk.frame.alloc, exprs)?;
    let literals = walk.literals(env, trees)?;
    let compared = are_cases(walk.frame, env, term, exprs)?;
    Ok(literals.with_test(compared))
}

// The values of a clause.
fn values<F: Fn(&mut Env<'_>, &Frame<'_>, usize, Inner<'_>) -> Result<Option<u32>, NoMemory>>(
    walk: &Walk<'_, F>,
    env: &mut Env<'_>,
    term: &Term,
    exprs: &Option<List<Expr>>,
) -> Result<Judged, NoMemory>
    requires { RunsBelow walk.now.height (F.pre walk.now.below) (F.post walk.now.below) }
    ensures same { env.new ≡ env.old }
    ensures judged { IfOk result (λ j. (E : Around) (s : Scopes) → IsAt E s env.old → Judges E (blocks_of walk.now.frame.now) (AreValues E (blocks_of walk.now.frame.now) (enclosing_of walk.now.frame.now) s term.now exprs.now) (InValues E (blocks_of walk.now.frame.now) (enclosing_of walk.now.frame.now) s exprs.now) j) }
{
    match exprs {
        Some(exprs) => some_values(walk, env, term, exprs.items()),
        None => Ok(Judged::tested(true)),
    }
}

// A clause.
fn clause<F: Fn(&mut Env<'_>, &Frame<'_>, usize, Inner<'_>) -> Result<Option<u32>, NoMemory>>(
    walk: &Walk<'_, F>,
    env: &mut Env<'_>,
    term: &Term,
    case: &Case,
) -> Result<Judged, NoMemory>
    requires { RunsBelow walk.now.height (F.pre walk.now.below) (F.post walk.now.below) }
    ensures same { env.new ≡ env.old }
    ensures judged { IfOk result (λ j. (E : Around) (s : Scopes) → IsAt E s env.old → Judges E (blocks_of walk.now.frame.now) (IsTypedCase E (blocks_of walk.now.frame.now) (enclosing_of walk.now.frame.now) s term.now case.now) (InCase E (blocks_of walk.now.frame.now) (enclosing_of walk.now.frame.now) s case.now) j) }
{
    let values = values(walk, env, term, &case.values)?;
    let body = walk.block(env, &case.body)?;
    Ok(values.both(body))
}

// The clauses.
fn clauses<F: Fn(&mut Env<'_>, &Frame<'_>, usize, Inner<'_>) -> Result<Option<u32>, NoMemory>>(
    walk: &Walk<'_, F>,
    env: &mut Env<'_>,
    term: &Term,
    cases: &[Case],
) -> Result<Judged, NoMemory>
    requires { RunsBelow walk.now.height (F.pre walk.now.below) (F.post walk.now.below) }
    ensures same { env.new ≡ env.old }
    ensures judged { IfOk result (λ j. (E : Around) (s : Scopes) → IsAt E s env.old → Judges E (blocks_of walk.now.frame.now) (Each (IsTypedCase E (blocks_of walk.now.frame.now) (enclosing_of walk.now.frame.now) s term.now) cases.now) (Among (InCase E (blocks_of walk.now.frame.now) (enclosing_of walk.now.frame.now) s) cases.now) j) }
{
    let mut judged = Judged::tested(true);
    for case in cases {
        let one = clause(walk, env, term, case)?;
        judged = judged.both(one);
    }
    Ok(judged)
}

// The tag and the clauses.
fn tagged<F: Fn(&mut Env<'_>, &Frame<'_>, usize, Inner<'_>) -> Result<Option<u32>, NoMemory>>(
    walk: &Walk<'_, F>,
    env: &mut Env<'_>,
    expr: &Option<Expr>,
    cases: &[Case],
) -> Result<Judged, NoMemory>
    requires { RunsBelow walk.now.height (F.pre walk.now.below) (F.post walk.now.below) }
    ensures same { env.new ≡ env.old }
    ensures judged { IfOk result (λ j. (E : Around) (s : Scopes) → IsAt E s env.old → Judges E (blocks_of walk.now.frame.now) (IsTypedTagged E (blocks_of walk.now.frame.now) (enclosing_of walk.now.frame.now) s expr.now cases.now) (InTagged E (blocks_of walk.now.frame.now) (enclosing_of walk.now.frame.now) s expr.now cases.now) j) }
{
    let trees = optional_tree(walk.frame.alloc, expr.as_ref())?;
    let literals = walk.literals(env, trees)?;
    let given = tag_term(walk.frame, env, expr)?;
    let term = match given {
        Some(term) => term,
        None => return Ok(literals.with_test(false)),
    };
    let typed = literals.typed;
    if !typed {
        return Ok(literals);
    }
    let cases = clauses(walk, env, &term, cases)?;
    Ok(literals.both(cases))
}

// The tag and the clauses behind the statement of the header.
fn switch_within<
    F: Fn(&mut Env<'_>, &Frame<'_>, usize, Inner<'_>) -> Result<Option<u32>, NoMemory>,
>(
    walk: &Walk<'_, F>,
    env: &mut Env<'_>,
    init: &Option<Box<Stmt>>,
    expr: &Option<Expr>,
    cases: &[Case],
) -> Result<Judged, NoMemory>
    requires below { RunsBelow walk.now.height (F.pre walk.now.below) (F.post walk.now.below) }
    requires opened { env.old.opened ≢ [] }
    ensures kept { Kept env.old env.new }
    ensures judged { JudgesWithin walk.now.frame.now env.old (StmtKind-F.Switch init.now expr.now cases.now) result }
{
    let begun = walk.optional(env, init)?;
    let typed = begun.typed;
    if !typed {
        return Ok(begun);
    }
    let tagged = tagged(walk, env, expr, cases)?;
    Ok(begun.both(tagged))
}

/// An expression switch, whose header has a scope of its own.
pub fn switch<F: Fn(&mut Env<'_>, &Frame<'_>, usize, Inner<'_>) -> Result<Option<u32>, NoMemory>>(
    walk: &Walk<'_, F>,
    env: &mut Env<'_>,
    init: &Option<Box<Stmt>>,
    expr: &Option<Expr>,
    cases: &[Case],
) -> Result<Judged, NoMemory>
    requires { RunsBelow walk.now.height (F.pre walk.now.below) (F.post walk.now.below) }
    ensures same { env.new ≡ env.old }
    ensures judged { JudgesHere walk.now.frame.now env.old (StmtKind-F.Switch init.now expr.now cases.now) result }
{
    env.open_scope()?;
    let judged = switch_within(walk, env, init, expr, cases);
    env.close_scope();
    judged
}
