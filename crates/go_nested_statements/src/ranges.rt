//! `for` statements with a range.
ghost use Rattle.std.specs.Prelude.{◌≡◌, ◌≢◌, ◌≤◌, List as Sequence, [], length, take, IfOk};
ghost use Rattle.go_clauses.specs.Clauses.{RangesOver, TakesValues};
ghost use Rattle.go_flat_statements.specs.Judging.{JudgesHere};
ghost use Rattle.go_judged.specs.Judging.{Judges};
ghost use Rattle.go_local_scopes.specs.States.{IsAt, Kept, Reaches};
ghost use Rattle.go_model.specs.declared.types.term.Term as t;
ghost use Rattle.go_nested_statements.specs.Ranging.{AssignsRange, IsTypedNamed, NamedRun};
ghost use Rattle.go_rules.specs.Environments.{Env as Around};
ghost use Rattle.go_rules.specs.Scopes.{env_of};
ghost use Rattle.go_selectors.specs.Answers.{Decides};
ghost use Rattle.go_statement_rules.specs.Scopes.{Declares, Scopes, locals, opened};
ghost use Rattle.go_statement_rules.specs.Statements.{some_names};
ghost use Rattle.go_syntax.specs.declared.statement.StmtKind.{StmtKind-F};
ghost use Rattle.go_usability.specs.Answers.{Gives};
ghost use Rattle.go_flat_statements.specs.go_walks.Below.{RunsBelow, blocks_of, enclosing_of};

use go_base::list::List;
use go_base::memory::NoMemory;
use go_clauses::ranges::range;
use go_clauses::targets::{range_assigned, range_defined};
use go_flat_statements::go_walks::answers::found;
use go_flat_statements::go_walks::frame::Frame;
use go_flat_statements::go_walks::inner::Inner;
use go_flat_statements::go_walks::walk::Walk;
use go_flat_statements::trees::{and_trees, expr_tree};
use go_judged::judged::Judged;
use go_local_scopes::declaring::declare_all;
use go_local_scopes::slots::{push_locals, push_names};
use go_model::types::term::Term;
use go_rules::env::Env;
use go_syntax::expression::Expr;
use go_syntax::name::Name;
use go_syntax::statement::Stmt;
use go_usability::context::Context;
use std::alloc::Global;

// The types of what a range over an expression gives, where there is one.
fn ranged(frame: &Frame<'_>, env: &Env<'_>, expr: &Expr) -> Result<Option<List<Term>>, NoMemory>
    ensures { IfOk result (Gives (RangesOver (env_of env.now) expr.now)) }
{
    let context = Context::new(env, frame.error);
    found(range(&context, frame.alloc, expr))
}

// Whether there is a range over an expression.
fn is_ranged(frame: &Frame<'_>, env: &Env<'_>, expr: &Expr) -> Result<bool, NoMemory>
    ensures { IfOk result (λ b. Decides b ((ts : Sequence t.Term) × RangesOver (env_of env.now) expr.now ts)) }
{
    let given = ranged(frame, env, expr)?;
    Ok(given.is_some())
}

/// A range whose values go nowhere.
pub fn bare<F: Fn(&mut Env<'_>, &Frame<'_>, usize, Inner<'_>) -> Result<Option<u32>, NoMemory>>(
    walk: &Walk<'_, F>,
    env: &mut Env<'_>,
    expr: &Expr,
    body: &List<Stmt>,
) -> Result<Judged, NoMemory>
    requires { RunsBelow walk.now.height (F.pre walk.now.below) (F.post walk.now.below) }
    ensures same { env.new ≡ env.old }
    ensures judged { JudgesHere walk.now.frame.now env.old (StmtKind-F.Range expr.now body.now) result }
{
    let trees = expr_tree(walk.frame.alloc, expr)?;
    let literals = walk.literals(env, trees)?;
    let given = is_ranged(walk.frame, env, expr)?;
    let head = literals.with_test(given);
    let typed = head.typed;
    if !typed {
        return Ok(head);
    }
    let body = walk.block(env, body)?;
    Ok(head.both(body))
}

// Whether sides are assigned what a range gives.
fn takes_values(
    frame: &Frame<'_>,
    env: &Env<'_>,
    sides: &[Expr],
    terms: &[Term],
) -> Result<bool, NoMemory>
    ensures { IfOk result (λ b. Decides b (TakesValues (env_of env.now) sides.now terms.now)) }
{
    let context = Context::new(env, frame.error);
    range_assigned(&context, frame.alloc, sides, terms)
}

// Whether there is a range over an expression, and sides are assigned what it gives.
fn is_assigned(
    frame: &Frame<'_>,
    env: &Env<'_>,
    sides: &[Expr],
    expr: &Expr,
) -> Result<bool, NoMemory>
    ensures { IfOk result (λ b. Decides b (AssignsRange (env_of env.now) sides.now expr.now)) }
{
    let given = ranged(frame, env, expr)?;
    let terms = match given {
        Some(terms) => terms,
        None => return Ok(false),
    };
    takes_values(frame, env, sides, terms.items())
}

/// A range whose values are assigned.
pub fn assigned<F: Fn(&mut Env<'_>, &Frame<'_>, usize, Inner<'_>) -> Result<Option<u32>, NoMemory>>(
    walk: &Walk<'_, F>,
    env: &mut Env<'_>,
    sides: &[Expr],
    expr: &Expr,
    body: &List<Stmt>,
) -> Result<Judged, NoMemory>
    requires { RunsBelow walk.now.height (F.pre walk.now.below) (F.post walk.now.below) }
    ensures same { env.new ≡ env.old }
    ensures judged { JudgesHere walk.now.frame.now env.old (StmtKind-F.RangeAssign sides.now expr.now body.now) result }
{
    let trees = and_trees(walk.frame.alloc, expr, sides)?;
    let literals = walk.literals(env, trees)?;
    let given = is_assigned(walk.frame, env, sides, expr)?;
    let head = literals.with_test(given);
    let typed = head.typed;
    if !typed {
        return Ok(head);
    }
    let body = walk.block(env, body)?;
    Ok(head.both(body))
}

// Declares as many names for what a range gives.
fn declare(
    env: &mut Env<'_>,
    alloc: Global,
    names: &[Name],
    terms: &[Term],
) -> Result<bool, NoMemory>
    requires opened { env.old.opened ≢ [] }
    requires enough { length names.now ≤ length terms.now }
    ensures kept { Kept env.old env.new }
    ensures declared { IfOk result (λ b. Reaches b (Declares env.old.opened (some_names names.now) (locals (take (length names.now) terms.now))) env.new.opened) }
{
    let mut slots = List::new(alloc);
    push_names(&mut slots, names)?;
    let mut meanings = List::new(alloc);
    push_locals(alloc, &mut meanings, &terms[..names.len()])?;
    declare_all(env, alloc, slots.items(), meanings.items())
}

// The names in the scope that was opened for them, and the block.
fn named_within<F: Fn(&mut Env<'_>, &Frame<'_>, usize, Inner<'_>) -> Result<Option<u32>, NoMemory>>(
    walk: &Walk<'_, F>,
    env: &mut Env<'_>,
    names: &[Name],
    terms: &[Term],
    body: &List<Stmt>,
) -> Result<Judged, NoMemory>
    requires below { RunsBelow walk.now.height (F.pre walk.now.below) (F.post walk.now.below) }
    requires opened { env.old.opened ≢ [] }
    requires enough { length names.now ≤ length terms.now }
    ensures kept { Kept env.old env.new }
    ensures judged { IfOk result (λ j. (E : Around) (s : Scopes) → IsAt E (opened s) env.old → Judges E (blocks_of walk.now.frame.now) (IsTypedNamed E (blocks_of walk.now.frame.now) (enclosing_of walk.now.frame.now) (opened s) names.now terms.now body.now) (NamedRun (enclosing_of walk.now.frame.now) (opened s) names.now terms.now body.now) j) }
{
    let declared = declare(env, walk.frame.alloc, names, terms)?;
    if !declared {
        return Ok(Judged::tested(false));
    }
    walk.block(env, body)
}

fn named<F: Fn(&mut Env<'_>, &Frame<'_>, usize, Inner<'_>) -> Result<Option<u32>, NoMemory>>(
    walk: &Walk<'_, F>,
    env: &mut Env<'_>,
    names: &[Name],
    terms: &[Term],
    body: &List<Stmt>,
) -> Result<Judged, NoMemory>
    requires below { RunsBelow walk.now.height (F.pre walk.now.below) (F.post walk.now.below) }
    requires enough { length names.now ≤ length terms.now }
    ensures same { env.new ≡ env.old }
    ensures judged { IfOk result (λ j. (E : Around) (s : Scopes) → IsAt E s env.old → Judges E (blocks_of walk.now.frame.now) (IsTypedNamed E (blocks_of walk.now.frame.now) (enclosing_of walk.now.frame.now) (opened s) names.now terms.now body.now) (NamedRun (enclosing_of walk.now.frame.now) (opened s) names.now terms.now body.now) j) }
{
    env.open_scope()?;
    let judged = named_within(walk, env, names, terms, body);
    env.close_scope();
    judged
}

/// A range whose values are declared.
pub fn defined<F: Fn(&mut Env<'_>, &Frame<'_>, usize, Inner<'_>) -> Result<Option<u32>, NoMemory>>(
    walk: &Walk<'_, F>,
    env: &mut Env<'_>,
    names: &[Name],
    expr: &Expr,
    body: &List<Stmt>,
) -> Result<Judged, NoMemory>
    requires { RunsBelow walk.now.height (F.pre walk.now.below) (F.post walk.now.below) }
    ensures same { env.new ≡ env.old }
    ensures judged { JudgesHere walk.now.frame.now env.old (StmtKind-F.RangeDefine names.now expr.now body.now) result }
{
    let trees = expr_tree(walk.frame.alloc, expr)?;
    let literals = walk.literals(env, trees)?;
    let given = ranged(walk.frame, env, expr)?;
    let terms = match given {
        Some(terms) => terms,
        None => return Ok(literals.with_test(false)),
    };
    let fit = range_defined(names, terms.items());
    let head = literals.with_test(fit);
    let typed = head.typed;
    if !typed {
        return Ok(head);
    }
    let body = named(walk, env, names, terms.items(), body)?;
    Ok(head.both(body))
}
