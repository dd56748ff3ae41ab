//! Conditions.
ghost use Rattle.std.specs.Prelude.{◌≡◌, IfOk};
ghost use Rattle.go_base.specs.Keys.{item_of};
ghost use Rattle.go_clauses.specs.Clauses.{IsConditionOf};
ghost use Rattle.go_judged.specs.Judging.{Judges};
ghost use Rattle.go_local_scopes.specs.States.{IsAt};
ghost use Rattle.go_rules.specs.Environments.{Env as Around};
ghost use Rattle.go_rules.specs.Scopes.{env_of};
ghost use Rattle.go_selectors.specs.Answers.{Decides};
ghost use Rattle.go_statement_rules.specs.Scopes.{Scopes};
ghost use Rattle.go_statement_rules.specs.Statements.{IsCondition, tag_nodes};
ghost use Rattle.go_untyped_places.specs.LiteralRuns.{IsLiteralRun};
ghost use Rattle.go_flat_statements.specs.go_walks.Below.{RunsBelow, blocks_of, enclosing_of};

use go_base::memory::NoMemory;
use go_clauses::conditions::condition;
use go_flat_statements::go_walks::answers::holds;
use go_flat_statements::go_walks::frame::Frame;
use go_flat_statements::go_walks::inner::Inner;
use go_flat_statements::go_walks::walk::Walk;
use go_flat_statements::trees::expr_tree;
use go_judged::judged::Judged;
use go_rules::env::Env;
use go_syntax::expression::Expr;
use go_usability::context::Context;

// Whether an expression is a condition, but for the blocks of function literals in it.
fn is_condition(frame: &Frame<'_>, env: &Env<'_>, expr: &Expr) -> Result<bool, NoMemory>
    ensures { IfOk result (λ b. Decides b (IsConditionOf (env_of env.now) expr.now)) }
{
    let context = Context::new(env, frame.error);
    holds(condition(&context, frame.alloc, expr))
}

// An expression as a condition.
fn condition_here<
    F: Fn(&mut Env<'_>, &Frame<'_>, usize, Inner<'_>) -> Result<Option<u32>, NoMemory>,
>(walk: &Walk<'_, F>, env: &mut Env<'_>, expr: &Expr) -> Result<Judged, NoMemory>
    requires { RunsBelow walk.now.height (F.pre walk.now.below) (F.post walk.now.below) }
    ensures same { env.new ≡ env.old }
    ensures judged { IfOk result (λ j. (E : Around) (s : Scopes) → IsAt E s env.old → Judges E (blocks_of walk.now.frame.now) (IsCondition E (blocks_of walk.now.frame.now) (enclosing_of walk.now.frame.now) s (Some expr.now)) (IsLiteralRun E (blocks_of walk.now.frame.now) (enclosing_of walk.now.frame.now) s (tag_nodes (Some expr.now))) j) }
{
    let trees = expr_tree(walk.frame.alloc, expr)?;
    let literals = walk.literals(env, trees)?;
    let holds = is_condition(walk.frame, env, expr)?;
    Ok(literals.with_test(holds))
}

/// A condition, where there is one.
pub(crate) fn tested_where<
    F: Fn(&mut Env<'_>, &Frame<'_>, usize, Inner<'_>) -> Result<Option<u32>, NoMemory>,
>(walk: &Walk<'_, F>, env: &mut Env<'_>, expr: Option<&Expr>) -> Result<Judged, NoMemory>
    requires { RunsBelow walk.now.height (F.pre walk.now.below) (F.post walk.now.below) }
    ensures same { env.new ≡ env.old }
    ensures judged { IfOk result (λ j. (E : Around) (s : Scopes) → IsAt E s env.old → Judges E (blocks_of walk.now.frame.now) (IsCondition E (blocks_of walk.now.frame.now) (enclosing_of walk.now.frame.now) s (item_of expr.entry)) (IsLiteralRun E (blocks_of walk.now.frame.now) (enclosing_of walk.now.frame.now) s (tag_nodes (item_of expr.entry))) j) }
{
    match expr {
        Some(expr) => condition_here(walk, env, expr),
        None => Ok(Judged::tested(true)),
    }
}
