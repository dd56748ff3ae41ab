//! What is asked in flat statements, but for the blocks of function literals.
ghost use Rattle.std.specs.Prelude.{IfOk};
ghost use Rattle.go_flat_statements.specs.Flat.{Fits};
ghost use Rattle.go_rules.specs.Scopes.{env_of};
ghost use Rattle.go_selectors.specs.Answers.{Decides};
ghost use Rattle.go_syntax.specs.declared.statement.StmtKind.{out-StmtKind};
ghost use Rattle.go_type_terms.specs.Answers.{Tells, env_in};

use go_assignments::alone::{alone, call_alone};
use go_assignments::assigned::assign;
use go_assignments::changed::{operate, step};
use go_assignments::returned::results;
use go_assignments::sent::send;
use go_base::memory::NoMemory;
use go_model::types::term::Term;
use go_rules::env::Env;
use go_syntax::statement::StmtKind;
use go_type_terms::error::ExprError;
use go_usability::context::Context;
use go_walks::answers::holds;
use go_walks::frame::Frame;
use std::alloc::Global;

// What is asked in a flat statement of a function with these results. `Untyped` exactly where it isn't met.
fn fitting(
    context: &Context<'_>,
    alloc: Global,
    returned: &[Term],
    kind: &StmtKind,
) -> Result<(), ExprError>
    ensures { Tells (λ _. Fits (env_in context.now) returned.now (out-StmtKind kind.now)) result }
{
    match kind {
        StmtKind::Expr(expr) => alone(context, alloc, expr),
        StmtKind::Send(channel, value) => send(context, alloc, channel, value),
        StmtKind::Step(side, op) => step(context, alloc, side, *op),
        StmtKind::Assign(sides, values) => assign(context, alloc, sides.items(), values.items()),
        StmtKind::AssignOp(side, op, value) => operate(context, alloc, side, *op, value),
        StmtKind::Go(call) => call_alone(context, alloc, call),
        StmtKind::Defer(call) => call_alone(context, alloc, call),
        StmtKind::Return(values) => results(context, alloc, returned, values.items()),
        StmtKind::Empty => Ok(()),
        StmtKind::Break(_) => Ok(()),
        StmtKind::Continue(_) => Ok(()),
        StmtKind::Goto(_) => Ok(()),
        StmtKind::Fallthrough => Ok(()),
        _ => Err(ExprError::NoMemory),
    }
}

/// Whether it is met.
pub(crate) fn fits(frame: &Frame<'_>, env: &Env<'_>, kind: &StmtKind) -> Result<bool, NoMemory>
    ensures { IfOk result (λ b. Decides b (Fits (env_of env.now) frame.now.results.now (out-StmtKind kind.now))) }
{
    let context = Context::new(env, frame.error);
    holds(fitting(&context, frame.alloc, frame.results, kind))
}
