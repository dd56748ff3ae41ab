//! Type switches.
ghost use Rattle.std.specs.Prelude.{◌≡◌, ◌≢◌, [], ◌∷◌, Some, IfOk};
ghost use Rattle.go_base.specs.Lists.{Each};
ghost use Rattle.go_type_switches.specs.go_clauses.Clauses.{IsGuardOf};
ghost use Rattle.go_nested_statements.specs.go_flat_statements.Judging.{JudgesHere};
ghost use Rattle.go_judged.specs.Judging.{Among, Judges};
ghost use Rattle.go_local_scopes.specs.States.{IsAt, Kept, Reaches};
ghost use Rattle.go_nested_statements.specs.Heads.{JudgesWithin};
ghost use Rattle.go_nodes.specs.Trees.{nodes_in};
ghost use Rattle.go_rules.specs.Asks.{Meets};
ghost use Rattle.go_rules.specs.Environments.{Env as Around};
ghost use Rattle.go_rules.specs.Scopes.{env_of};
ghost use Rattle.go_rules.specs.declared.seen.Seen.TheVariants as seen;
ghost use Rattle.go_selectors.specs.Answers.{Decides};
ghost use Rattle.go_statement_rules.specs.Clauses.{bound_type};
ghost use Rattle.go_statement_rules.specs.Scopes.{Declares, Scopes, opened};
ghost use Rattle.go_statement_rules.specs.Statements.{AreListed, NamesSomething, bound, listed_nodes};
ghost use Rattle.go_switch_statements.specs.Binding.{BoundRun, InGuarded, InTypeCase, IsTypedBound, IsTypedGuarded, IsTypedTypeCase, ListsMet};
ghost use Rattle.go_syntax.specs.declared.statement.StmtKind.{StmtKind-F};
ghost use Rattle.go_type_switches.specs.Switches.{AreClausesOf};
ghost use Rattle.go_type_terms.specs.Answers.{Tells, env_in};
ghost use Rattle.go_usability.specs.Answers.{Gives};
ghost use Rattle.go_walks.specs.Below.{RunsBelow, blocks_of, enclosing_of};

use go_base::boxed::Box;
use go_base::list::List;
use go_base::memory::NoMemory;
use go_judged::judged::Judged;
use go_local_scopes::declaring::declare;
use go_model::types::term::Term;
use go_nested_statements::go_flat_statements::trees::{expr_tree, listed_trees};
use go_nodes::trees::Trees;
use go_rules::blank::is_blank;
use go_rules::env::Env;
use go_rules::seen::Seen;
use go_syntax::expression::Expr;
use go_syntax::name::Name;
use go_syntax::statement::{Stmt, TypeCase};
use go_syntax::types::Type;
use go_type_switches::clauses::clauses;
use go_type_switches::go_asks::meets::meet;
use go_type_switches::go_clauses::guards::{all_listed, guard};
use go_type_terms::error::ExprError;
use go_usability::context::Context;
use go_walks::answers::{found, holds};
use go_walks::frame::Frame;
use go_walks::inner::Inner;
use go_walks::walk::Walk;
use std::alloc::Global;

// Whether the guard binds no blank name.
fn names_something(name: &Option<Name>) -> bool
    ensures { Decides result (NamesSomething name.now) }
{
    match name {
        Some(name) => !is_blank(name.text.bytes()),
        None => true,
    }
}

// The interface type of the operand, where it has one.
fn guard_term(frame: &Frame<'_>, env: &Env<'_>, expr: &Expr) -> Result<Option<Term>, NoMemory>
    ensures { IfOk result (Gives (IsGuardOf (env_of env.now) expr.now)) }
{
    let context = Context::new(env, frame.error);
    found(guard(&context, frame.alloc, expr))
}

// Whether the clauses list types of which a value of the interface type may be, each once.
fn are_clauses(
    frame: &Frame<'_>,
    env: &Env<'_>,
    interface: &Term,
    cases: &[TypeCase],
) -> Result<bool, NoMemory>
    ensures { IfOk result (λ b. Decides b (AreClausesOf (env_of env.now) interface.now cases.now)) }
{
    let context = Context::new(env, frame.error);
    holds(clauses(&context, frame.alloc, interface, cases))
}

// What a clause lists.
fn listed(
    context: &Context<'_>,
    alloc: Global,
    interface: &Term,
    forms: &Option<List<Type>>,
) -> Result<List<Option<Term>>, ExprError>
    ensures { Tells (AreListed (env_in context.now) interface.now forms.now) result }
{
    match forms {
        Some(forms) => all_listed(context, alloc, interface, forms.items()),
        None => Ok(List::new(alloc)),
    }
}

// What a clause lists, where it may list that.
fn listed_here(
    frame: &Frame<'_>,
    env: &Env<'_>,
    interface: &Term,
    forms: &Option<List<Type>>,
) -> Result<Option<List<Option<Term>>>, NoMemory>
    ensures { IfOk result (Gives (AreListed (env_of env.now) interface.now forms.now)) }
{
    let context = Context::new(env, frame.error);
    found(listed(&context, frame.alloc, interface, forms))
}

// Whether all that is asked in trees is met.
fn trees_meet(frame: &Frame<'_>, env: &Env<'_>, trees: Trees<'_>) -> Result<bool, NoMemory>
    ensures { IfOk result (λ b. Decides b (Each (Meets (env_of env.now)) (nodes_in trees.entry))) }
{
    let context = Context::new(env, frame.error);
    meet(&context, frame.alloc, trees)
}

// Whether all that is asked in the types of a clause is met.
fn listed_meet(
    frame: &Frame<'_>,
    env: &Env<'_>,
    forms: &Option<List<Type>>,
) -> Result<bool, NoMemory>
    ensures { IfOk result (λ b. Decides b (Each (Meets (env_of env.now)) (listed_nodes forms.now))) }
{
    let trees = listed_trees(frame.alloc, forms)?;
    trees_meet(frame, env, trees)
}

// What a clause lists, where all that is asked is met.
fn listed_met(
    frame: &Frame<'_>,
    env: &Env<'_>,
    interface: &Term,
    forms: &Option<List<Type>>,
) -> Result<Option<List<Option<Term>>>, NoMemory>
    ensures { IfOk result (Gives (ListsMet (env_of env.now) interface.now forms.now)) }
{
    let given = listed_here(frame, env, interface, forms)?;
    let all = match given {
        Some(all) => all,
        None => return Ok(None),
    };
    let met = listed_meet(frame, env, forms)?;
    if !met {
        return Ok(None);
    }
    Ok(Some(all))
}

// The type of the name in a clause that lists one.
fn type_of_one<'a>(term: &'a Term, one: &'a Option<Term>) -> &'a Term
    ensures { result.now ≡ bound_type term.now (one.now ∷ []) }
{
    match one {
        Some(one) => one,
        None => term,
    }
}

// The type of the name in a clause.
fn bound_type<'a>(term: &'a Term, listed: &'a [Option<Term>]) -> &'a Term
    ensures { result.now ≡ bound_type term.now listed.now }
{
    match listed {
        [] => term,
        [one] => type_of_one(term, one),
        _ => term,
    }
}

// Declares a name of a type.
fn declare_local(
    env: &mut Env<'_>,
    alloc: Global,
    name: &Name,
    term: &Term,
) -> Result<bool, NoMemory>
    requires { env.old.opened ≢ [] }
    ensures kept { Kept env.old env.new }
    ensures declared { IfOk result (λ b. Reaches b (Declares env.old.opened (Some name.now ∷ []) (seen.Local term.now ∷ [])) env.new.opened) }
{
    let copied = term.copy(alloc)?;
    let meaning = Seen::Local(copied);
    declare(env, alloc, Some(name), &meaning)
}

// Declares the name that the guard binds.
fn bind(
    env: &mut Env<'_>,
    alloc: Global,
    name: &Option<Name>,
    term: &Term,
) -> Result<bool, NoMemory>
    requires { env.old.opened ≢ [] }
    ensures kept { Kept env.old env.new }
    ensures bound { IfOk result (λ b. (s : Scopes) → env.old.opened ≡ opened s → Reaches b (bound name.now term.now s) env.new.opened) }
{
    match name {
        Some(name) => declare_local(env, alloc, name, term),
        None => Ok(true),
    }
}

// The statements of a clause in the scope that was opened for it.
fn bound_within<F: Fn(&mut Env<'_>, &Frame<'_>, usize, Inner<'_>) -> Result<Option<u32>, NoMemory>>(
    walk: &Walk<'_, F>,
    env: &mut Env<'_>,
    name: &Option<Name>,
    term: &Term,
    body: &List<Stmt>,
) -> Result<Judged, NoMemory>
    requires below { RunsBelow walk.now.height (F.pre walk.now.below) (F.post walk.now.below) }
    requires opened { env.old.opened ≢ [] }
    ensures kept { Kept env.old env.new }
    ensures judged { IfOk result (λ j. (E : Around) (s : Scopes) → IsAt E (opened s) env.old → Judges E (blocks_of walk.now.frame.now) (IsTypedBound E (blocks_of walk.now.frame.now) (enclosing_of walk.now.frame.now) s name.now term.now body.now) (BoundRun (enclosing_of walk.now.frame.now) s name.now term.now body.now) j) }
{
    let declared = bind(env, walk.frame.alloc, name, term)?;
    if !declared {
        return Ok(Judged::tested(false));
    }
    let place = walk.run(env, walk.frame, Inner::All(body))?;
    Ok(Judged::found(place))
}

fn bound_body<F: Fn(&mut Env<'_>, &Frame<'_>, usize, Inner<'_>) -> Result<Option<u32>, NoMemory>>(
    walk: &Walk<'_, F>,
    env: &mut Env<'_>,
    name: &Option<Name>,
    term: &Term,
    body: &List<Stmt>,
) -> Result<Judged, NoMemory>
    requires { RunsBelow walk.now.height (F.pre walk.now.below) (F.post walk.now.below) }
    ensures same { env.new ≡ env.old }
    ensures judged { IfOk result (λ j. (E : Around) (s : Scopes) → IsAt E s env.old → Judges E (blocks_of walk.now.frame.now) (IsTypedBound E (blocks_of walk.now.frame.now) (enclosing_of walk.now.frame.now) s name.now term.now body.now) (BoundRun (enclosing_of walk.now.frame.now) s name.now term.now body.now) j) }
{
    env.open_scope()?;
    let judged = bound_within(walk, env, name, term, body);
    env.close_scope();
    judged
}

// A clause.
fn type_case<F: Fn(&mut Env<'_>, &Frame<'_>, usize, Inner<'_>) -> Result<Option<u32>, NoMemory>>(
    walk: &Walk<'_, F>,
    env: &mut Env<'_>,
    name: &Option<Name>,
    interface: &Term,
    case: &TypeCase,
) -> Result<Judged, NoMemory>
    requires { RunsBelow walk.now.height (F.pre walk.now.below) (F.post walk.now.below) }
    ensures same { env.new ≡ env.old }
    ensures judged { IfOk result (λ j. (E : Around) (s : Scopes) → IsAt E s env.old → Judges E (blocks_of walk.now.frame.now) (IsTypedTypeCase E (blocks_of walk.now.frame.now) (enclosing_of walk.now.frame.now) s name.now interface.now case.now) (InTypeCase E (blocks_of walk.now.frame.now) (enclosing_of walk.now.frame.now) s name.now interface.now case.now) j) }
{
    let trees = listed_trees(walk.frame.alloc, &case.types)?;
    let literals = walk.literals(env, trees)?;
    let given = listed_met(walk.frame, env, interface, &case.types)?;
    let all = match given {
        Some(all) => all,
        None => return Ok(literals.with_test(false)),
    };
    let typed = literals.typed;
    if !typed {
        return Ok(literals);
    }
    let term = bound_type(interface, all.items());
    let body = bound_body(walk, env, name, term, &case.body)?;
    Ok(literals.both(body))
}

// The clauses.
fn type_cases<F: Fn(&mut Env<'_>, &Frame<'_>, usize, Inner<'_>) -> Result<Option<u32>, NoMemory>>(
    walk: &Walk<'_, F>,
    env: &mut Env<'_>,
    name: &Option<Name>,
    interface: &Term,
    cases: &[TypeCase],
) -> Result<Judged, NoMemory>
    requires { RunsBelow walk.now.height (F.pre walk.now.below) (F.post walk.now.below) }
    ensures same { env.new ≡ env.old }
    ensures judged { IfOk result (λ j. (E : Around) (s : Scopes) → IsAt E s env.old → Judges E (blocks_of walk.now.frame.now) (Each (IsTypedTypeCase E (blocks_of walk.now.frame.now) (enclosing_of walk.now.frame.now) s name.now interface.now) cases.now) (Among (InTypeCase E (blocks_of walk.now.frame.now) (enclosing_of walk.now.frame.now) s name.now interface.now) cases.now) j) }
{
    let mut judged = Judged::tested(true);
    for case in cases {
        let one = type_case(walk, env, name, interface, case)?;
        judged = judged.both(one);
    }
    Ok(judged)
}

// The guard's expression and the clauses, behind the statement of the header.
fn guarded<F: Fn(&mut Env<'_>, &Frame<'_>, usize, Inner<'_>) -> Result<Option<u32>, NoMemory>>(
    walk: &Walk<'_, F>,
    env: &mut Env<'_>,
    name: &Option<Name>,
    expr: &Expr,
    cases: &[TypeCase],
) -> Result<Judged, NoMemory>
    requires { RunsBelow walk.now.height (F.pre walk.now.below) (F.post walk.now.below) }
    ensures same { env.new ≡ env.old }
    ensures judged { IfOk result (λ j. (E : Around) (s : Scopes) → IsAt E s env.old → Judges E (blocks_of walk.now.frame.now) (IsTypedGuarded E (blocks_of walk.now.frame.now) (enclosing_of walk.now.frame.now) s name.now expr.now cases.now) (InGuarded E (blocks_of walk.now.frame.now) (enclosing_of walk.now.frame.now) s name.now expr.now cases.now) j) }
{
    let trees = expr_tree(walk.frame.alloc, expr)?;
    let literals = walk.literals(env, trees)?;
    let named = names_something(name);
    let head = literals.with_test(named);
    let given = guard_term(walk.frame, env, expr)?;
    let interface = match given {
        Some(interface) => interface,
        None => return Ok(head.with_test(false)),
    };
    let typed = head.typed;
    if !typed {
        return Ok(head);
    }
    let listed = are_clauses(walk.frame, env, &interface, cases)?;
    let cases = type_cases(walk, env, name, &interface, cases)?;
    let rest = cases.with_test(listed);
    Ok(head.both(rest))
}

// The guard and the clauses behind the statement of the header.
fn type_switch_within<
    F: Fn(&mut Env<'_>, &Frame<'_>, usize, Inner<'_>) -> Result<Option<u32>, NoMemory>,
>(
    walk: &Walk<'_, F>,
    env: &mut Env<'_>,
    init: &Option<Box<Stmt>>,
    name: &Option<Name>,
    expr: &Expr,
    cases: &[TypeCase],
) -> Result<Judged, NoMemory>
    requires below { RunsBelow walk.now.height (F.pre walk.now.below) (F.post walk.now.below) }
    requires opened { env.old.opened ≢ [] }
    ensures kept { Kept env.old env.new }
    ensures judged { JudgesWithin walk.now.frame.now env.old (StmtKind-F.TypeSwitch init.now name.now expr.now cases.now) result }
{
    let begun = walk.optional(env, init)?;
    let typed = begun.typed;
    if !typed {
        return Ok(begun);
    }
    let guarded = guarded(walk, env, name, expr, cases)?;
    Ok(begun.both(guarded))
}

/// A type switch, whose header has a scope of its own.
pub fn type_switch<
    F: Fn(&mut Env<'_>, &Frame<'_>, usize, Inner<'_>) -> Result<Option<u32>, NoMemory>,
>(
    walk: &Walk<'_, F>,
    env: &mut Env<'_>,
    init: &Option<Box<Stmt>>,
    name: &Option<Name>,
    expr: &Expr,
    cases: &[TypeCase],
) -> Result<Judged, NoMemory>
    requires { RunsBelow walk.now.height (F.pre walk.now.below) (F.post walk.now.below) }
    ensures same { env.new ≡ env.old }
    ensures judged { JudgesHere walk.now.frame.now env.old (StmtKind-F.TypeSwitch init.now name.now expr.now cases.now) result }
{
    env.open_scope()?;
    let judged = type_switch_within(walk, env, init, name, expr, cases);
    env.close_scope();
    judged
}
