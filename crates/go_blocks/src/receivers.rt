//! The types of the variables that receivers declare.
ghost use Rattle.std.specs.Prelude.{◌≡◌, Some, replicate, IfOk};
ghost use Rattle.go_rules.specs.Expressions.{OfType, for_names};
ghost use Rattle.go_rules.specs.Scopes.{env_of};
ghost use Rattle.go_statement_rules.specs.Functions.{OfReceiver};
ghost use Rattle.go_syntax.specs.declared.types.ParameterDecl.{out-ParameterDecl};
ghost use Rattle.go_usability.specs.Answers.{Gives};

use go_base::list::List;
use go_base::memory::NoMemory;
use go_model::types::term::Term;
use go_rules::env::Env;
use go_switch_statements::go_expr::typing::type_of;
use go_switch_statements::go_walks::answers::found;
use go_switch_statements::go_walks::frame::Frame;
use go_syntax::name::Name;
use go_syntax::types::ParameterDecl;
use go_usability::context::Context;
use std::alloc::Global;

// So many copies of a type.
fn copies(alloc: Global, count: usize, term: &Term) -> Result<List<Term>, NoMemory>
    ensures { IfOk result (λ ts. ts ≡ replicate count term.now) }
{
    let mut terms = List::new(alloc);
    for _turn in 0..count {
        let copied = term.copy(alloc)?;
        terms.push(copied)?;
    }
    Ok(terms)
}

// A type once for each of the names, and once where there is none.
fn for_names(alloc: Global, names: &[Name], term: Term) -> Result<List<Term>, NoMemory>
    ensures { IfOk result (λ ts. ts ≡ for_names names.now term) }
{
    let mut terms = copies(alloc, names.len().saturating_sub(1), &term)?;
    terms.push(term)?;
    Ok(terms)
}

// The type of a receiver, where it has one.
fn receiver_type(
    frame: &Frame<'_>,
    env: &Env<'_>,
    decl: &ParameterDecl,
) -> Result<Option<Term>, NoMemory>
    ensures { IfOk result (Gives (OfType (env_of env.now) (out-ParameterDecl decl.now).type_)) }
{
    let context = Context::new(env, frame.error);
    found(type_of(&context, frame.alloc, &decl.type_))
}

fn declared_terms(
    frame: &Frame<'_>,
    env: &Env<'_>,
    decl: &ParameterDecl,
) -> Result<Option<List<Term>>, NoMemory>
    ensures { IfOk result (Gives (OfReceiver (env_of env.now) (Some decl.now))) }
{
    let given = receiver_type(frame, env, decl)?;
    let term = match given {
        Some(term) => term,
        None => return Ok(None),
    };
    let terms = for_names(frame.alloc, decl.names.items(), term)?;
    Ok(Some(terms))
}

/// The types of the variables that a receiver declares, where it is typed; none where there is no receiver.
pub(crate) fn receiver_terms(
    frame: &Frame<'_>,
    env: &Env<'_>,
    receiver: &Option<ParameterDecl>,
) -> Result<Option<List<Term>>, NoMemory>
    ensures { IfOk result (Gives (OfReceiver (env_of env.now) receiver.now)) }
{
    match receiver {
        Some(decl) => declared_terms(frame, env, decl),
        None => Ok(Some(List::new(frame.alloc))),
    }
}
