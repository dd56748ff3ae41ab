//! The clauses of type switches.
ghost use Rattle.std.specs.Prelude.{◌≡◌, ◌++◌, Some, map, IfOk, OnOk};
ghost use Rattle.go_base.specs.Lists.{Once};
ghost use Rattle.go_nodes.specs.Trees.{texts_of};
ghost use Rattle.go_selectors.specs.Answers.{Decides};
ghost use Rattle.go_statement_rules.specs.Statements.{ListsClauses};
ghost use Rattle.go_syntax.specs.declared.statement.TypeCase.{out-TypeCase};
ghost use Rattle.go_type_switches.specs.Switches.{AreClausesOf};
ghost use Rattle.go_type_switches.specs.inner.Listing.{PushesListed, code_in};
ghost use Rattle.go_type_terms.specs.Answers.{Tells, env_in};

use go_base::list::List;
use go_base::memory::NoMemory;
use go_base::text::Text;
use go_clauses::guards::all_listed;
use go_model::types::term::Term;
use go_nodes::distinct::are_once;
use go_operators::go_usability::context::Context;
use go_syntax::statement::TypeCase;
use go_syntax::types::Type;
use go_type_codes::codes::type_code;
use go_type_terms::error::ExprError;
use std::alloc::Global;

// Bytes that tell what is listed apart: of `nil` none.
fn code_of(alloc: Global, listed: &Option<Term>) -> Result<Text, NoMemory>
    ensures { IfOk result (λ text. text ≡ code_in listed.now) }
{
    match listed {
        Some(term) => type_code(alloc, term),
        None => Text::of(alloc, b"".as_slice()),
    }
}

fn codes_of(alloc: Global, listed: &[Option<Term>]) -> Result<List<Text>, NoMemory>
    ensures { IfOk result (λ codes. codes ≡ map code_in listed.now) }
{
    let mut codes = List::new(alloc);
    for one in listed {
        let code = code_of(alloc, one)?;
        codes.push(code)?;
    }
    Ok(codes)
}

fn borrowed<'a>(alloc: Global, texts: &'a [Text]) -> Result<List<&'a Text>, NoMemory>
    ensures { IfOk result (λ names. texts_of names ≡ texts.now) }
{
    let mut names = List::new(alloc);
    for text in texts {
        names.push(text)?;
    }
    Ok(names)
}

// Whether nothing is listed twice.
fn are_once_listed(alloc: Global, listed: &[Option<Term>]) -> Result<bool, NoMemory>
    ensures { IfOk result (λ answer. Decides answer (Once listed.now)) }
{
    let codes = codes_of(alloc, listed)?;
    let names = borrowed(alloc, codes.items())?;
    let once = are_once(alloc, names.items())?;
    Ok(once)
}

fn copied(alloc: Global, listed: &Option<Term>) -> Result<Option<Term>, NoMemory>
    ensures { IfOk result (λ copy. copy ≡ listed.now) }
{
    match listed {
        Some(term) => Ok(Some(term.copy(alloc)?)),
        None => Ok(None),
    }
}

// Adds what is listed to what others list.
fn append(
    alloc: Global,
    all: &mut List<Option<Term>>,
    listed: &[Option<Term>],
) -> Result<(), NoMemory>
    ensures { OnOk result (all.new ≡ all.old ++ listed.now) }
{
    for one in listed {
        let copy = copied(alloc, one)?;
        all.push(copy)?;
    }
    Ok(())
}

// Adds what type forms stand for, or `nil`.
fn push_forms(
    context: &Context<'_>,
    alloc: Global,
    interface: &Term,
    forms: &[Type],
    all: &mut List<Option<Term>>,
) -> Result<(), ExprError>
    ensures { PushesListed (env_in context.now) interface.now (Some forms.now) all.old all.new result }
{
    let listed = all_listed(context, alloc, interface, forms)?;
    append(alloc, all, listed.items())?;
    Ok(())
}

// Adds what a clause lists.
fn push_clause(
    context: &Context<'_>,
    alloc: Global,
    interface: &Term,
    clause: &TypeCase,
    all: &mut List<Option<Term>>,
) -> Result<(), ExprError>
    ensures { PushesListed (env_in context.now) interface.now (out-TypeCase clause.now).types all.old all.new result }
{
    match &clause.types {
        Some(forms) => push_forms(context, alloc, interface, forms.items(), all),
        None => Ok(()),
    }
}

// What all clauses list.
fn listed_in(
    context: &Context<'_>,
    alloc: Global,
    interface: &Term,
    clauses: &[TypeCase],
) -> Result<List<Option<Term>>, ExprError>
    ensures { Tells (ListsClauses (env_in context.now) interface.now clauses.now) result }
{
    let mut all = List::new(alloc);
    for clause in clauses {
        push_clause(context, alloc, interface, clause, &mut all)?;
    }
    Ok(all)
}

/// The clauses of a switch over an interface type: each lists types of which its values may be, or `nil`, and nothing is listed twice.
/// `Untyped` exactly where it isn't so.
pub fn clauses(
    context: &Context<'_>,
    alloc: Global,
    interface: &Term,
    clauses: &[TypeCase],
) -> Result<(), ExprError>
    ensures { Tells (λ _. AreClausesOf (env_in context.now) interface.now clauses.now) result }
{
    let all = listed_in(context, alloc, interface, clauses)?;
    let once = are_once_listed(alloc, all.items())?;
    if !once {
        return Err(ExprError::Untyped);
    }
    Ok(())
}
