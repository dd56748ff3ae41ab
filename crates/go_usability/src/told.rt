//! Whether what a search reads is had: the entries of the types on its levels, and their methods of the selector.
ghost use Rattle.std.specs.Prelude.{◌≡◌, IfOk, OnOk, true};
ghost use Rattle.go_model.specs.types.Selectors.{start};
ghost use Rattle.go_rules.specs.Scopes.{env_of};
ghost use Rattle.go_types.specs.go_selectors.Answers.{Decides};
ghost use Rattle.go_usability.specs.inner.Levels.{further, PushesAll, Visits, ToldDown, ToldEach, ToldFor, ToldFrom, ToldWhole};

use crate::context::Context;
use crate::worklist::Worklist;
use go_base::memory::NoMemory;
use go_model::types::borrowed::BorrowedTerm;
use go_model::types::names::Sel;
use go_model::types::term::{Method, Term};
use std::alloc::Global;

// Adds the types one embedded field further.
fn push_further<'a>(
    context: &Context<'a>,
    list: &mut Worklist<'a>,
    term: &'a Term,
) -> Result<(), NoMemory>
    ensures { OnOk result (PushesAll list.old.all.items list.old.seen.keys list.new.all.items list.new.seen.keys (further (env_of context.now.env.now).table term.now)) }
{
    match context.under(term) {
        Term::Struct(fields) => {
            list.push_embedded(fields.items())?;
            Ok(())
        }
        _ => Ok(()),
    }
}

// Whether each type of a level is told; the types one field further are added.
fn visit<'a>(
    context: &Context<'a>,
    list: &mut Worklist<'a>,
    sel: &Sel,
    layer: &Vec<BorrowedTerm<'a>>,
) -> Result<bool, NoMemory>
    ensures { IfOk result (Visits (env_of context.now.env.now) sel.now layer.now.items list.old.all.items list.old.seen.keys list.new.all.items list.new.seen.keys) }
{
    for part in layer {
        let term = part.term();
        if !context.is_told(sel, term) {
            return Ok(false);
        }
        push_further(context, list, term)?;
    }
    Ok(true)
}

// Whether each type on the levels down to a depth is told.
fn told_down<'a>(
    context: &Context<'a>,
    alloc: Global,
    term: &'a Term,
    sel: &Sel,
    depth: u32,
) -> Result<bool, NoMemory>
    ensures { IfOk result (λ answer. Decides answer (ToldDown (env_of context.now.env.now) sel.now depth term.now)) }
{
    let mut list = Worklist::new(alloc);
    list.push(term)?;
    let mut from = 0;
    let end = depth as u64 + 1;
    for level in 0..end {
        let layer = list.tail(from)?;
        from = list.len();
        if !visit(context, &mut list, sel, &layer)? {
            return Ok(false);
        }
    }
    Ok(true)
}

// Whether a type is told for the selector of each method.
fn is_told_each(context: &Context<'_>, term: &Term, methods: &[Method]) -> bool
    ensures { Decides result (ToldEach (env_of context.now.env.now) methods.now term.now) }
{
    for method in methods {
        if !context.is_told(&method.sel, term) {
            return false;
        }
    }
    true
}

// Whether each type on any level is told for the selector of each method.
fn told_whole<'a>(
    context: &Context<'a>,
    alloc: Global,
    term: &'a Term,
    methods: &[Method],
) -> Result<bool, NoMemory>
    ensures { IfOk result (λ told. told ≡ true → ToldWhole (env_of context.now.env.now) methods.now term.now) }
{
    let mut list = Worklist::new(alloc);
    list.push(term)?;
    for at in 0..usize::MAX {
        match list.at(at) {
            Some(part) => {
                if !is_told_each(context, part, methods) {
                    return Ok(false);
                }
                push_further(context, &mut list, part)?;
            }
            None => return Ok(true),
        }
    }
    Err(NoMemory)
}

// The type at which paths begin.
fn start<'a>(context: &Context<'a>, term: &'a Term) -> &'a Term
    ensures { result.now ≡ (start (env_of context.now.env.now).table term.now).term }
{
    match term {
        Term::Pointer(base) => match context.under(base.value()) {
            Term::Pointer(_) => term,
            Term::Interface(_) => term,
            _ => base.value(),
        },
        Term::Named(_) => match context.under(term) {
            Term::Pointer(base) => base.value(),
            _ => term,
        },
        _ => term,
    }
}

/// Whether it is known where paths from a type begin, and each type on the levels down to a depth is told.
pub(crate) fn told_from<'a>(
    context: &Context<'a>,
    alloc: Global,
    term: &'a Term,
    sel: &Sel,
    depth: u32,
) -> Result<bool, NoMemory>
    ensures { IfOk result (λ answer. Decides answer (ToldFrom (env_of context.now.env.now) sel.now depth term.now)) }
{
    if !context.begins(term) {
        return Ok(false);
    }
    let told = told_down(context, alloc, start(context, term), sel, depth)?;
    Ok(told)
}

/// Whether it is known where paths from a type begin, and each type on any level is told for the selector of
/// each method. It may answer that it isn't so where fewer levels would do.
pub(crate) fn told_for<'a>(
    context: &Context<'a>,
    alloc: Global,
    term: &'a Term,
    methods: &[Method],
) -> Result<bool, NoMemory>
    ensures { IfOk result (λ told. told ≡ true → ToldFor (env_of context.now.env.now) methods.now term.now) }
{
    if !context.begins(term) {
        return Ok(false);
    }
    let told = told_whole(context, alloc, start(context, term), methods)?;
    Ok(told)
}
