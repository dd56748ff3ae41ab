//! Types whose values can be compared, where all that this reads is had.
ghost use Rattle.std.specs.Prelude.{IfOk, OnOk};
ghost use Rattle.go_rules.specs.Scopes.{env_of};
ghost use Rattle.go_rules.specs.Usability.{Compares};
ghost use Rattle.go_types.specs.go_selectors.Answers.{Decides};
ghost use Rattle.go_usability.specs.inner.Parts.{EnteredBelow, PushesParts};

use crate::context::Context;
use crate::table;
use crate::worklist::Worklist;
use go_base::memory::NoMemory;
use go_model::types::term::Term;
use std::alloc::Global;

// Adds the element of an array, or the types of a struct's fields.
fn push_parts<'a>(
    context: &Context<'a>,
    list: &mut Worklist<'a>,
    term: &'a Term,
) -> Result<(), NoMemory>
    ensures { OnOk result (PushesParts (env_of context.now.env.now).table term.now list.old.all.items list.old.seen.keys list.new.all.items list.new.seen.keys) }
{
    match context.under(term) {
        Term::Array(_, element) => {
            list.push(element.value())?;
            Ok(())
        }
        Term::Struct(fields) => {
            list.push_fields(fields.items())?;
            Ok(())
        }
        _ => Ok(()),
    }
}

// Whether each type to which a path leads has its entry.
fn entered_below<'a>(context: &Context<'a>, alloc: Global, term: &'a Term) -> Result<bool, NoMemory>
    ensures { IfOk result (λ answer. Decides answer (EnteredBelow (env_of context.now.env.now) term.now)) }
{
    let mut list = Worklist::new(alloc);
    list.push(term)?;
    for at in 0..usize::MAX {
        match list.at(at) {
            Some(part) => {
                if !context.is_entered(part) {
                    return Ok(false);
                }
                push_parts(context, &mut list, part)?;
            }
            None => return Ok(true),
        }
    }
    Err(NoMemory)
}

/// Whether two values of a type can be compared, and each type to which a path through fields and elements
/// leads has its entry.
pub fn compares<'a>(context: &Context<'a>, alloc: Global, term: &'a Term) -> Result<bool, NoMemory>
    ensures { IfOk result (λ answer. Decides answer (Compares (env_of context.now.env.now) term.now)) }
{
    if !table::comparable(context, alloc, term)? {
        return Ok(false);
    }
    let entered = entered_below(context, alloc, term)?;
    Ok(entered)
}
