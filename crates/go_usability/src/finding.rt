//! What a selector finds in a type, where all that the search reads is had.
ghost use Rattle.std.specs.Prelude.{◌≡◌, IfOk};
ghost use Rattle.go_rules.specs.Environments.{HasMethod};
ghost use Rattle.go_rules.specs.Scopes.{env_of};
ghost use Rattle.go_types.specs.go_selectors.Candidates.{signature_of};
ghost use Rattle.go_usability.specs.Answers.{Gives, FindsIn};
ghost use Rattle.go_usability.specs.inner.Levels.{depth_of};
ghost use Rattle.go_usability.specs.inner.Methods.{called_in};

use crate::context::Context;
use crate::table;
use crate::told::told_from;
use go_base::memory::NoMemory;
use go_model::types::found::Found;
use go_model::types::names::Sel;
use go_model::types::term::{Signature, Term};
use std::alloc::Global;

fn depth_of(found: &Found) -> Option<u32>
    ensures { result ≡ depth_of found.now }
{
    match found {
        Found::FieldAt(at) => Some(at.depth),
        Found::MethodAt(at) => Some(at.depth),
        Found::Ambiguous => None,
        Found::Nothing => None,
    }
}

/// The field that a selector finds in a type, or the method, where the type isn't defined over a pointer;
/// None where there is none, or where a type on the levels searched isn't told. A depth that is the greatest
/// of its type is answered by want of memory.
pub fn found<'a>(
    context: &Context<'a>,
    alloc: Global,
    term: &'a Term,
    sel: &Sel,
) -> Result<Option<Found>, NoMemory>
    ensures { IfOk result (FindsIn (env_of context.now.env.now) sel.now term.now) }
{
    let answer = table::find(context, alloc, term, sel)?;
    match depth_of(&answer) {
        Some(depth) => {
            if depth == u32::MAX {
                return Err(NoMemory);
            }
            if !told_from(context, alloc, term, sel, depth)? {
                return Ok(None);
            }
            Ok(Some(answer))
        }
        None => Ok(None),
    }
}

/// The signature of a method that was found, where it can be called on a value that is addressable or not.
pub(crate) fn called(found: &Option<Found>, addressable: bool) -> Option<&Signature>
    ensures { signature_of result ≡ called_in addressable found.now }
{
    match found {
        Some(Found::MethodAt(at)) => {
            if at.pointer_receiver && !at.through_pointer && !addressable {
                return None;
            }
            Some(&at.signature)
        }
        _ => None,
    }
}

fn copied(alloc: Global, signature: Option<&Signature>) -> Result<Option<Signature>, NoMemory>
    ensures { IfOk result (λ copied. copied ≡ signature_of signature.entry) }
{
    match signature {
        Some(signature) => {
            let signature = signature.copy(alloc)?;
            Ok(Some(signature))
        }
        None => Ok(None),
    }
}

/// The signature of the method that can be called on a value of a type, addressable or not; None where
/// there is none.
pub fn has_method<'a>(
    context: &Context<'a>,
    alloc: Global,
    addressable: bool,
    term: &'a Term,
    sel: &Sel,
) -> Result<Option<Signature>, NoMemory>
    ensures { IfOk result (Gives (HasMethod (env_of context.now.env.now) addressable term.now sel.now)) }
{
    let answer = found(context, alloc, term, sel)?;
    let signature = copied(alloc, called(&answer, addressable))?;
    Ok(signature)
}
