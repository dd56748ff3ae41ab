//! Functions and methods.
ghost use Rattle.go_entries.specs.inner.Functions.{IsFunctionOf, IsSignatureOf, IsWithin};
ghost use Rattle.go_type_terms.specs.Answers.{Tells, env_in};
ghost use Rattle.go_expr.specs.go_usability.Answers.{Gives};

use go_base::list::List;
use go_expr::go_usability::context::Context;
use go_expr::typing::signature_of;
use go_model::types::bounds::is_within_bounds;
use go_model::types::package::Entity;
use go_model::types::term::{Signature as Signed, Term};
use go_syntax::types::Signature;
use go_type_terms::error::ExprError;
use std::alloc::Global;

// A signature, where its function type is within bounds.
fn within_bounds(signed: Signed) -> Option<Signed>
    ensures { Gives (IsWithin signed) result }
{
    let term = Term::Func(signed);
    if !is_within_bounds(&term) {
        return None;
    }
    term.into_signature()
}

/// The signature of a function or a method, within bounds; `Untyped` exactly where it has none.
pub(crate) fn signature(
    context: &Context<'_>,
    alloc: Global,
    written: &Signature,
) -> Result<Signed, ExprError>
    ensures { Tells (IsSignatureOf (env_in context.now) written.now) result }
{
    let signed = signature_of(context, alloc, written)?;
    match within_bounds(signed) {
        Some(signed) => Ok(signed),
        None => Err(ExprError::Untyped),
    }
}

/// What the name of a function denotes; `Untyped` exactly where it denotes nothing.
pub(crate) fn function(
    context: &Context<'_>,
    alloc: Global,
    written: &Signature,
) -> Result<List<Entity>, ExprError>
    ensures { Tells (IsFunctionOf (env_in context.now) written.now) result }
{
    let signed = signature(context, alloc, written)?;
    let mut objects = List::new(alloc);
    objects.push(Entity::Function(signed))?;
    Ok(objects)
}
