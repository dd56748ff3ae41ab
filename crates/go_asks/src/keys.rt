//! Keys of map types.
ghost use Rattle.std.specs.Prelude.{IfOk};
ghost use Rattle.go_model.specs.declared.types.term.Term.{Term};
ghost use Rattle.go_rules.specs.Expressions.{OfType};
ghost use Rattle.go_rules.specs.Usability.{Compares};
ghost use Rattle.go_selectors.specs.Answers.{Decides};
ghost use Rattle.go_type_terms.specs.Answers.{env_in};

use go_base::memory::NoMemory;
use go_expr::go_usability::comparison::compares;
use go_expr::go_usability::context::Context;
use go_expr::typing::type_of;
use go_model::types::term::Term;
use go_syntax::types::Type;
use go_type_terms::error::ExprError;
use std::alloc::Global;

// Whether values of a type can be compared.
fn term_compares(context: &Context<'_>, alloc: Global, term: &Term) -> Result<bool, NoMemory>
    ensures { IfOk result (λ answer. Decides answer (Compares (env_in context.now) term.now)) }
{
    compares(context, alloc, term)
}

/// Whether a type form stands for a type whose values can be compared.
pub(crate) fn key_compares(
    context: &Context<'_>,
    alloc: Global,
    key: &Type,
) -> Result<bool, NoMemory>
    ensures { IfOk result (λ answer. Decides answer ((u : Term) × OfType (env_in context.now) key.now u × Compares (env_in context.now) u)) }
{
    match type_of(context, alloc, key) {
        Ok(term) => {
            let answer = term_compares(context, alloc, &term)?;
            Ok(answer)
        }
        Err(ExprError::Untyped) => Ok(false),
        Err(ExprError::NoMemory) => Err(NoMemory),
    }
}
