//! Arrays, and pointers to them.
ghost use Rattle.std.specs.Prelude.{Bool};
ghost use Rattle.go_model.specs.declared.types.term.Term.{Term, out-Term};
ghost use Rattle.go_rules.specs.Expressions.{IsArray};
ghost use Rattle.go_rules.specs.Scopes.{env_of};
ghost use Rattle.go_operators.specs.go_usability.Answers.{Gives};
ghost use Rattle.go_elements.specs.inner.Arrays.{BaseLength, LengthAt};

use go_model::types::term::Term;
use go_operators::go_usability::context::Context;

// The length of an array type.
fn base_length(under: &Term) -> Option<u64>
    ensures { Gives (BaseLength (out-Term under.now)) result }
{
    match under {
        Term::Array(length, _) => Some(*length),
        _ => None,
    }
}

// The length of an array type, or of the array under a pointer type.
fn length_at(context: &Context<'_>, under: &Term) -> Option<u64>
    ensures { Gives (LengthAt (env_of context.now.env.now) (out-Term under.now)) result }
{
    match under {
        Term::Array(length, _) => Some(*length),
        Term::Pointer(base) => base_length(context.under(base.value())),
        _ => None,
    }
}

/// The length of an array underneath a type, or underneath the base of a pointer underneath it; None exactly
/// where there is neither.
pub fn array_length(context: &Context<'_>, term: &Term) -> Option<u64>
    ensures { Gives (λ n. (pointer : Bool) × (e : Term) × IsArray (env_of context.now.env.now) term.now pointer n e) result }
{
    length_at(context, context.under(term))
}
