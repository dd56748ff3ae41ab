//! The forms of types, underneath their names.
ghost use Rattle.std.specs.Prelude.{◌≡◌, List, MatchOption, true};
ghost use Rattle.go_base.specs.Keys.{item_of};
ghost use Rattle.go_model.specs.constants.Classes.{class_of_basic, is_integer};
ghost use Rattle.go_model.specs.declared.constants.value.Basic.{Basic};
ghost use Rattle.go_model.specs.declared.constants.value.Basic.TheVariants as basic;
ghost use Rattle.go_model.specs.declared.types.term.Direction.{Direction};
ghost use Rattle.go_model.specs.declared.types.term.Method.{Method};
ghost use Rattle.go_model.specs.declared.types.term.Term.{Term, Term-F, out-Term};
ghost use Rattle.go_model.specs.types.Underlying.{under};
ghost use Rattle.go_rules.specs.Expressions.{is_composed};
ghost use Rattle.go_rules.specs.Scopes.{env_of};
ghost use Rattle.go_usability.specs.go_selectors.Answers.{Decides};
ghost use Rattle.go_usability.specs.Answers.{Gives};

use go_model::constants::class::Class;
use go_model::constants::value::Basic;
use go_model::types::term::{Direction, Signature, Term};
use go_usability::context::Context;

/// The basic type underneath a type.
pub fn basic_under(context: &Context<'_>, term: &Term) -> Option<Basic>
    ensures { Gives (λ b. under (env_of context.now.env.now).table term.now ≡ Term-F.Plain b) result }
{
    match context.under(term) {
        Term::Plain(basic) => Some(*basic),
        _ => None,
    }
}

/// Whether it is neither a basic type nor a name.
pub fn is_composed(term: &Term) -> bool
    ensures { result ≡ is_composed (out-Term term.now) }
{
    !matches!(term, Term::Plain(_) | Term::Named(_))
}

/// Whether there is neither a basic type nor a name underneath.
pub fn is_composed_under(context: &Context<'_>, term: &Term) -> bool
    ensures { result ≡ is_composed (under (env_of context.now.env.now).table term.now) }
{
    is_composed(context.under(term))
}

/// Whether there is an integer type underneath.
pub fn is_integer(context: &Context<'_>, term: &Term) -> bool
    ensures { Decides result ((b : Basic) × (under (env_of context.now.env.now).table term.now ≡ Term-F.Plain b) × (is_integer (class_of_basic b) ≡ true)) }
{
    match basic_under(context, term) {
        Some(basic) => matches!(basic.class(), Class::Integer),
        None => false,
    }
}

/// Whether there is `string` underneath.
pub fn is_string(context: &Context<'_>, term: &Term) -> bool
    ensures { Decides result (under (env_of context.now.env.now).table term.now ≡ Term-F.Plain basic.Str) }
{
    matches!(basic_under(context, term), Some(Basic::Str))
}

/// The base of a pointer type underneath.
pub fn pointer_under<'a>(context: &Context<'a>, term: &'a Term) -> Option<&'a Term>
    ensures { Gives (λ base. under (env_of context.now.env.now).table term.now ≡ Term-F.Pointer base) (item_of result) }
{
    match context.under(term) {
        Term::Pointer(base) => Some(base.value()),
        _ => None,
    }
}

/// The element of a slice type underneath.
pub fn slice_under<'a>(context: &Context<'a>, term: &'a Term) -> Option<&'a Term>
    ensures { Gives (λ e. under (env_of context.now.env.now).table term.now ≡ Term-F.Slice e) (item_of result) }
{
    match context.under(term) {
        Term::Slice(element) => Some(element.value()),
        _ => None,
    }
}

/// The direction and the element of a channel type underneath.
pub fn channel_under<'a>(context: &Context<'a>, term: &'a Term) -> Option<(Direction, &'a Term)>
    ensures { MatchOption result ((d : Direction) (e : Term) → under (env_of context.now.env.now).table term.now ≡ Term-F.Chan d e → ⊥) (λ p. under (env_of context.now.env.now).table term.now ≡ Term-F.Chan p.0 p.1.now) }
{
    match context.under(term) {
        Term::Chan(direction, element) => Some((*direction, element.value())),
        _ => None,
    }
}

/// The signature of a function type underneath.
pub fn function_under<'a>(context: &Context<'a>, term: &'a Term) -> Option<&'a Signature>
    ensures { Gives (λ g. under (env_of context.now.env.now).table term.now ≡ Term-F.Func g) (item_of result) }
{
    match context.under(term) {
        Term::Func(signature) => Some(signature),
        _ => None,
    }
}

/// Whether there is an interface underneath.
pub fn is_interface(context: &Context<'_>, term: &Term) -> bool
    ensures { Decides result ((ms : List Method) × (under (env_of context.now.env.now).table term.now ≡ Term-F.Interface ms)) }
{
    matches!(context.under(term), Term::Interface(_))
}

/// The key of a map type underneath, and its element.
pub fn map_under<'a>(context: &Context<'a>, term: &'a Term) -> Option<(&'a Term, &'a Term)>
    ensures { MatchOption result ((k : Term) (e : Term) → under (env_of context.now.env.now).table term.now ≡ Term-F.Map k e → ⊥) (λ p. under (env_of context.now.env.now).table term.now ≡ Term-F.Map p.0.now p.1.now) }
{
    match context.under(term) {
        Term::Map(key, element) => Some((key.value(), element.value())),
        _ => None,
    }
}
