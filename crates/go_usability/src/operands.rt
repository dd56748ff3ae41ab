//! What operands are values of.
ghost use Rattle.std.specs.Prelude.{◌≡◌, IfOk};
ghost use Rattle.go_model.specs.declared.types.term.Term.{out-Term, Term-F};
ghost use Rattle.go_rules.specs.Environments.{Env};
ghost use Rattle.go_rules.specs.Expressions.{is_constant};
ghost use Rattle.go_rules.specs.Operands.{HasKind, IsTyped, IsUntyped, default_type, is_variable};
ghost use Rattle.go_rules.specs.Scopes.{env_of};
ghost use Rattle.go_usability.specs.Answers.{Gives, term_of};
ghost use Rattle.go_usability.specs.inner.Stands.{basic_in, stand_of, stood};

use crate::context::Context;
use go_model::constants::value::{Basic, Kind, Untyped, Value};
use go_model::types::package::ConstTerm;
use go_model::types::term::Term;
use go_rules::operand::{Mode, Operand, Shape};

/// How an operand stands where a value is used.
#[derive(Drop)]
pub(crate) enum Standing<'a> {
    OfType(&'a Term),
    Constant(Untyped, &'a Value),
    /// A truth value that is neither constant nor typed.
    Truth,
    Nil,
    /// No value that is used.
    Nothing,
}

/// How an operand stands.
pub(crate) fn stands(operand: &Operand) -> Standing<'_>
    ensures { stood result ≡ stand_of operand.now }
{
    match &operand.shape {
        Shape::Of(term) => match operand.mode {
            Mode::Variable | Mode::Plain | Mode::MapElement => Standing::OfType(term),
            _ => Standing::Nothing,
        },
        Shape::Fixed(of, value) => match operand.mode {
            Mode::Constant => match of {
                ConstTerm::OfTerm(term) => Standing::OfType(term),
                ConstTerm::OfKind(kind) => Standing::Constant(*kind, value),
            },
            _ => Standing::Nothing,
        },
        Shape::Loose(Untyped::BoolKind) => match operand.mode {
            Mode::Plain => Standing::Truth,
            _ => Standing::Nothing,
        },
        Shape::Empty => match operand.mode {
            Mode::Nil => Standing::Nil,
            _ => Standing::Nothing,
        },
        _ => Standing::Nothing,
    }
}

/// The type that an operand is a value of; None where it is of none.
pub fn type_of(operand: &Operand) -> Option<&Term>
    ensures { Gives (IsTyped operand.now) (term_of result) }
{
    match stands(operand) {
        Standing::OfType(term) => Some(term),
        Standing::Constant(_, _) => None,
        Standing::Truth => None,
        Standing::Nil => None,
        Standing::Nothing => None,
    }
}

/// The untyped kind that an operand is a value of; None where it is of none.
pub fn kind_of(operand: &Operand) -> Option<Untyped>
    ensures { Gives (IsUntyped operand.now) result }
{
    match stands(operand) {
        Standing::OfType(_) => None,
        Standing::Constant(kind, _) => Some(kind),
        Standing::Truth => Some(Untyped::BoolKind),
        Standing::Nil => None,
        Standing::Nothing => None,
    }
}

/// Whether an operand is addressable.
pub fn is_variable(operand: &Operand) -> bool
    ensures { result ≡ is_variable operand.now.mode }
{
    matches!(operand.mode, Mode::Variable)
}

/// Whether an operand is constant.
pub fn is_constant(operand: &Operand) -> bool
    ensures { result ≡ is_constant operand.now.mode }
{
    matches!(operand.mode, Mode::Constant)
}

// The basic type that an underlying type is.
fn basic_in(term: &Term) -> Option<Basic>
    ensures { result ≡ basic_in (out-Term term.now) }
{
    match term {
        Term::Plain(basic) => Some(*basic),
        _ => None,
    }
}

/// The kind of a type, by the basic type underneath, or of an untyped kind; None where no basic type is
/// underneath.
pub fn kind_in<'a>(context: &Context<'a>, of: &'a ConstTerm) -> Option<Kind>
    ensures { Gives (HasKind (env_of context.now.env.now) of.now) result }
{
    match of {
        ConstTerm::OfTerm(term) => match basic_in(context.under(term)) {
            Some(basic) => Some(Kind::Typed(basic)),
            None => None,
        },
        ConstTerm::OfKind(kind) => Some(Kind::Loose(*kind)),
    }
}

/// The type that a value of an untyped kind has where no other is wanted.
pub fn default_basic(kind: Untyped) -> Basic
    ensures { out-Term (default_type kind) ≡ Term-F.Plain result }
{
    match kind {
        Untyped::IntKind => Basic::Int,
        Untyped::RuneKind => Basic::Int32,
        Untyped::StrKind => Basic::Str,
        Untyped::BoolKind => Basic::Bool,
    }
}
