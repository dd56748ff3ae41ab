//! What literals of one token are.
ghost use Rattle.std.specs.Prelude.{◌≡◌, ◌≤◌, length};
ghost use Rattle.go_model.specs.declared.types.package.ConstTerm.TheVariants as constant;
ghost use Rattle.go_rules.specs.Environments.{Env};
ghost use Rattle.go_rules.specs.Expressions.{HasForm};
ghost use Rattle.go_rules.specs.Operands.{constant_of};
ghost use Rattle.go_syntax.specs.declared.expression.Expr.{Expr-F};
ghost use Rattle.go_model.specs.declared.constants.value.Untyped.TheVariants as untyped;
ghost use Rattle.go_model.specs.declared.constants.value.Value.TheVariants as value;
ghost use Rattle.go_type_terms.specs.Answers.{Tells};

use crate::constants::untyped;
use go_base::text::Text;
use go_model::constants::value::{Untyped, Value};
use go_rules::operand::Operand;
use go_syntax::expression::Literal;
use go_type_terms::error::ExprError;
use std::alloc::Global;

// The most bytes that a constant text has.
const LONGEST_TEXT: usize = 65_536;

fn text(alloc: Global, text: &Text) -> Result<Operand, ExprError>
    ensures { Tells (λ o. (length text.now ≤ 65536) × (o ≡ constant_of (constant.OfKind untyped.StrKind) (value.Str text.now))) result }
{
    if text.bytes().len() > LONGEST_TEXT {
        return Err(ExprError::Untyped);
    }
    let copied = text.copy()?;
    Ok(untyped(Untyped::StrKind, Value::Str(copied)))
}

/// What a literal is. `Untyped` of one that isn't within range, of a floating-point or imaginary number, and of
/// a text that is too long.
pub fn literal(alloc: Global, literal: &Literal) -> Result<Operand, ExprError>
    ensures { (E : Env) → Tells (HasForm E (Expr-F.«Expr::Literal» literal.now)) result }
{
    match literal {
        Literal::Int(number) => Ok(untyped(Untyped::IntKind, Value::Int(*number))),
        Literal::Rune(character) => {
            Ok(untyped(Untyped::RuneKind, Value::Int(i128::from(*character))))
        }
        Literal::Str(content) => text(alloc, content),
        Literal::Wide => Err(ExprError::Untyped),
        Literal::Float => Err(ExprError::Untyped),
        Literal::Imaginary => Err(ExprError::Untyped),
    }
}
