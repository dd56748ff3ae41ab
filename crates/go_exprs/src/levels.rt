//! The readers of trees below a height.
ghost use Rattle.std.specs.Prelude.{◌≡◌};
ghost use Rattle.go_syntax.specs.grammar.Terminals.{terminals};
ghost use Rattle.go_descent.specs.Levels.{levels};
ghost use Rattle.go_descent.specs.Parts.{ReadsBelow, ReadsPart};
ghost use Rattle.go_descent.specs.Rules as rules;
ghost use Rattle.go_descent.specs.go_cursor.Skipping.{skipped_body};

use crate::exprs::{expr, unary_expr};
use go_descent::go_cursor::cursor::Cursor;
use go_descent::go_cursor::error::ParseError;
use go_descent::grammar::{Grammar, Part, PartTree};
use go_operand_exprs::go_type_exprs::types::TypeExprs;
use go_operand_exprs::operands::OperandExprs;
use go_signatures::signatures::Signatures;
use go_syntax::held::expression::HeldExpr;
use go_syntax::held::types::{HeldSignature, HeldType};
use std::alloc::Global;

/// A part whose own parts are of lower heights.
pub(crate) fn part_at<F: Fn(Global, &mut Cursor<'_>, usize, Part) -> Result<PartTree, ParseError>>(
    grammar: &Grammar<F>,
    tokens: &mut Cursor<'_>,
    part: Part,
) -> Result<PartTree, ParseError>
    requires { ReadsBelow grammar.now.height (F.pre grammar.now.below) (F.post grammar.now.below) }
    ensures { ReadsPart (rules.whole_parts skipped_body (levels grammar.now.height)) part (terminals tokens.old) result tokens.new }
{
    match part {
        Part::Expr => Ok(PartTree::Expr(HeldExpr::new(expr(grammar, true, tokens)?))),
        Part::Unary(composite) => {
            Ok(PartTree::Expr(HeldExpr::new(unary_expr(grammar, composite, tokens)?)))
        }
        Part::Type => Ok(PartTree::Type(HeldType::new(TypeExprs { grammar }.type_(tokens)?))),
        Part::CompositeType => Ok(PartTree::Type(HeldType::new(TypeExprs { grammar }.composite_type(
            tokens,
        )?))),
        Part::Signature => Ok(PartTree::Signature(HeldSignature::new(Signatures {
            grammar,
        }.signature(tokens)?))),
        Part::LiteralValue => {
            Ok(PartTree::LiteralValue(OperandExprs { grammar }.literal_value(tokens)?))
        }
    }
}

/// A part of a height below this.
pub(crate) fn below(
    alloc: Global,
    tokens: &mut Cursor<'_>,
    height: usize,
    part: Part,
) -> Result<PartTree, ParseError>
    ensures { ReadsPart (levels height) part (terminals tokens.old) result tokens.new }
{
    if height == 0 {
        return Err(ParseError::Syntax);
    }
    let grammar = Grammar {
        alloc,
        height: height - 1,
        below,
    };
    part_at(&grammar, tokens, part)
}
