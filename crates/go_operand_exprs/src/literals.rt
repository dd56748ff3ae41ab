//! The elements of composite literals.
ghost use Rattle.std.specs.Prelude.{◌≡◌};
ghost use Rattle.go_syntax.specs.grammar.Terminals.{terminals};
ghost use Rattle.go_descent.specs.Levels.{levels};
ghost use Rattle.go_descent.specs.Parts.{ReadsBelow};
ghost use Rattle.go_cursor.specs.Reading.{run, step_of};
ghost use Rattle.go_cursor.specs.Reads.{Reads};
ghost use Rattle.go_descent.specs.Rules as rules;

use crate::operands::OperandExprs;
use go_cursor::cursor::Cursor;
use go_cursor::error::ParseError;
use go_descent::grammar::{Part, PartTree};
use go_syntax::expression::{Element, ElementValue};
use go_syntax::go_base::list::List;
use go_syntax::held::expression::{HeldElementValue, HeldElements};
use go_syntax::token::TokenKind;
use std::alloc::Global;

impl<'a, F: Fn(Global, &mut Cursor<'_>, usize, Part) -> Result<PartTree, ParseError>> OperandExprs<
    'a,
    F,
> {
    /// A key or a value: an expression, or elements in braces.
    #[tactic(auto, unfolding(go_descent::specs::Rules::element_value))]
    fn element_value(&self, tokens: &mut Cursor<'_>) -> Result<ElementValue, ParseError>
        requires { ReadsBelow self.now.grammar.now.height (F.pre self.now.grammar.now.below) (F.post self.now.grammar.now.below) }
        ensures { Reads (rules.element_value (levels self.now.grammar.now.height) (terminals tokens.old)) result tokens.new }
    {
        if tokens.begins(TokenKind::LeftBrace) {
            Ok(ElementValue::Literal(self.grammar.literal_value_below(tokens)?))
        } else {
            Ok(ElementValue::Value(self.grammar.expr_below(tokens)?))
        }
    }

    /// A value, with or without a key.
    #[tactic(auto, unfolding(go_descent::specs::Rules::element_of))]
    fn element(&self, tokens: &mut Cursor<'_>) -> Result<Element, ParseError>
        requires { ReadsBelow self.now.grammar.now.height (F.pre self.now.grammar.now.below) (F.post self.now.grammar.now.below) }
        ensures { Reads (rules.element_of (levels self.now.grammar.now.height) (terminals tokens.old)) result tokens.new }
    {
        let first = HeldElementValue::new(self.element_value(tokens)?);
        if !tokens.begins(TokenKind::Colon) {
            return Ok(Element {
                key: None,
                value: first.take(),
            });
        }
        tokens.advance();
        let value = self.element_value(tokens)?;
        Ok(Element {
            key: Some(first.take()),
            value,
        })
    }

    /// More elements, each after a comma.
    fn more_elements(
        &self,
        tokens: &mut Cursor<'_>,
        first: HeldElements,
    ) -> Result<HeldElements, ParseError>
        requires { ReadsBelow self.now.grammar.now.height (F.pre self.now.grammar.now.below) (F.post self.now.grammar.now.below) }
        ensures { Reads (run (step_of (rules.element_item (levels self.now.grammar.now.height))) first (terminals tokens.old)) result tokens.new }
    {
        let mut elements = first;
        for _turn in 0..tokens.len() {
            if !tokens.goes_on() {
                return Ok(elements);
            }
            tokens.advance();
            elements.push(self.element(tokens)?)?;
        }
        Ok(elements)
    }

    /// Elements with commas between them.
    #[tactic(auto, unfolding(go_descent::specs::Rules::elements))]
    fn elements(&self, tokens: &mut Cursor<'_>) -> Result<HeldElements, ParseError>
        requires { ReadsBelow self.now.grammar.now.height (F.pre self.now.grammar.now.below) (F.post self.now.grammar.now.below) }
        ensures { Reads (rules.elements (levels self.now.grammar.now.height) (terminals tokens.old)) result tokens.new }
    {
        let mut first = HeldElements::new(self.grammar.alloc);
        first.push(self.element(tokens)?)?;
        self.more_elements(tokens, first)
    }

    /// The elements of a composite literal, in their braces.
    #[tactic(auto, unfolding(go_descent::specs::Rules::literal_value_of, go_cursor::specs::Reading::close, go_cursor::specs::Reading::expect))]
    pub fn literal_value(&self, tokens: &mut Cursor<'_>) -> Result<HeldElements, ParseError>
        requires { ReadsBelow self.now.grammar.now.height (F.pre self.now.grammar.now.below) (F.post self.now.grammar.now.below) }
        ensures { Reads (rules.literal_value_of (levels self.now.grammar.now.height) (terminals tokens.old)) result tokens.new }
    {
        if !self.grammar.is_deep() {
            return Err(ParseError::Syntax);
        }
        tokens.expect(TokenKind::LeftBrace)?;
        if tokens.begins(TokenKind::RightBrace) {
            tokens.advance();
            return Ok(HeldElements::new(self.grammar.alloc));
        }
        let elements = self.elements(tokens)?;
        tokens.past(TokenKind::Comma);
        tokens.expect(TokenKind::RightBrace)?;
        Ok(elements)
    }
}
