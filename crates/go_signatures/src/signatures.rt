//! Parameters and results.
ghost use Rattle.std.specs.Prelude.{◌≡◌, ◌∷◌, [], List};
ghost use Rattle.go_syntax.specs.declared.types.ParameterDecl.{ParameterDecl};
ghost use Rattle.go_syntax.specs.grammar.Grammar as grammar;
ghost use Rattle.go_syntax.specs.grammar.Terminals.{terminals};
ghost use Rattle.go_descent.specs.Levels.{levels};
ghost use Rattle.go_descent.specs.Parts.{ReadsBelow};
ghost use Rattle.go_cursor.specs.Reading.{run, step_of};
ghost use Rattle.go_cursor.specs.Reads.{Reads};
ghost use Rattle.go_descent.specs.Rules as rules;

use go_cursor::cursor::Cursor;
use go_cursor::error::ParseError;
use go_cursor::looks::is_named;
use go_cursor::names::names;
use go_descent::grammar::{Grammar, Part, PartTree};
use go_syntax::go_base::list::List;
use go_syntax::held::types::{HeldParameters, HeldSignature};
use go_syntax::name::Name;
use go_syntax::token::TokenKind;
use go_syntax::types::{FuncResult, ParameterDecl, Signature};
use std::alloc::Global;

/// Whether no `...` stands in the list, as in a result.
fn none_variadic(parameters: &[ParameterDecl]) -> bool
    ensures { result ≡ grammar.none_variadic parameters.now }
{
    for parameter in parameters {
        if parameter.variadic {
            return false;
        }
    }
    true
}

/// Whether `...` stands at the last parameter alone, if at any, and then with at most one name
/// before it.
fn last_variadic(parameters: &[ParameterDecl]) -> bool
    ensures { result ≡ grammar.last_variadic parameters.now }
{
    match parameters.split_last() {
        None => true,
        Some((last, others)) => {
            none_variadic(others) && (!last.variadic || last.names.items().len() <= 1)
        }
    }
}

/// The readers of parameters and results whose parts have a height below that of the grammar.
#[derive(Clone, Copy)]
pub struct Signatures<'a, F> {
    pub grammar: &'a Grammar<F>,
}

impl<'a, F: Fn(Global, &mut Cursor<'_>, usize, Part) -> Result<PartTree, ParseError>> Signatures<
    'a,
    F,
> {
    /// The type of these parameters.
    #[tactic(auto, unfolding(go_descent::specs::Rules::parameter_of))]
    fn parameter_of(
        &self,
        tokens: &mut Cursor<'_>,
        names: List<Name>,
    ) -> Result<ParameterDecl, ParseError>
        requires { ReadsBelow self.now.grammar.now.height (F.pre self.now.grammar.now.below) (F.post self.now.grammar.now.below) }
        ensures { Reads (rules.parameter_of (levels self.now.grammar.now.height).typ names (terminals tokens.old)) result tokens.new }
    {
        let variadic = tokens.begins(TokenKind::Ellipsis);
        if variadic {
            tokens.advance();
        }
        let type_ = self.grammar.type_below(tokens)?;
        Ok(ParameterDecl {
            names,
            variadic,
            type_,
        })
    }

    /// A parameter without a name.
    fn unnamed_parameter(&self, tokens: &mut Cursor<'_>) -> Result<ParameterDecl, ParseError>
        requires { ReadsBelow self.now.grammar.now.height (F.pre self.now.grammar.now.below) (F.post self.now.grammar.now.below) }
        ensures { Reads (rules.parameter_of (levels self.now.grammar.now.height).typ [] (terminals tokens.old)) result tokens.new }
    {
        self.parameter_of(tokens, List::new(self.grammar.alloc))
    }

    /// More parameters without names.
    fn more_unnamed(
        &self,
        tokens: &mut Cursor<'_>,
        first: HeldParameters,
    ) -> Result<HeldParameters, ParseError>
        requires { ReadsBelow self.now.grammar.now.height (F.pre self.now.grammar.now.below) (F.post self.now.grammar.now.below) }
        ensures { Reads (run (step_of (rules.unnamed_item (levels self.now.grammar.now.height).typ)) first (terminals tokens.old)) result tokens.new }
    {
        let mut parameters = first;
        for _turn in 0..tokens.len() {
            if !tokens.goes_on() {
                return Ok(parameters);
            }
            tokens.advance();
            parameters.push(self.unnamed_parameter(tokens)?)?;
        }
        Ok(parameters)
    }

    /// Parameters without names.
    #[tactic(auto, unfolding(go_descent::specs::Rules::unnamed))]
    fn unnamed(&self, tokens: &mut Cursor<'_>) -> Result<HeldParameters, ParseError>
        requires { ReadsBelow self.now.grammar.now.height (F.pre self.now.grammar.now.below) (F.post self.now.grammar.now.below) }
        ensures { Reads (rules.unnamed (levels self.now.grammar.now.height).typ (terminals tokens.old)) result tokens.new }
    {
        let mut first = HeldParameters::new(self.grammar.alloc);
        first.push(self.unnamed_parameter(tokens)?)?;
        self.more_unnamed(tokens, first)
    }

    /// Names and their type.
    #[tactic(auto, unfolding(go_descent::specs::Rules::named_parameter))]
    fn named_parameter(&self, tokens: &mut Cursor<'_>) -> Result<ParameterDecl, ParseError>
        requires { ReadsBelow self.now.grammar.now.height (F.pre self.now.grammar.now.below) (F.post self.now.grammar.now.below) }
        ensures { Reads (rules.named_parameter (levels self.now.grammar.now.height).typ (terminals tokens.old)) result tokens.new }
    {
        let found = names(self.grammar.alloc, tokens)?;
        self.parameter_of(tokens, found)
    }

    /// More parameters with names.
    fn more_named(
        &self,
        tokens: &mut Cursor<'_>,
        first: HeldParameters,
    ) -> Result<HeldParameters, ParseError>
        requires { ReadsBelow self.now.grammar.now.height (F.pre self.now.grammar.now.below) (F.post self.now.grammar.now.below) }
        ensures { Reads (run (step_of (rules.named_item (levels self.now.grammar.now.height).typ)) first (terminals tokens.old)) result tokens.new }
    {
        let mut parameters = first;
        for _turn in 0..tokens.len() {
            if !tokens.goes_on() {
                return Ok(parameters);
            }
            tokens.advance();
            parameters.push(self.named_parameter(tokens)?)?;
        }
        Ok(parameters)
    }

    /// Parameters with names.
    #[tactic(auto, unfolding(go_descent::specs::Rules::named))]
    fn named(&self, tokens: &mut Cursor<'_>) -> Result<HeldParameters, ParseError>
        requires { ReadsBelow self.now.grammar.now.height (F.pre self.now.grammar.now.below) (F.post self.now.grammar.now.below) }
        ensures { Reads (rules.named (levels self.now.grammar.now.height).typ (terminals tokens.old)) result tokens.new }
    {
        let mut first = HeldParameters::new(self.grammar.alloc);
        first.push(self.named_parameter(tokens)?)?;
        self.more_named(tokens, first)
    }

    /// One parameter and more, and the closing bracket.
    #[tactic(auto, unfolding(go_descent::specs::Rules::some_parameters, go_cursor::specs::Reading::close, go_cursor::specs::Reading::expect))]
    fn some_parameters(&self, tokens: &mut Cursor<'_>) -> Result<HeldParameters, ParseError>
        requires { ReadsBelow self.now.grammar.now.height (F.pre self.now.grammar.now.below) (F.post self.now.grammar.now.below) }
        ensures { Reads (rules.some_parameters (levels self.now.grammar.now.height).typ (terminals tokens.old)) result tokens.new }
    {
        let parameters = if is_named(tokens) {
            self.named(tokens)?
        } else {
            self.unnamed(tokens)?
        };
        tokens.past(TokenKind::Comma);
        tokens.expect(TokenKind::RightParen)?;
        Ok(parameters)
    }

    /// Parameters in their brackets.
    #[tactic(auto, unfolding(go_descent::specs::Rules::parameters, go_cursor::specs::Reading::expect))]
    pub fn parameters(&self, tokens: &mut Cursor<'_>) -> Result<HeldParameters, ParseError>
        requires { ReadsBelow self.now.grammar.now.height (F.pre self.now.grammar.now.below) (F.post self.now.grammar.now.below) }
        ensures { Reads (rules.parameters (levels self.now.grammar.now.height).typ (terminals tokens.old)) result tokens.new }
    {
        tokens.expect(TokenKind::LeftParen)?;
        if tokens.begins(TokenKind::RightParen) {
            tokens.advance();
            return Ok(HeldParameters::new(self.grammar.alloc));
        }
        self.some_parameters(tokens)
    }

    /// Results in brackets, after these parameters.
    #[tactic(auto, unfolding(go_descent::specs::Rules::result_parameters))]
    fn result_parameters(
        &self,
        tokens: &mut Cursor<'_>,
        parameters: HeldParameters,
    ) -> Result<Signature, ParseError>
        requires { ReadsBelow self.now.grammar.now.height (F.pre self.now.grammar.now.below) (F.post self.now.grammar.now.below) }
        ensures { Reads (rules.result_parameters (levels self.now.grammar.now.height).typ parameters (terminals tokens.old)) result tokens.new }
    {
        let results = self.parameters(tokens)?;
        if !none_variadic(results.items()) {
            return Err(ParseError::Syntax);
        }
        Ok(Signature {
            parameters: parameters.take(),
            result: Some(FuncResult::Parameters(results.take())),
        })
    }

    /// The result after these parameters, which may be missing.
    #[tactic(auto, unfolding(go_descent::specs::Rules::signature_end))]
    fn signature_end(
        &self,
        tokens: &mut Cursor<'_>,
        parameters: HeldParameters,
    ) -> Result<Signature, ParseError>
        requires { ReadsBelow self.now.grammar.now.height (F.pre self.now.grammar.now.below) (F.post self.now.grammar.now.below) }
        ensures { Reads (rules.signature_end (levels self.now.grammar.now.height).typ parameters (terminals tokens.old)) result tokens.new }
    {
        if tokens.begins(TokenKind::LeftParen) {
            return self.result_parameters(tokens, parameters);
        }
        if !tokens.begins_type() {
            return Ok(Signature {
                parameters: parameters.take(),
                result: None,
            });
        }
        let type_ = self.grammar.type_below(tokens)?;
        Ok(Signature {
            parameters: parameters.take(),
            result: Some(FuncResult::Type(type_)),
        })
    }

    /// Parameters and a result.
    #[tactic(auto, unfolding(go_descent::specs::Rules::signature_of))]
    pub fn signature(&self, tokens: &mut Cursor<'_>) -> Result<Signature, ParseError>
        requires { ReadsBelow self.now.grammar.now.height (F.pre self.now.grammar.now.below) (F.post self.now.grammar.now.below) }
        ensures { Reads (rules.signature_of (levels self.now.grammar.now.height) (terminals tokens.old)) result tokens.new }
    {
        if !self.grammar.is_deep() {
            return Err(ParseError::Syntax);
        }
        let parameters = self.parameters(tokens)?;
        if !last_variadic(parameters.items()) {
            return Err(ParseError::Syntax);
        }
        self.signature_end(tokens, parameters)
    }
}
