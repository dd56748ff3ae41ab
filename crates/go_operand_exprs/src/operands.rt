//! Operands.
ghost use Rattle.std.specs.Prelude.{◌≡◌, if◌then◌else◌, Some, None, drop};
ghost use Rattle.go_syntax.specs.declared.expression.Expr.TheVariants as expr;
ghost use Rattle.go_syntax.specs.declared.token.TokenKind.TheVariants as kind;
ghost use Rattle.go_syntax.specs.grammar.Symbols.{begins};
ghost use Rattle.go_syntax.specs.grammar.Terminals.{terminals};
ghost use Rattle.go_descent.specs.Levels.{levels};
ghost use Rattle.go_descent.specs.Parts.{ReadsBelow};
ghost use Rattle.go_cursor.specs.Reading as reading;
ghost use Rattle.go_cursor.specs.Reading.{bind, close};
ghost use Rattle.go_cursor.specs.Reads.{Reads};
ghost use Rattle.go_descent.specs.Rules as rules;
ghost use Rattle.go_cursor.specs.Names as name_rules;

use go_cursor::cursor::Cursor;
use go_cursor::error::ParseError;
use go_cursor::looks::names_composite;
use go_cursor::names::type_name;
use go_cursor::skipping::is_composite;
use go_descent::grammar::{Grammar, Part, PartTree};
use go_syntax::expression::Expr;
use go_syntax::held::expression::{HeldExpr, boxed_expr, composite, composite_array, type_expr};
use go_syntax::held::types::{HeldSignature, HeldType, boxed_signature, boxed_type};
use go_syntax::token::TokenKind;
use go_syntax::types::Type;
use go_type_exprs::types::TypeExprs;
use std::alloc::Global;

/// The readers of operands and composite literals whose parts have a height below that of the grammar.
#[derive(Clone, Copy)]
pub struct OperandExprs<'a, F> {
    pub grammar: &'a Grammar<F>,
}

impl<'a, F: Fn(Global, &mut Cursor<'_>, usize, Part) -> Result<PartTree, ParseError>> OperandExprs<
    'a,
    F,
> {
    /// The readers of types of the same height.
    fn types(&self) -> TypeExprs<'a, F>
        ensures { result.grammar ≡ self.now.grammar }
    {
        TypeExprs {
            grammar: self.grammar,
        }
    }

    /// A name that is an operand.
    fn plain_name(&self, tokens: &mut Cursor<'_>) -> Result<Expr, ParseError>
        ensures { Reads (bind (reading.name (terminals tokens.old)) (λ n u. Some (expr.Name n, u))) result tokens.new }
    {
        Ok(Expr::Name(tokens.name(self.grammar.alloc)?))
    }

    /// A composite literal that begins with a type's name.
    #[inline(never)]
    #[tactic(auto, unfolding(go_descent::specs::Rules::named_composite))]
    fn named_composite(&self, tokens: &mut Cursor<'_>) -> Result<Expr, ParseError>
        requires { ReadsBelow self.now.grammar.now.height (F.pre self.now.grammar.now.below) (F.post self.now.grammar.now.below) }
        ensures { Reads (bind (name_rules.type_name (terminals tokens.old)) (rules.named_composite (levels self.now.grammar.now.height))) result tokens.new }
    {
        let name = type_name(self.grammar.alloc, tokens)?;
        let elements = self.grammar.literal_value_below(tokens)?;
        Ok(composite(self.grammar.alloc, Type::Named(name), elements)?)
    }

    /// A name, or a composite literal that begins with one where that may stand here.
    #[tactic(auto, unfolding(go_descent::specs::Rules::name_operand))]
    fn name_operand(&self, composite: bool, tokens: &mut Cursor<'_>) -> Result<Expr, ParseError>
        requires { ReadsBelow self.now.grammar.now.height (F.pre self.now.grammar.now.below) (F.post self.now.grammar.now.below) }
        ensures { Reads (rules.name_operand composite (levels self.now.grammar.now.height) (terminals tokens.old)) result tokens.new }
    {
        if composite && names_composite(tokens) {
            return self.named_composite(tokens);
        }
        self.plain_name(tokens)
    }

    /// A function literal or a function type, from behind `func` on.
    #[inline(never)]
    #[tactic(auto, unfolding(go_descent::specs::Rules::func_operand))]
    fn func_operand(&self, tokens: &mut Cursor<'_>) -> Result<Expr, ParseError>
        requires { ReadsBelow self.now.grammar.now.height (F.pre self.now.grammar.now.below) (F.post self.now.grammar.now.below) }
        ensures { Reads (rules.func_operand (levels self.now.grammar.now.height) (terminals tokens.old)) result tokens.new }
    {
        let signature = HeldSignature::new(self.grammar.signature_below(tokens)?);
        if !tokens.begins(TokenKind::LeftBrace) {
            let signature = boxed_signature(self.grammar.alloc, signature.take())?;
            return Ok(type_expr(self.grammar.alloc, Type::Func(signature))?);
        }
        let body = self.grammar.body_below(tokens)?;
        let signature = boxed_signature(self.grammar.alloc, signature.take())?;
        Ok(Expr::FuncLit(signature, body))
    }

    /// A composite literal that begins with a slice, an array, a map or a struct.
    fn literal_operand(&self, tokens: &mut Cursor<'_>) -> Result<Expr, ParseError>
        requires { ReadsBelow self.now.grammar.now.height (F.pre self.now.grammar.now.below) (F.post self.now.grammar.now.below) }
        ensures { Reads (bind ((levels self.now.grammar.now.height).composite_type (terminals tokens.old)) (λ t u. bind ((levels self.now.grammar.now.height).literal_value u) (λ es v. Some (expr.Composite t es, v)))) result tokens.new }
    {
        let type_ = HeldType::new(self.grammar.composite_type_below(tokens)?);
        let elements = self.grammar.literal_value_below(tokens)?;
        Ok(composite(self.grammar.alloc, type_.take(), elements)?)
    }

    /// A slice, an array, a map or a struct that no literal begins with.
    #[inline(never)]
    fn type_operand(&self, tokens: &mut Cursor<'_>) -> Result<Expr, ParseError>
        requires { ReadsBelow self.now.grammar.now.height (F.pre self.now.grammar.now.below) (F.post self.now.grammar.now.below) }
        ensures { Reads (bind (rules.composite_type (levels self.now.grammar.now.height) (terminals tokens.old)) (λ t u. if begins kind.LeftBrace u then None else Some (expr.Type t, u))) result tokens.new }
    {
        let type_ = HeldType::new(self.types().composite_type(tokens)?);
        if tokens.begins(TokenKind::LeftBrace) {
            return Err(ParseError::Syntax);
        }
        Ok(type_expr(self.grammar.alloc, type_.take())?)
    }

    /// An operand that begins with a slice, an array, a map or a struct.
    #[inline(never)]
    #[tactic(auto, unfolding(go_descent::specs::Rules::composite_operand))]
    fn composite_operand(&self, tokens: &mut Cursor<'_>) -> Result<Expr, ParseError>
        requires { ReadsBelow self.now.grammar.now.height (F.pre self.now.grammar.now.below) (F.post self.now.grammar.now.below) }
        ensures { Reads (rules.composite_operand (levels self.now.grammar.now.height) (terminals tokens.old)) result tokens.new }
    {
        if is_composite(self.grammar.alloc, tokens)? {
            self.literal_operand(tokens)
        } else {
            self.type_operand(tokens)
        }
    }

    /// `[...]T{..}`, from `...` on.
    #[tactic(auto, unfolding(go_descent::specs::Rules::array_operand))]
    fn array_operand(&self, tokens: &mut Cursor<'_>) -> Result<Expr, ParseError>
        requires { ReadsBelow self.now.grammar.now.height (F.pre self.now.grammar.now.below) (F.post self.now.grammar.now.below) }
        ensures { Reads (rules.array_operand (levels self.now.grammar.now.height) (terminals tokens.old)) result tokens.new }
    {
        tokens.expect(TokenKind::Ellipsis)?;
        tokens.expect(TokenKind::RightBracket)?;
        let element = HeldType::new(self.grammar.type_below(tokens)?);
        let elements = self.grammar.literal_value_below(tokens)?;
        Ok(composite_array(self.grammar.alloc, element.take(), elements)?)
    }

    /// `(<-chan T)`, from behind `chan` on.
    #[inline(never)]
    #[tactic(auto, unfolding(go_cursor::specs::Reading::close, go_cursor::specs::Reading::expect))]
    fn paren_receive(&self, tokens: &mut Cursor<'_>) -> Result<Expr, ParseError>
        requires { ReadsBelow self.now.grammar.now.height (F.pre self.now.grammar.now.below) (F.post self.now.grammar.now.below) }
        ensures { Reads (bind ((levels self.now.grammar.now.height).typ (terminals tokens.old)) (λ t. close kind.RightParen (expr.ParenReceiveChan t))) result tokens.new }
    {
        let element = HeldType::new(self.grammar.type_below(tokens)?);
        tokens.expect(TokenKind::RightParen)?;
        Ok(Expr::ParenReceiveChan(boxed_type(self.grammar.alloc, element.take())?))
    }

    /// An expression in parentheses, from behind `(` on.
    #[tactic(auto, unfolding(go_cursor::specs::Reading::close, go_cursor::specs::Reading::expect))]
    fn paren_expr(&self, tokens: &mut Cursor<'_>) -> Result<Expr, ParseError>
        requires { ReadsBelow self.now.grammar.now.height (F.pre self.now.grammar.now.below) (F.post self.now.grammar.now.below) }
        ensures { Reads (bind ((levels self.now.grammar.now.height).expr (terminals tokens.old)) (λ x. close kind.RightParen (expr.Paren x))) result tokens.new }
    {
        let inner = HeldExpr::new(self.grammar.expr_below(tokens)?);
        tokens.expect(TokenKind::RightParen)?;
        Ok(Expr::Paren(boxed_expr(self.grammar.alloc, inner.take())?))
    }

    /// An operand in parentheses, from behind `(` on.
    #[tactic(auto, unfolding(go_descent::specs::Rules::paren_operand))]
    fn paren_operand(&self, tokens: &mut Cursor<'_>) -> Result<Expr, ParseError>
        requires { ReadsBelow self.now.grammar.now.height (F.pre self.now.grammar.now.below) (F.post self.now.grammar.now.below) }
        ensures { Reads (rules.paren_operand (levels self.now.grammar.now.height) (terminals tokens.old)) result tokens.new }
    {
        if tokens.begins_receive() {
            tokens.advance_twice();
            self.paren_receive(tokens)
        } else {
            self.paren_expr(tokens)
        }
    }

    /// A channel type, from behind `chan` on.
    #[inline(never)]
    #[tactic(auto, unfolding(go_descent::specs::Rules::other_operand))]
    fn chan_operand(&self, tokens: &mut Cursor<'_>) -> Result<Expr, ParseError>
        requires { ReadsBelow self.now.grammar.now.height (F.pre self.now.grammar.now.below) (F.post self.now.grammar.now.below) }
        ensures { Reads (rules.other_operand (rules.chan_type (levels self.now.grammar.now.height)) (terminals tokens.old)) result tokens.new }
    {
        Ok(type_expr(self.grammar.alloc, self.types().chan_type(tokens)?)?)
    }

    /// An interface type, from behind `interface` on.
    #[inline(never)]
    #[tactic(auto, unfolding(go_descent::specs::Rules::other_operand))]
    fn interface_operand(&self, tokens: &mut Cursor<'_>) -> Result<Expr, ParseError>
        requires { ReadsBelow self.now.grammar.now.height (F.pre self.now.grammar.now.below) (F.post self.now.grammar.now.below) }
        ensures { Reads (rules.other_operand (rules.interface_type (levels self.now.grammar.now.height)) (terminals tokens.old)) result tokens.new }
    {
        Ok(type_expr(self.grammar.alloc, self.types().interface_type(tokens)?)?)
    }

    /// An operand that begins with `[`.
    #[inline(never)]
    fn bracket_operand(&self, tokens: &mut Cursor<'_>) -> Result<Expr, ParseError>
        requires { ReadsBelow self.now.grammar.now.height (F.pre self.now.grammar.now.below) (F.post self.now.grammar.now.below) }
        ensures { Reads (if begins kind.Ellipsis (drop 1 (terminals tokens.old)) then rules.array_operand (levels self.now.grammar.now.height) (drop 1 (terminals tokens.old)) else rules.composite_operand (levels self.now.grammar.now.height) (terminals tokens.old)) result tokens.new }
    {
        let mut ahead = tokens.fork();
        ahead.advance();
        if ahead.begins(TokenKind::Ellipsis) {
            tokens.advance();
            self.array_operand(tokens)
        } else {
            self.composite_operand(tokens)
        }
    }

    /// An operand that begins with a keyword or an operator.
    #[tactic(auto, unfolding(go_descent::specs::Rules::sign_operand))]
    fn sign_operand(&self, tokens: &mut Cursor<'_>) -> Result<Expr, ParseError>
        requires { ReadsBelow self.now.grammar.now.height (F.pre self.now.grammar.now.below) (F.post self.now.grammar.now.below) }
        ensures { Reads (rules.sign_operand (levels self.now.grammar.now.height) (terminals tokens.old)) result tokens.new }
    {
        if tokens.begins(TokenKind::LeftParen) {
            tokens.advance();
            return self.paren_operand(tokens);
        }
        if tokens.begins(TokenKind::FuncWord) {
            tokens.advance();
            return self.func_operand(tokens);
        }
        if tokens.begins(TokenKind::ChanWord) {
            tokens.advance();
            return self.chan_operand(tokens);
        }
        if tokens.begins(TokenKind::InterfaceWord) {
            tokens.advance();
            return self.interface_operand(tokens);
        }
        if tokens.begins(TokenKind::LeftBracket) {
            return self.bracket_operand(tokens);
        }
        self.composite_operand(tokens)
    }

    /// An operand.
    #[tactic(auto, unfolding(go_descent::specs::Rules::operand))]
    pub fn operand(&self, composite: bool, tokens: &mut Cursor<'_>) -> Result<Expr, ParseError>
        requires { ReadsBelow self.now.grammar.now.height (F.pre self.now.grammar.now.below) (F.post self.now.grammar.now.below) }
        ensures { Reads (rules.operand composite (levels self.now.grammar.now.height) (terminals tokens.old)) result tokens.new }
    {
        if let Some(literal) = tokens.literal(self.grammar.alloc)? {
            tokens.advance();
            return Ok(Expr::Literal(literal));
        }
        if tokens.begins_name() {
            self.name_operand(composite, tokens)
        } else {
            self.sign_operand(tokens)
        }
    }
}
