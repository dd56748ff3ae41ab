//! Operators: a prefix operator, and chains of operands by precedence.
ghost use Rattle.std.specs.Prelude.{◌≡◌, [], IfOk, Some, false};
ghost use Rattle.go_syntax.specs.declared.expression.Expr.TheVariants as expr;
ghost use Rattle.go_syntax.specs.declared.token.TokenKind.TheVariants as kind;
ghost use Rattle.go_syntax.specs.grammar.Grammar as grammar;
ghost use Rattle.go_syntax.specs.grammar.Terminals.{terminals};
ghost use Rattle.go_descent.specs.Levels.{levels};
ghost use Rattle.go_descent.specs.Parts.{ReadsBelow};
ghost use Rattle.go_cursor.specs.Reading.{bind, run, step_of};
ghost use Rattle.go_cursor.specs.Reads.{Reads};
ghost use Rattle.go_descent.specs.Rules as rules;
ghost use Rattle.go_operator_exprs.specs.Chains.{EndsOperands, and_after, and_behind, compare_after, compare_behind, or_after, or_behind, product_after, sum_after, sum_behind};
ghost use Rattle.go_operator_exprs.specs.Primary.{ReadsPrimary};

use go_cursor::cursor::Cursor;
use go_cursor::error::ParseError;
use go_descent::grammar::{Grammar, Part, PartTree};
use go_syntax::expression::Expr;
use go_syntax::go_base::list::List;
use go_syntax::go_base::memory::NoMemory;
use go_syntax::go_base::operator::{CompareOp, PrefixOperator, ProductOperator, SumOperator};
use go_syntax::held::expression::{HeldExpr, HeldExprs, boxed_expr};
use go_syntax::token::TokenKind;
use std::alloc::Global;

/// The prefix operator that is next.
fn prefix_operator(sign: Option<TokenKind>) -> Option<PrefixOperator>
    ensures { result ≡ rules.operator_at grammar.prefix_operator sign }
{
    match sign {
        None => None,
        Some(sign) => prefix_operator_of(sign),
    }
}

/// The prefix operator that this token is.
fn prefix_operator_of(sign: TokenKind) -> Option<PrefixOperator>
    ensures { result ≡ grammar.prefix_operator sign }
{
    match sign {
        TokenKind::Add => Some(PrefixOperator::Plus),
        TokenKind::Subtract => Some(PrefixOperator::Minus),
        TokenKind::Not => Some(PrefixOperator::Not),
        TokenKind::Xor => Some(PrefixOperator::Xor),
        TokenKind::Multiply => Some(PrefixOperator::Dereference),
        TokenKind::And => Some(PrefixOperator::Address),
        TokenKind::Arrow => Some(PrefixOperator::Receive),
        _ => None,
    }
}

/// The operator between factors that is next.
fn product_operator(sign: Option<TokenKind>) -> Option<ProductOperator>
    ensures { result ≡ rules.operator_at grammar.product_operator sign }
{
    match sign {
        None => None,
        Some(sign) => product_operator_of(sign),
    }
}

/// The operator between factors that this token is.
fn product_operator_of(sign: TokenKind) -> Option<ProductOperator>
    ensures { result ≡ grammar.product_operator sign }
{
    match sign {
        TokenKind::Multiply => Some(ProductOperator::Multiply),
        TokenKind::Divide => Some(ProductOperator::Divide),
        TokenKind::Remainder => Some(ProductOperator::Remainder),
        TokenKind::ShiftLeft => Some(ProductOperator::ShiftLeft),
        TokenKind::ShiftRight => Some(ProductOperator::ShiftRight),
        TokenKind::And => Some(ProductOperator::And),
        TokenKind::AndNot => Some(ProductOperator::AndNot),
        _ => None,
    }
}

/// The operator between terms that is next.
fn sum_operator(sign: Option<TokenKind>) -> Option<SumOperator>
    ensures { result ≡ rules.operator_at grammar.sum_operator sign }
{
    match sign {
        None => None,
        Some(sign) => sum_operator_of(sign),
    }
}

/// The operator between terms that this token is.
fn sum_operator_of(sign: TokenKind) -> Option<SumOperator>
    ensures { result ≡ grammar.sum_operator sign }
{
    match sign {
        TokenKind::Add => Some(SumOperator::Add),
        TokenKind::Subtract => Some(SumOperator::Subtract),
        TokenKind::Or => Some(SumOperator::Or),
        TokenKind::Xor => Some(SumOperator::Xor),
        _ => None,
    }
}

/// The comparison that is next.
fn comparison(sign: Option<TokenKind>) -> Option<CompareOp>
    ensures { result ≡ rules.operator_at grammar.comparison sign }
{
    match sign {
        None => None,
        Some(sign) => comparison_of(sign),
    }
}

/// The comparison that this token is.
fn comparison_of(sign: TokenKind) -> Option<CompareOp>
    ensures { result ≡ grammar.comparison sign }
{
    match sign {
        TokenKind::Equal => Some(CompareOp::Equal),
        TokenKind::NotEqual => Some(CompareOp::NotEqual),
        TokenKind::Less => Some(CompareOp::Less),
        TokenKind::LessEqual => Some(CompareOp::LessEqual),
        TokenKind::Greater => Some(CompareOp::Greater),
        TokenKind::GreaterEqual => Some(CompareOp::GreaterEqual),
        _ => None,
    }
}

/// Whether an operator is next that can stand behind an operand.
fn operator_follows(sign: Option<TokenKind>) -> bool
    ensures { result ≡ false → EndsOperands sign }
{
    match sign {
        None => false,
        Some(sign) => is_operator(sign),
    }
}

fn is_operator(sign: TokenKind) -> bool
    ensures { result ≡ false → EndsOperands (Some sign) }
{
    match sign {
        TokenKind::Add => true,
        TokenKind::Subtract => true,
        TokenKind::Multiply => true,
        TokenKind::Divide => true,
        TokenKind::Remainder => true,
        TokenKind::And => true,
        TokenKind::Or => true,
        TokenKind::Xor => true,
        TokenKind::ShiftLeft => true,
        TokenKind::ShiftRight => true,
        TokenKind::AndNot => true,
        TokenKind::LogicalAnd => true,
        TokenKind::LogicalOr => true,
        TokenKind::Equal => true,
        TokenKind::NotEqual => true,
        TokenKind::Less => true,
        TokenKind::LessEqual => true,
        TokenKind::Greater => true,
        TokenKind::GreaterEqual => true,
        _ => false,
    }
}

/// The factors of a product, or the one that there is.
fn product_of(
    alloc: Global,
    first: Expr,
    operators: List<ProductOperator>,
    others: HeldExprs,
) -> Result<Expr, NoMemory>
    ensures { IfOk result (λ x. x ≡ grammar.product_of first operators others) }
{
    if others.len() == 0 {
        return Ok(first);
    }
    Ok(Expr::Product(boxed_expr(alloc, first)?, operators, others.take()))
}

/// The terms of a sum, or the one that there is.
fn sum_of(
    alloc: Global,
    first: Expr,
    operators: List<SumOperator>,
    others: HeldExprs,
) -> Result<Expr, NoMemory>
    ensures { IfOk result (λ x. x ≡ grammar.sum_of first operators others) }
{
    if others.len() == 0 {
        return Ok(first);
    }
    Ok(Expr::Sum(boxed_expr(alloc, first)?, operators, others.take()))
}

/// The operands of comparisons, or the one that there is.
fn compare_of(
    alloc: Global,
    first: Expr,
    operators: List<CompareOp>,
    others: HeldExprs,
) -> Result<Expr, NoMemory>
    ensures { IfOk result (λ x. x ≡ grammar.compare_of first operators others) }
{
    if others.len() == 0 {
        return Ok(first);
    }
    Ok(Expr::Compare(boxed_expr(alloc, first)?, operators, others.take()))
}

/// The operands of `&&`, or the one that there is.
fn and_of(alloc: Global, first: Expr, others: HeldExprs) -> Result<Expr, NoMemory>
    ensures { IfOk result (λ x. x ≡ grammar.and_of first others) }
{
    if others.len() == 0 {
        return Ok(first);
    }
    Ok(Expr::And(boxed_expr(alloc, first)?, others.take()))
}

/// The operands of `||`, or the one that there is.
fn or_of(alloc: Global, first: Expr, others: HeldExprs) -> Result<Expr, NoMemory>
    ensures { IfOk result (λ x. x ≡ grammar.or_of first others) }
{
    if others.len() == 0 {
        return Ok(first);
    }
    Ok(Expr::Or(boxed_expr(alloc, first)?, others.take()))
}

/// The readers of operators and their operands, over what reads a primary expression and the parts of lower heights.
#[derive(Drop)]
pub struct OperatorExprs<'a, F, P> {
    pub grammar: &'a Grammar<F>,
    pub primary: P,
}

impl<
    'a,
    F: Fn(Global, &mut Cursor<'_>, usize, Part) -> Result<PartTree, ParseError>,
    P: Fn(bool, &mut Cursor<'_>) -> Result<Expr, ParseError>,
> OperatorExprs<'a, F, P> {
    /// A prefix operator and its operand, from behind the operator on.
    fn prefixed(
        &self,
        operator: PrefixOperator,
        composite: bool,
        tokens: &mut Cursor<'_>,
    ) -> Result<Expr, ParseError>
        requires parts { ReadsBelow self.now.grammar.now.height (F.pre self.now.grammar.now.below) (F.post self.now.grammar.now.below) }
        requires primary { ReadsPrimary self.now.grammar.now.height (P.pre self.now.primary) (P.post self.now.primary) }
        ensures { Reads (bind ((levels self.now.grammar.now.height).unary composite (terminals tokens.old)) (λ x u. Some (expr.Prefix operator x, u))) result tokens.new }
    {
        let operand = self.grammar.unary_below(composite, tokens)?;
        Ok(Expr::Prefix(operator, boxed_expr(self.grammar.alloc, operand)?))
    }

    /// An operand with or without a prefix operator.
    #[tactic(auto, unfolding(go_descent::specs::Rules::unary_expr))]
    pub fn unary_expr(&self, composite: bool, tokens: &mut Cursor<'_>) -> Result<Expr, ParseError>
        requires parts { ReadsBelow self.now.grammar.now.height (F.pre self.now.grammar.now.below) (F.post self.now.grammar.now.below) }
        requires primary { ReadsPrimary self.now.grammar.now.height (P.pre self.now.primary) (P.post self.now.primary) }
        ensures { Reads (rules.unary_expr composite (levels self.now.grammar.now.height) (terminals tokens.old)) result tokens.new }
    {
        if tokens.begins_receive() {
            return Err(ParseError::Syntax);
        }
        match prefix_operator(tokens.sign()) {
            None => (self.primary)(composite, tokens),
            Some(operator) => {
                tokens.advance();
                self.prefixed(operator, composite, tokens)
            }
        }
    }

    /// The operators and factors that follow.
    fn products(
        &self,
        composite: bool,
        tokens: &mut Cursor<'_>,
    ) -> Result<(List<ProductOperator>, HeldExprs), ParseError>
        requires parts { ReadsBelow self.now.grammar.now.height (F.pre self.now.grammar.now.below) (F.post self.now.grammar.now.below) }
        requires primary { ReadsPrimary self.now.grammar.now.height (P.pre self.now.primary) (P.post self.now.primary) }
        ensures { Reads (run (rules.step_both (rules.operation grammar.product_operator (rules.unary_expr composite (levels self.now.grammar.now.height)))) ([], []) (terminals tokens.old)) result tokens.new }
    {
        let mut operators = List::new(self.grammar.alloc);
        let mut operands = HeldExprs::new(self.grammar.alloc);
        for _turn in 0..tokens.len() {
            match product_operator(tokens.sign()) {
                None => return Ok((operators, operands)),
                Some(operator) => {
                    operators.push(operator)?;
                    tokens.advance();
                    operands.push(self.unary_expr(composite, tokens)?)?;
                }
            }
        }
        Ok((operators, operands))
    }

    /// Factors, whose first operand is read.
    #[inline(never)]
    #[tactic(auto, unfolding(crate::specs::Chains::product_after))]
    fn product_chain(
        &self,
        composite: bool,
        first: Expr,
        tokens: &mut Cursor<'_>,
    ) -> Result<Expr, ParseError>
        requires parts { ReadsBelow self.now.grammar.now.height (F.pre self.now.grammar.now.below) (F.post self.now.grammar.now.below) }
        requires primary { ReadsPrimary self.now.grammar.now.height (P.pre self.now.primary) (P.post self.now.primary) }
        ensures { Reads (product_after composite (levels self.now.grammar.now.height) first (terminals tokens.old)) result tokens.new }
    {
        let first = HeldExpr::new(first);
        let (operators, others) = self.products(composite, tokens)?;
        Ok(product_of(self.grammar.alloc, first.take(), operators, others)?)
    }

    /// Factors.
    fn product_expr(&self, composite: bool, tokens: &mut Cursor<'_>) -> Result<Expr, ParseError>
        requires parts { ReadsBelow self.now.grammar.now.height (F.pre self.now.grammar.now.below) (F.post self.now.grammar.now.below) }
        requires primary { ReadsPrimary self.now.grammar.now.height (P.pre self.now.primary) (P.post self.now.primary) }
        ensures { Reads (rules.product_expr composite (levels self.now.grammar.now.height) (terminals tokens.old)) result tokens.new }
    {
        let first = self.unary_expr(composite, tokens)?;
        self.product_chain(composite, first, tokens)
    }

    /// The operators and terms that follow.
    fn sums(
        &self,
        composite: bool,
        tokens: &mut Cursor<'_>,
    ) -> Result<(List<SumOperator>, HeldExprs), ParseError>
        requires parts { ReadsBelow self.now.grammar.now.height (F.pre self.now.grammar.now.below) (F.post self.now.grammar.now.below) }
        requires primary { ReadsPrimary self.now.grammar.now.height (P.pre self.now.primary) (P.post self.now.primary) }
        ensures { Reads (run (rules.step_both (rules.operation grammar.sum_operator (rules.product_expr composite (levels self.now.grammar.now.height)))) ([], []) (terminals tokens.old)) result tokens.new }
    {
        let mut operators = List::new(self.grammar.alloc);
        let mut operands = HeldExprs::new(self.grammar.alloc);
        for _turn in 0..tokens.len() {
            match sum_operator(tokens.sign()) {
                None => return Ok((operators, operands)),
                Some(operator) => {
                    operators.push(operator)?;
                    tokens.advance();
                    operands.push(self.product_expr(composite, tokens)?)?;
                }
            }
        }
        Ok((operators, operands))
    }

    /// A sum whose first term is read.
    #[inline(never)]
    #[tactic(auto, unfolding(crate::specs::Chains::sum_behind))]
    fn sum_rest(
        &self,
        composite: bool,
        first: Expr,
        tokens: &mut Cursor<'_>,
    ) -> Result<Expr, ParseError>
        requires parts { ReadsBelow self.now.grammar.now.height (F.pre self.now.grammar.now.below) (F.post self.now.grammar.now.below) }
        requires primary { ReadsPrimary self.now.grammar.now.height (P.pre self.now.primary) (P.post self.now.primary) }
        ensures { Reads (sum_behind composite (levels self.now.grammar.now.height) first (terminals tokens.old)) result tokens.new }
    {
        let first = HeldExpr::new(first);
        let (operators, others) = self.sums(composite, tokens)?;
        Ok(sum_of(self.grammar.alloc, first.take(), operators, others)?)
    }

    /// Terms, whose first operand is read.
    #[tactic(auto, unfolding(crate::specs::Chains::sum_after))]
    fn sum_chain(
        &self,
        composite: bool,
        first: Expr,
        tokens: &mut Cursor<'_>,
    ) -> Result<Expr, ParseError>
        requires parts { ReadsBelow self.now.grammar.now.height (F.pre self.now.grammar.now.below) (F.post self.now.grammar.now.below) }
        requires primary { ReadsPrimary self.now.grammar.now.height (P.pre self.now.primary) (P.post self.now.primary) }
        ensures { Reads (sum_after composite (levels self.now.grammar.now.height) first (terminals tokens.old)) result tokens.new }
    {
        let first = self.product_chain(composite, first, tokens)?;
        self.sum_rest(composite, first, tokens)
    }

    /// Terms.
    fn sum_expr(&self, composite: bool, tokens: &mut Cursor<'_>) -> Result<Expr, ParseError>
        requires parts { ReadsBelow self.now.grammar.now.height (F.pre self.now.grammar.now.below) (F.post self.now.grammar.now.below) }
        requires primary { ReadsPrimary self.now.grammar.now.height (P.pre self.now.primary) (P.post self.now.primary) }
        ensures { Reads (rules.sum_expr composite (levels self.now.grammar.now.height) (terminals tokens.old)) result tokens.new }
    {
        let first = self.unary_expr(composite, tokens)?;
        self.sum_chain(composite, first, tokens)
    }

    /// The comparisons and operands that follow.
    fn comparisons(
        &self,
        composite: bool,
        tokens: &mut Cursor<'_>,
    ) -> Result<(List<CompareOp>, HeldExprs), ParseError>
        requires parts { ReadsBelow self.now.grammar.now.height (F.pre self.now.grammar.now.below) (F.post self.now.grammar.now.below) }
        requires primary { ReadsPrimary self.now.grammar.now.height (P.pre self.now.primary) (P.post self.now.primary) }
        ensures { Reads (run (rules.step_both (rules.operation grammar.comparison (rules.sum_expr composite (levels self.now.grammar.now.height)))) ([], []) (terminals tokens.old)) result tokens.new }
    {
        let mut operators = List::new(self.grammar.alloc);
        let mut operands = HeldExprs::new(self.grammar.alloc);
        for _turn in 0..tokens.len() {
            match comparison(tokens.sign()) {
                None => return Ok((operators, operands)),
                Some(operator) => {
                    operators.push(operator)?;
                    tokens.advance();
                    operands.push(self.sum_expr(composite, tokens)?)?;
                }
            }
        }
        Ok((operators, operands))
    }

    /// Comparisons whose first operand is read.
    #[inline(never)]
    #[tactic(auto, unfolding(crate::specs::Chains::compare_behind))]
    fn compare_rest(
        &self,
        composite: bool,
        first: Expr,
        tokens: &mut Cursor<'_>,
    ) -> Result<Expr, ParseError>
        requires parts { ReadsBelow self.now.grammar.now.height (F.pre self.now.grammar.now.below) (F.post self.now.grammar.now.below) }
        requires primary { ReadsPrimary self.now.grammar.now.height (P.pre self.now.primary) (P.post self.now.primary) }
        ensures { Reads (compare_behind composite (levels self.now.grammar.now.height) first (terminals tokens.old)) result tokens.new }
    {
        let first = HeldExpr::new(first);
        let (operators, others) = self.comparisons(composite, tokens)?;
        Ok(compare_of(self.grammar.alloc, first.take(), operators, others)?)
    }

    /// Operands of comparisons, whose first operand is read.
    #[tactic(auto, unfolding(crate::specs::Chains::compare_after))]
    fn compare_chain(
        &self,
        composite: bool,
        first: Expr,
        tokens: &mut Cursor<'_>,
    ) -> Result<Expr, ParseError>
        requires parts { ReadsBelow self.now.grammar.now.height (F.pre self.now.grammar.now.below) (F.post self.now.grammar.now.below) }
        requires primary { ReadsPrimary self.now.grammar.now.height (P.pre self.now.primary) (P.post self.now.primary) }
        ensures { Reads (compare_after composite (levels self.now.grammar.now.height) first (terminals tokens.old)) result tokens.new }
    {
        let first = self.sum_chain(composite, first, tokens)?;
        self.compare_rest(composite, first, tokens)
    }

    /// Operands of comparisons.
    fn compare_expr(&self, composite: bool, tokens: &mut Cursor<'_>) -> Result<Expr, ParseError>
        requires parts { ReadsBelow self.now.grammar.now.height (F.pre self.now.grammar.now.below) (F.post self.now.grammar.now.below) }
        requires primary { ReadsPrimary self.now.grammar.now.height (P.pre self.now.primary) (P.post self.now.primary) }
        ensures { Reads (rules.compare_expr composite (levels self.now.grammar.now.height) (terminals tokens.old)) result tokens.new }
    {
        let first = self.unary_expr(composite, tokens)?;
        self.compare_chain(composite, first, tokens)
    }

    /// The operands that follow, each after `&&`.
    fn ands(&self, composite: bool, tokens: &mut Cursor<'_>) -> Result<HeldExprs, ParseError>
        requires parts { ReadsBelow self.now.grammar.now.height (F.pre self.now.grammar.now.below) (F.post self.now.grammar.now.below) }
        requires primary { ReadsPrimary self.now.grammar.now.height (P.pre self.now.primary) (P.post self.now.primary) }
        ensures { Reads (run (step_of (rules.after_sign kind.LogicalAnd (rules.compare_expr composite (levels self.now.grammar.now.height)))) [] (terminals tokens.old)) result tokens.new }
    {
        let mut operands = HeldExprs::new(self.grammar.alloc);
        for _turn in 0..tokens.len() {
            if !tokens.begins(TokenKind::LogicalAnd) {
                return Ok(operands);
            }
            tokens.advance();
            operands.push(self.compare_expr(composite, tokens)?)?;
        }
        Ok(operands)
    }

    /// A chain of `&&` whose first operand is read.
    #[inline(never)]
    #[tactic(auto, unfolding(crate::specs::Chains::and_behind))]
    fn and_rest(
        &self,
        composite: bool,
        first: Expr,
        tokens: &mut Cursor<'_>,
    ) -> Result<Expr, ParseError>
        requires parts { ReadsBelow self.now.grammar.now.height (F.pre self.now.grammar.now.below) (F.post self.now.grammar.now.below) }
        requires primary { ReadsPrimary self.now.grammar.now.height (P.pre self.now.primary) (P.post self.now.primary) }
        ensures { Reads (and_behind composite (levels self.now.grammar.now.height) first (terminals tokens.old)) result tokens.new }
    {
        let first = HeldExpr::new(first);
        let others = self.ands(composite, tokens)?;
        Ok(and_of(self.grammar.alloc, first.take(), others)?)
    }

    /// Operands of `&&`, whose first operand is read.
    #[tactic(auto, unfolding(crate::specs::Chains::and_after))]
    fn and_chain(
        &self,
        composite: bool,
        first: Expr,
        tokens: &mut Cursor<'_>,
    ) -> Result<Expr, ParseError>
        requires parts { ReadsBelow self.now.grammar.now.height (F.pre self.now.grammar.now.below) (F.post self.now.grammar.now.below) }
        requires primary { ReadsPrimary self.now.grammar.now.height (P.pre self.now.primary) (P.post self.now.primary) }
        ensures { Reads (and_after composite (levels self.now.grammar.now.height) first (terminals tokens.old)) result tokens.new }
    {
        let first = self.compare_chain(composite, first, tokens)?;
        self.and_rest(composite, first, tokens)
    }

    /// Operands of `&&`.
    fn and_expr(&self, composite: bool, tokens: &mut Cursor<'_>) -> Result<Expr, ParseError>
        requires parts { ReadsBelow self.now.grammar.now.height (F.pre self.now.grammar.now.below) (F.post self.now.grammar.now.below) }
        requires primary { ReadsPrimary self.now.grammar.now.height (P.pre self.now.primary) (P.post self.now.primary) }
        ensures { Reads (rules.and_expr composite (levels self.now.grammar.now.height) (terminals tokens.old)) result tokens.new }
    {
        let first = self.unary_expr(composite, tokens)?;
        self.and_chain(composite, first, tokens)
    }

    /// The operands that follow, each after `||`.
    fn ors(&self, composite: bool, tokens: &mut Cursor<'_>) -> Result<HeldExprs, ParseError>
        requires parts { ReadsBelow self.now.grammar.now.height (F.pre self.now.grammar.now.below) (F.post self.now.grammar.now.below) }
        requires primary { ReadsPrimary self.now.grammar.now.height (P.pre self.now.primary) (P.post self.now.primary) }
        ensures { Reads (run (step_of (rules.after_sign kind.LogicalOr (rules.and_expr composite (levels self.now.grammar.now.height)))) [] (terminals tokens.old)) result tokens.new }
    {
        let mut operands = HeldExprs::new(self.grammar.alloc);
        for _turn in 0..tokens.len() {
            if !tokens.begins(TokenKind::LogicalOr) {
                return Ok(operands);
            }
            tokens.advance();
            operands.push(self.and_expr(composite, tokens)?)?;
        }
        Ok(operands)
    }

    /// A chain of `||` whose first operand is read.
    #[inline(never)]
    #[tactic(auto, unfolding(crate::specs::Chains::or_behind))]
    fn or_rest(
        &self,
        composite: bool,
        first: Expr,
        tokens: &mut Cursor<'_>,
    ) -> Result<Expr, ParseError>
        requires parts { ReadsBelow self.now.grammar.now.height (F.pre self.now.grammar.now.below) (F.post self.now.grammar.now.below) }
        requires primary { ReadsPrimary self.now.grammar.now.height (P.pre self.now.primary) (P.post self.now.primary) }
        ensures { Reads (or_behind composite (levels self.now.grammar.now.height) first (terminals tokens.old)) result tokens.new }
    {
        let first = HeldExpr::new(first);
        let others = self.ors(composite, tokens)?;
        Ok(or_of(self.grammar.alloc, first.take(), others)?)
    }

    /// An expression, whose first operand is read.
    #[tactic(auto, unfolding(crate::specs::Chains::or_after))]
    fn or_chain(
        &self,
        composite: bool,
        first: Expr,
        tokens: &mut Cursor<'_>,
    ) -> Result<Expr, ParseError>
        requires parts { ReadsBelow self.now.grammar.now.height (F.pre self.now.grammar.now.below) (F.post self.now.grammar.now.below) }
        requires primary { ReadsPrimary self.now.grammar.now.height (P.pre self.now.primary) (P.post self.now.primary) }
        ensures { Reads (or_after composite (levels self.now.grammar.now.height) first (terminals tokens.old)) result tokens.new }
    {
        let first = self.and_chain(composite, first, tokens)?;
        self.or_rest(composite, first, tokens)
    }

    /// An expression.
    pub fn expr(&self, composite: bool, tokens: &mut Cursor<'_>) -> Result<Expr, ParseError>
        requires parts { ReadsBelow self.now.grammar.now.height (F.pre self.now.grammar.now.below) (F.post self.now.grammar.now.below) }
        requires primary { ReadsPrimary self.now.grammar.now.height (P.pre self.now.primary) (P.post self.now.primary) }
        ensures { Reads (rules.expr_of composite (levels self.now.grammar.now.height) (terminals tokens.old)) result tokens.new }
    {
        let first = self.unary_expr(composite, tokens)?;
        if !operator_follows(tokens.sign()) {
            return Ok(first);
        }
        self.or_chain(composite, first, tokens)
    }
}
