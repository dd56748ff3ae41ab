//! What follows operands: selectors, type assertions, indices, slices and calls.
ghost use Rattle.std.specs.Prelude.{◌≡◌, []};
ghost use Rattle.go_syntax.specs.declared.expression.Post.TheVariants as post;
ghost use Rattle.go_syntax.specs.declared.token.TokenKind.TheVariants as kind;
ghost use Rattle.go_syntax.specs.grammar.Symbols.{begins};
ghost use Rattle.go_syntax.specs.grammar.Terminals.{terminals};
ghost use Rattle.go_descent.specs.Levels.{levels};
ghost use Rattle.go_descent.specs.Parts.{ReadsBelow};
ghost use Rattle.go_cursor.specs.Reading as reading;
ghost use Rattle.go_cursor.specs.Reading.{bind, close, run, step_of};
ghost use Rattle.go_cursor.specs.Reads.{Reads, ReadsNext};
ghost use Rattle.go_descent.specs.Rules as rules;

use go_cursor::cursor::Cursor;
use go_cursor::error::ParseError;
use go_cursor::looks::begins_type_switch;
use go_descent::grammar::{Grammar, Part, PartTree};
use go_syntax::expression::Post;
use go_syntax::go_base::list::List;
use go_syntax::held::expression::{
    HeldExpr, HeldExprs, HeldPosts, boxed_expr, full_slice_post, slice_post,
};
use go_syntax::held::types::{HeldType, boxed_type};
use go_syntax::token::TokenKind;
use std::alloc::Global;

/// The end of an index, which has to be there.
#[tactic(auto, unfolding(go_cursor::specs::Reading::close, go_cursor::specs::Reading::expect))]
fn index_of(
    alloc: Global,
    tokens: &mut Cursor<'_>,
    index: Option<HeldExpr>,
) -> Result<Post, ParseError>
    ensures { Reads (rules.index_of index (terminals tokens.old)) result tokens.new }
{
    match index {
        None => Err(ParseError::Syntax),
        Some(index) => {
            tokens.expect(TokenKind::RightBracket)?;
            Ok(Post::Index(boxed_expr(alloc, index.take())?))
        }
    }
}

/// The readers of what follows an operand, whose parts have a height below that of the grammar.
#[derive(Clone, Copy)]
pub struct Posts<'a, F> {
    pub grammar: &'a Grammar<F>,
}

impl<'a, F: Fn(Global, &mut Cursor<'_>, usize, Part) -> Result<PartTree, ParseError>> Posts<'a, F> {
    /// More expressions, each after a comma.
    #[tactic(auto, unfolding(go_descent::specs::Rules::more_exprs))]
    fn more_exprs(&self, tokens: &mut Cursor<'_>, first: HeldExprs) -> Result<HeldExprs, ParseError>
        requires { ReadsBelow self.now.grammar.now.height (F.pre self.now.grammar.now.below) (F.post self.now.grammar.now.below) }
        ensures { Reads (rules.more_exprs (levels self.now.grammar.now.height).expr first (terminals tokens.old)) result tokens.new }
    {
        let mut exprs = first;
        for _turn in 0..tokens.len() {
            if !tokens.goes_on() {
                return Ok(exprs);
            }
            tokens.advance();
            exprs.push(self.grammar.expr_below(tokens)?)?;
        }
        Ok(exprs)
    }

    /// Expressions with commas between them.
    #[tactic(auto, unfolding(go_descent::specs::Rules::exprs))]
    pub fn exprs(&self, tokens: &mut Cursor<'_>) -> Result<HeldExprs, ParseError>
        requires { ReadsBelow self.now.grammar.now.height (F.pre self.now.grammar.now.below) (F.post self.now.grammar.now.below) }
        ensures { Reads (rules.exprs (levels self.now.grammar.now.height).expr (terminals tokens.old)) result tokens.new }
    {
        let mut first = HeldExprs::new(self.grammar.alloc);
        first.push(self.grammar.expr_below(tokens)?)?;
        self.more_exprs(tokens, first)
    }

    /// What stands behind the arguments of a call.
    #[tactic(auto, unfolding(go_descent::specs::Rules::call_end, go_cursor::specs::Reading::close, go_cursor::specs::Reading::expect))]
    fn call_end(&self, tokens: &mut Cursor<'_>) -> Result<bool, ParseError>
        ensures { Reads (close kind.RightParen (begins kind.Ellipsis (terminals tokens.old)) (reading.past kind.Comma (reading.past kind.Ellipsis (terminals tokens.old)))) result tokens.new }
    {
        let spread = tokens.begins(TokenKind::Ellipsis);
        tokens.past(TokenKind::Ellipsis);
        tokens.past(TokenKind::Comma);
        tokens.expect(TokenKind::RightParen)?;
        Ok(spread)
    }

    /// A call with one argument or more, from behind `(` on.
    #[tactic(auto, unfolding(go_descent::specs::Rules::call_end, go_cursor::specs::Reading::close))]
    fn plain_call(&self, tokens: &mut Cursor<'_>) -> Result<Post, ParseError>
        requires { ReadsBelow self.now.grammar.now.height (F.pre self.now.grammar.now.below) (F.post self.now.grammar.now.below) }
        ensures { Reads (bind (rules.exprs (levels self.now.grammar.now.height).expr (terminals tokens.old)) (λ xs u. rules.call_end (post.Call xs (begins kind.Ellipsis u)) u)) result tokens.new }
    {
        let arguments = self.exprs(tokens)?;
        let spread = self.call_end(tokens)?;
        Ok(Post::Call(arguments.take(), spread))
    }

    /// A call whose first argument is `<-chan T`, from behind `chan` on.
    #[inline(never)]
    #[tactic(auto, unfolding(go_descent::specs::Rules::call_end, go_cursor::specs::Reading::close))]
    fn receive_call(&self, tokens: &mut Cursor<'_>) -> Result<Post, ParseError>
        requires { ReadsBelow self.now.grammar.now.height (F.pre self.now.grammar.now.below) (F.post self.now.grammar.now.below) }
        ensures { Reads (bind ((levels self.now.grammar.now.height).typ (terminals tokens.old)) (λ t u. bind (rules.more_exprs (levels self.now.grammar.now.height).expr [] u) (λ xs v. rules.call_end (post.CallReceiveChan t xs (begins kind.Ellipsis v)) v))) result tokens.new }
    {
        let element = HeldType::new(self.grammar.type_below(tokens)?);
        let arguments = self.more_exprs(tokens, HeldExprs::new(self.grammar.alloc))?;
        let spread = self.call_end(tokens)?;
        let element = boxed_type(self.grammar.alloc, element.take())?;
        Ok(Post::CallReceiveChan(element, arguments.take(), spread))
    }

    /// A call, from behind `(` on.
    #[tactic(auto, unfolding(go_descent::specs::Rules::call))]
    fn call(&self, tokens: &mut Cursor<'_>) -> Result<Post, ParseError>
        requires { ReadsBelow self.now.grammar.now.height (F.pre self.now.grammar.now.below) (F.post self.now.grammar.now.below) }
        ensures { Reads (rules.call (levels self.now.grammar.now.height) (terminals tokens.old)) result tokens.new }
    {
        if tokens.begins(TokenKind::RightParen) {
            tokens.advance();
            return Ok(Post::Call(List::new(self.grammar.alloc), false));
        }
        if tokens.begins_receive() {
            tokens.advance_twice();
            return self.receive_call(tokens);
        }
        self.plain_call(tokens)
    }

    /// An index or a bound, which may be missing before `:` and `]`.
    #[tactic(auto, unfolding(go_descent::specs::Rules::bound))]
    fn bound(&self, tokens: &mut Cursor<'_>) -> Result<Option<HeldExpr>, ParseError>
        requires { ReadsBelow self.now.grammar.now.height (F.pre self.now.grammar.now.below) (F.post self.now.grammar.now.below) }
        ensures { Reads (rules.bound (levels self.now.grammar.now.height) (terminals tokens.old)) result tokens.new }
    {
        if tokens.begins(TokenKind::Colon) || tokens.begins(TokenKind::RightBracket) {
            return Ok(None);
        }
        Ok(Some(HeldExpr::new(self.grammar.expr_below(tokens)?)))
    }

    /// The bound behind the second `:` of a slice, which has one before it.
    #[tactic(auto, unfolding(go_cursor::specs::Reading::close, go_cursor::specs::Reading::expect))]
    fn full_slice(
        &self,
        tokens: &mut Cursor<'_>,
        low: Option<HeldExpr>,
        high: Option<HeldExpr>,
    ) -> Result<Post, ParseError>
        requires { ReadsBelow self.now.grammar.now.height (F.pre self.now.grammar.now.below) (F.post self.now.grammar.now.below) }
        ensures { Reads (rules.full_slice (levels self.now.grammar.now.height) low high (terminals tokens.old)) result tokens.new }
    {
        match high {
            None => Err(ParseError::Syntax),
            Some(high) => {
                let max = HeldExpr::new(self.grammar.expr_below(tokens)?);
                tokens.expect(TokenKind::RightBracket)?;
                Ok(full_slice_post(self.grammar.alloc, low, high, max)?)
            }
        }
    }

    /// A slice, from behind its second bound on.
    #[tactic(auto, unfolding(go_descent::specs::Rules::slice_end, go_cursor::specs::Reading::close, go_cursor::specs::Reading::expect))]
    fn slice_end(
        &self,
        tokens: &mut Cursor<'_>,
        low: Option<HeldExpr>,
        high: Option<HeldExpr>,
    ) -> Result<Post, ParseError>
        requires { ReadsBelow self.now.grammar.now.height (F.pre self.now.grammar.now.below) (F.post self.now.grammar.now.below) }
        ensures { Reads (rules.slice_end (levels self.now.grammar.now.height) low high (terminals tokens.old)) result tokens.new }
    {
        if tokens.begins(TokenKind::Colon) {
            tokens.advance();
            return self.full_slice(tokens, low, high);
        }
        tokens.expect(TokenKind::RightBracket)?;
        Ok(slice_post(self.grammar.alloc, low, high)?)
    }

    /// An index or a slice, from behind `[` on.
    #[inline(never)]
    #[tactic(auto, unfolding(go_descent::specs::Rules::index))]
    fn index(&self, tokens: &mut Cursor<'_>) -> Result<Post, ParseError>
        requires { ReadsBelow self.now.grammar.now.height (F.pre self.now.grammar.now.below) (F.post self.now.grammar.now.below) }
        ensures { Reads (rules.index (levels self.now.grammar.now.height) (terminals tokens.old)) result tokens.new }
    {
        let low = self.bound(tokens)?;
        if !tokens.begins(TokenKind::Colon) {
            return index_of(self.grammar.alloc, tokens, low);
        }
        tokens.advance();
        let high = self.bound(tokens)?;
        self.slice_end(tokens, low, high)
    }

    /// A selector or a type assertion, from behind `.` on.
    #[inline(never)]
    #[tactic(auto, unfolding(go_descent::specs::Rules::selector, go_cursor::specs::Reading::close, go_cursor::specs::Reading::expect))]
    fn selector(&self, tokens: &mut Cursor<'_>) -> Result<Post, ParseError>
        requires { ReadsBelow self.now.grammar.now.height (F.pre self.now.grammar.now.below) (F.post self.now.grammar.now.below) }
        ensures { Reads (rules.selector (levels self.now.grammar.now.height) (terminals tokens.old)) result tokens.new }
    {
        if tokens.begins_name() {
            return Ok(Post::Selector(tokens.name(self.grammar.alloc)?));
        }
        if !self.grammar.is_deep() {
            return Err(ParseError::Syntax);
        }
        tokens.expect(TokenKind::LeftParen)?;
        let type_ = HeldType::new(self.grammar.type_below(tokens)?);
        tokens.expect(TokenKind::RightParen)?;
        Ok(Post::TypeAssertion(boxed_type(self.grammar.alloc, type_.take())?))
    }

    /// What follows here, if anything does.
    #[tactic(auto, unfolding(go_descent::specs::Rules::post_item))]
    fn post_item(&self, tokens: &mut Cursor<'_>) -> Result<Option<Post>, ParseError>
        requires { ReadsBelow self.now.grammar.now.height (F.pre self.now.grammar.now.below) (F.post self.now.grammar.now.below) }
        ensures { ReadsNext (rules.post_item (levels self.now.grammar.now.height) (terminals tokens.old)) (terminals tokens.old) result tokens.new }
    {
        if tokens.begins(TokenKind::LeftParen) {
            if !self.grammar.is_deep() {
                return Err(ParseError::Syntax);
            }
            tokens.advance();
            return Ok(Some(self.call(tokens)?));
        }
        if tokens.begins(TokenKind::LeftBracket) {
            if !self.grammar.is_deep() {
                return Err(ParseError::Syntax);
            }
            tokens.advance();
            return Ok(Some(self.index(tokens)?));
        }
        if begins_type_switch(tokens) || !tokens.begins(TokenKind::Period) {
            return Ok(None);
        }
        tokens.advance();
        Ok(Some(self.selector(tokens)?))
    }

    /// All that follows here.
    #[inline(never)]
    pub fn posts(&self, tokens: &mut Cursor<'_>) -> Result<HeldPosts, ParseError>
        requires { ReadsBelow self.now.grammar.now.height (F.pre self.now.grammar.now.below) (F.post self.now.grammar.now.below) }
        ensures { Reads (run (step_of (rules.post_item (levels self.now.grammar.now.height))) [] (terminals tokens.old)) result tokens.new }
    {
        let mut posts = HeldPosts::new(self.grammar.alloc);
        for _turn in 0..tokens.len() {
            match self.post_item(tokens)? {
                None => return Ok(posts),
                Some(post) => posts.push(post)?,
            }
        }
        Ok(posts)
    }
}
