//! Types.
ghost use Rattle.std.specs.Prelude.{◌≡◌, [], Some, List};
ghost use Rattle.go_syntax.specs.declared.types.«Type».TheVariants as type;
ghost use Rattle.go_syntax.specs.declared.token.TokenKind.TheVariants as kind;
ghost use Rattle.go_syntax.specs.grammar.Terminals.{terminals};
ghost use Rattle.go_descent.specs.Levels.{levels};
ghost use Rattle.go_descent.specs.Parts.{ReadsBelow};
ghost use Rattle.go_cursor.specs.Reading.{bind, close};
ghost use Rattle.go_cursor.specs.Reads.{Reads};
ghost use Rattle.go_descent.specs.Rules as rules;
ghost use Rattle.go_cursor.specs.Names as name_rules;

use go_cursor::cursor::Cursor;
use go_cursor::error::ParseError;
use go_cursor::looks::{names_field, names_method};
use go_cursor::names::{names, tag, type_name};
use go_descent::grammar::{Grammar, Part, PartTree};
use go_syntax::go_base::list::List;
use go_syntax::held::expression::HeldExpr;
use go_syntax::held::types::{
    HeldFields, HeldInterfaceElems, HeldType, array_type, boxed_signature, boxed_type, map_type,
};
use go_syntax::token::TokenKind;
use go_syntax::types::{FieldDecl, InterfaceElem, Type};
use std::alloc::Global;

/// The readers of types whose parts have a height below that of the grammar.
#[derive(Clone, Copy)]
pub struct TypeExprs<'a, F> {
    pub grammar: &'a Grammar<F>,
}

impl<'a, F: Fn(Global, &mut Cursor<'_>, usize, Part) -> Result<PartTree, ParseError>> TypeExprs<
    'a,
    F,
> {
    /// A slice or an array, from behind `[` on.
    #[tactic(auto, unfolding(go_descent::specs::Rules::slice_or_array))]
    fn slice_or_array(&self, tokens: &mut Cursor<'_>) -> Result<Type, ParseError>
        requires { ReadsBelow self.now.grammar.now.height (F.pre self.now.grammar.now.below) (F.post self.now.grammar.now.below) }
        ensures { Reads (rules.slice_or_array (levels self.now.grammar.now.height) (terminals tokens.old)) result tokens.new }
    {
        if tokens.begins(TokenKind::RightBracket) {
            tokens.advance();
            let element = self.grammar.type_below(tokens)?;
            return Ok(Type::Slice(boxed_type(self.grammar.alloc, element)?));
        }
        let len = HeldExpr::new(self.grammar.expr_below(tokens)?);
        tokens.expect(TokenKind::RightBracket)?;
        let element = self.grammar.type_below(tokens)?;
        Ok(array_type(self.grammar.alloc, len.take(), element)?)
    }

    /// A map, from behind `map` on.
    #[tactic(auto, unfolding(go_descent::specs::Rules::map_type))]
    fn map_of(&self, tokens: &mut Cursor<'_>) -> Result<Type, ParseError>
        requires { ReadsBelow self.now.grammar.now.height (F.pre self.now.grammar.now.below) (F.post self.now.grammar.now.below) }
        ensures { Reads (rules.map_type (levels self.now.grammar.now.height) (terminals tokens.old)) result tokens.new }
    {
        tokens.expect(TokenKind::LeftBracket)?;
        let key = HeldType::new(self.grammar.type_below(tokens)?);
        tokens.expect(TokenKind::RightBracket)?;
        let element = self.grammar.type_below(tokens)?;
        Ok(map_type(self.grammar.alloc, key.take(), element)?)
    }

    /// An embedded field, from behind its `*` on.
    #[tactic(auto, unfolding(go_descent::specs::Rules::embedded_field))]
    fn embedded_field(
        &self,
        tokens: &mut Cursor<'_>,
        pointer: bool,
    ) -> Result<FieldDecl, ParseError>
        ensures { Reads (rules.embedded_field pointer (terminals tokens.old)) result tokens.new }
    {
        let name = type_name(self.grammar.alloc, tokens)?;
        let text = tag(self.grammar.alloc, tokens)?;
        Ok(FieldDecl::Embedded(pointer, name, text))
    }

    /// Fields of one type.
    #[tactic(auto, unfolding(go_descent::specs::Rules::named_field))]
    fn named_field(&self, tokens: &mut Cursor<'_>) -> Result<FieldDecl, ParseError>
        requires { ReadsBelow self.now.grammar.now.height (F.pre self.now.grammar.now.below) (F.post self.now.grammar.now.below) }
        ensures { Reads (rules.named_field (levels self.now.grammar.now.height) (terminals tokens.old)) result tokens.new }
    {
        let found = names(self.grammar.alloc, tokens)?;
        let type_ = HeldType::new(self.grammar.type_below(tokens)?);
        let text = tag(self.grammar.alloc, tokens)?;
        Ok(FieldDecl::Named(found, type_.take(), text))
    }

    /// A field declaration.
    #[tactic(auto, unfolding(go_descent::specs::Rules::field_of))]
    fn field(&self, tokens: &mut Cursor<'_>) -> Result<FieldDecl, ParseError>
        requires { ReadsBelow self.now.grammar.now.height (F.pre self.now.grammar.now.below) (F.post self.now.grammar.now.below) }
        ensures { Reads (rules.field_of (levels self.now.grammar.now.height) (terminals tokens.old)) result tokens.new }
    {
        if tokens.begins(TokenKind::Multiply) {
            tokens.advance();
            return self.embedded_field(tokens, true);
        }
        if names_field(tokens) {
            self.named_field(tokens)
        } else {
            self.embedded_field(tokens, false)
        }
    }

    /// The field declarations up to the closing brace.
    fn fields(&self, tokens: &mut Cursor<'_>) -> Result<HeldFields, ParseError>
        requires { ReadsBelow self.now.grammar.now.height (F.pre self.now.grammar.now.below) (F.post self.now.grammar.now.below) }
        ensures { Reads (rules.fields (levels self.now.grammar.now.height) (terminals tokens.old)) result tokens.new }
    {
        let mut items = HeldFields::new(self.grammar.alloc);
        for _turn in 0..tokens.len() {
            if tokens.closes() {
                return Ok(items);
            }
            items.push(self.field(tokens)?)?;
            tokens.ended()?;
        }
        Ok(items)
    }

    /// A struct, from behind `struct` on.
    #[tactic(auto, unfolding(go_descent::specs::Rules::struct_type, go_cursor::specs::Reading::close, go_cursor::specs::Reading::expect))]
    fn struct_of(&self, tokens: &mut Cursor<'_>) -> Result<Type, ParseError>
        requires { ReadsBelow self.now.grammar.now.height (F.pre self.now.grammar.now.below) (F.post self.now.grammar.now.below) }
        ensures { Reads (rules.struct_type (levels self.now.grammar.now.height) (terminals tokens.old)) result tokens.new }
    {
        tokens.expect(TokenKind::LeftBrace)?;
        if tokens.begins(TokenKind::RightBrace) {
            tokens.advance();
            return Ok(Type::Struct(List::new(self.grammar.alloc)));
        }
        if !self.grammar.is_deep() {
            return Err(ParseError::Syntax);
        }
        let fields = self.fields(tokens)?;
        tokens.expect(TokenKind::RightBrace)?;
        Ok(Type::Struct(fields.take()))
    }

    /// A slice, an array, a map or a struct.
    #[tactic(auto, unfolding(go_descent::specs::Rules::composite_type))]
    pub fn composite_type(&self, tokens: &mut Cursor<'_>) -> Result<Type, ParseError>
        requires { ReadsBelow self.now.grammar.now.height (F.pre self.now.grammar.now.below) (F.post self.now.grammar.now.below) }
        ensures { Reads (rules.composite_type (levels self.now.grammar.now.height) (terminals tokens.old)) result tokens.new }
    {
        if tokens.begins(TokenKind::LeftBracket) {
            tokens.advance();
            return self.slice_or_array(tokens);
        }
        if tokens.begins(TokenKind::MapWord) {
            tokens.advance();
            return self.map_of(tokens);
        }
        if tokens.begins(TokenKind::StructWord) {
            tokens.advance();
            return self.struct_of(tokens);
        }
        Err(ParseError::Syntax)
    }

    /// A channel, from behind `chan` on.
    #[tactic(auto, unfolding(go_descent::specs::Rules::chan_type))]
    pub fn chan_type(&self, tokens: &mut Cursor<'_>) -> Result<Type, ParseError>
        requires { ReadsBelow self.now.grammar.now.height (F.pre self.now.grammar.now.below) (F.post self.now.grammar.now.below) }
        ensures { Reads (rules.chan_type (levels self.now.grammar.now.height) (terminals tokens.old)) result tokens.new }
    {
        if tokens.begins(TokenKind::Arrow) {
            tokens.advance();
            let element = self.grammar.type_below(tokens)?;
            return Ok(Type::SendChan(boxed_type(self.grammar.alloc, element)?));
        }
        let element = self.grammar.type_below(tokens)?;
        Ok(Type::Chan(boxed_type(self.grammar.alloc, element)?))
    }

    /// A method or an embedded interface.
    #[tactic(auto, unfolding(go_descent::specs::Rules::interface_elem, go_descent::specs::Rules::method_of))]
    fn interface_elem(&self, tokens: &mut Cursor<'_>) -> Result<InterfaceElem, ParseError>
        requires { ReadsBelow self.now.grammar.now.height (F.pre self.now.grammar.now.below) (F.post self.now.grammar.now.below) }
        ensures { Reads (rules.interface_elem (levels self.now.grammar.now.height) (terminals tokens.old)) result tokens.new }
    {
        if !names_method(tokens) {
            return Ok(InterfaceElem::Embedded(type_name(self.grammar.alloc, tokens)?));
        }
        let name = tokens.name(self.grammar.alloc)?;
        let signature = self.grammar.signature_below(tokens)?;
        Ok(InterfaceElem::Method(name, signature))
    }

    /// The methods and embedded interfaces up to the closing brace.
    fn interface_elems(&self, tokens: &mut Cursor<'_>) -> Result<HeldInterfaceElems, ParseError>
        requires { ReadsBelow self.now.grammar.now.height (F.pre self.now.grammar.now.below) (F.post self.now.grammar.now.below) }
        ensures { Reads (rules.interface_elems (levels self.now.grammar.now.height) (terminals tokens.old)) result tokens.new }
    {
        let mut items = HeldInterfaceElems::new(self.grammar.alloc);
        for _turn in 0..tokens.len() {
            if tokens.closes() {
                return Ok(items);
            }
            items.push(self.interface_elem(tokens)?)?;
            tokens.ended()?;
        }
        Ok(items)
    }

    /// An interface, from behind `interface` on.
    #[tactic(auto, unfolding(go_descent::specs::Rules::interface_type, go_cursor::specs::Reading::close, go_cursor::specs::Reading::expect))]
    pub fn interface_type(&self, tokens: &mut Cursor<'_>) -> Result<Type, ParseError>
        requires { ReadsBelow self.now.grammar.now.height (F.pre self.now.grammar.now.below) (F.post self.now.grammar.now.below) }
        ensures { Reads (rules.interface_type (levels self.now.grammar.now.height) (terminals tokens.old)) result tokens.new }
    {
        tokens.expect(TokenKind::LeftBrace)?;
        if tokens.begins(TokenKind::RightBrace) {
            tokens.advance();
            return Ok(Type::Interface(List::new(self.grammar.alloc)));
        }
        if !self.grammar.is_deep() {
            return Err(ParseError::Syntax);
        }
        let elems = self.interface_elems(tokens)?;
        tokens.expect(TokenKind::RightBrace)?;
        Ok(Type::Interface(elems.take()))
    }

    /// A type in parentheses, from behind `(` on.
    #[tactic(auto, unfolding(go_cursor::specs::Reading::close, go_cursor::specs::Reading::expect))]
    fn paren_type(&self, tokens: &mut Cursor<'_>) -> Result<Type, ParseError>
        requires { ReadsBelow self.now.grammar.now.height (F.pre self.now.grammar.now.below) (F.post self.now.grammar.now.below) }
        ensures { Reads (bind ((levels self.now.grammar.now.height).typ (terminals tokens.old)) (λ t. close kind.RightParen (type.Paren t))) result tokens.new }
    {
        let inner = HeldType::new(self.grammar.type_below(tokens)?);
        tokens.expect(TokenKind::RightParen)?;
        Ok(Type::Paren(boxed_type(self.grammar.alloc, inner.take())?))
    }

    /// A pointer, from behind `*` on.
    fn pointer(&self, tokens: &mut Cursor<'_>) -> Result<Type, ParseError>
        requires { ReadsBelow self.now.grammar.now.height (F.pre self.now.grammar.now.below) (F.post self.now.grammar.now.below) }
        ensures { Reads (bind ((levels self.now.grammar.now.height).typ (terminals tokens.old)) (λ t u. Some (type.Pointer t, u))) result tokens.new }
    {
        let base = self.grammar.type_below(tokens)?;
        Ok(Type::Pointer(boxed_type(self.grammar.alloc, base)?))
    }

    /// A channel that is received from, from `chan` on.
    #[tactic(auto, unfolding(go_descent::specs::Rules::receive_type))]
    fn receive_chan(&self, tokens: &mut Cursor<'_>) -> Result<Type, ParseError>
        requires { ReadsBelow self.now.grammar.now.height (F.pre self.now.grammar.now.below) (F.post self.now.grammar.now.below) }
        ensures { Reads (bind (rules.receive_type (levels self.now.grammar.now.height) (terminals tokens.old)) (λ t u. Some (type.ReceiveChan t, u))) result tokens.new }
    {
        tokens.expect(TokenKind::ChanWord)?;
        let element = self.grammar.type_below(tokens)?;
        Ok(Type::ReceiveChan(boxed_type(self.grammar.alloc, element)?))
    }

    /// A function, from behind `func` on.
    fn func_type(&self, tokens: &mut Cursor<'_>) -> Result<Type, ParseError>
        requires { ReadsBelow self.now.grammar.now.height (F.pre self.now.grammar.now.below) (F.post self.now.grammar.now.below) }
        ensures { Reads (bind ((levels self.now.grammar.now.height).signature (terminals tokens.old)) (λ s u. Some (type.Func s, u))) result tokens.new }
    {
        let signature = self.grammar.signature_below(tokens)?;
        Ok(Type::Func(boxed_signature(self.grammar.alloc, signature)?))
    }

    /// A type by its name.
    fn named_type(&self, tokens: &mut Cursor<'_>) -> Result<Type, ParseError>
        ensures { Reads (bind (name_rules.type_name (terminals tokens.old)) (λ q u. Some (type.Named q, u))) result tokens.new }
    {
        Ok(Type::Named(type_name(self.grammar.alloc, tokens)?))
    }

    /// A type.
    #[tactic(auto, unfolding(go_descent::specs::Rules::typ_of))]
    pub fn type_(&self, tokens: &mut Cursor<'_>) -> Result<Type, ParseError>
        requires { ReadsBelow self.now.grammar.now.height (F.pre self.now.grammar.now.below) (F.post self.now.grammar.now.below) }
        ensures { Reads (rules.typ_of (levels self.now.grammar.now.height) (terminals tokens.old)) result tokens.new }
    {
        if tokens.begins(TokenKind::LeftParen) {
            tokens.advance();
            return self.paren_type(tokens);
        }
        if tokens.begins(TokenKind::Multiply) {
            tokens.advance();
            return self.pointer(tokens);
        }
        if tokens.begins(TokenKind::Arrow) {
            tokens.advance();
            return self.receive_chan(tokens);
        }
        if tokens.begins(TokenKind::FuncWord) {
            tokens.advance();
            return self.func_type(tokens);
        }
        if tokens.begins(TokenKind::ChanWord) {
            tokens.advance();
            return self.chan_type(tokens);
        }
        if tokens.begins(TokenKind::InterfaceWord) {
            tokens.advance();
            return self.interface_type(tokens);
        }
        if tokens.begins_name() {
            return self.named_type(tokens);
        }
        self.composite_type(tokens)
    }
}
