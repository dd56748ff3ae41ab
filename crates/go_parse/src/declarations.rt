//! Declarations.
ghost use Rattle.std.specs.Prelude.{◌≡◌, List};
ghost use Rattle.go_syntax.specs.declared.declaration.Decl.TheVariants as decl;
ghost use Rattle.go_syntax.specs.declared.name.Name.{Name};
ghost use Rattle.go_syntax.specs.declared.types.«Type».{«Type»};
ghost use Rattle.go_syntax.specs.declared.token.TokenKind.TheVariants as kind;
ghost use Rattle.go_syntax.specs.grammar.Terminals.{terminals};
ghost use Rattle.go_parse.specs.Declarations as rules;
ghost use Rattle.go_descent.specs.Levels.{levels};
ghost use Rattle.go_cursor.specs.Reading.{bind, close};
ghost use Rattle.go_cursor.specs.Reads.{Reads, ReadsNext};

use go_base::list::List;
use go_cursor::cursor::Cursor;
use go_cursor::error::ParseError;
use go_cursor::names::names;
use go_exprs::readers::Readers;
use go_syntax::body::BodyRange;
use go_syntax::declaration::{ConstSpec, Decl, Func, TypeSpec, VarSpec};
use go_syntax::held::declaration::{
    HeldConstSpecs, HeldDecl, HeldDecls, HeldTypeSpecs, HeldVarSpecs, boxed_func,
};
use go_syntax::held::types::{HeldParameters, HeldReceiver, HeldSignature, HeldType};
use go_syntax::name::Name;
use go_syntax::token::TokenKind;
use go_syntax::types::Type;
use std::alloc::Global;

/// The receiver that these parameters are: one parameter without `...`.
fn only_receiver(
    tokens: &mut Cursor<'_>,
    parameters: HeldParameters,
) -> Result<HeldReceiver, ParseError>
    ensures { Reads (rules.only_receiver parameters (terminals tokens.old)) result tokens.new }
{
    let [only] = parameters.items() else {
        return Err(ParseError::Syntax);
    };
    if only.variadic || only.names.items().len() > 1 {
        return Err(ParseError::Syntax);
    }
    Ok(HeldReceiver::new(parameters.first()))
}

/// Constants with values after these names and this type.
#[tactic(auto, unfolding(crate::specs::Declarations::typed_const, crate::specs::Declarations::values))]
fn typed_const(
    readers: &Readers,
    tokens: &mut Cursor<'_>,
    names: List<Name>,
) -> Result<ConstSpec, ParseError>
    ensures { Reads (rules.typed_const (levels readers.now.height) names (terminals tokens.old)) result tokens.new }
{
    let type_ = HeldType::new(readers.type_below(tokens)?);
    tokens.expect(TokenKind::Assign)?;
    let values = readers.exprs(tokens)?;
    Ok(ConstSpec {
        names,
        type_: Some(type_.take()),
        values: values.take(),
    })
}

/// What follows the names of constants.
#[tactic(auto, unfolding(crate::specs::Declarations::const_end, crate::specs::Declarations::values))]
fn const_end(
    readers: &Readers,
    tokens: &mut Cursor<'_>,
    names: List<Name>,
) -> Result<ConstSpec, ParseError>
    ensures { Reads (rules.const_end (levels readers.now.height) names (terminals tokens.old)) result tokens.new }
{
    if tokens.begins(TokenKind::Assign) {
        tokens.advance();
        let values = readers.exprs(tokens)?;
        return Ok(ConstSpec {
            names,
            type_: None,
            values: values.take(),
        });
    }
    if tokens.begins_type() {
        return typed_const(readers, tokens, names);
    }
    Ok(ConstSpec {
        names,
        type_: None,
        values: List::new(readers.alloc),
    })
}

/// Constants.
#[tactic(auto, unfolding(crate::specs::Declarations::const_spec))]
fn const_spec(readers: &Readers, tokens: &mut Cursor<'_>) -> Result<ConstSpec, ParseError>
    ensures { Reads (rules.const_spec (levels readers.now.height) (terminals tokens.old)) result tokens.new }
{
    let found = names(readers.alloc, tokens)?;
    const_end(readers, tokens, found)
}

/// The constants up to the closing bracket.
fn const_specs(readers: &Readers, tokens: &mut Cursor<'_>) -> Result<HeldConstSpecs, ParseError>
    ensures { Reads (rules.specs (rules.const_spec (levels readers.now.height)) (terminals tokens.old)) result tokens.new }
{
    let mut specs = HeldConstSpecs::new(readers.alloc);
    for _turn in 0..tokens.len() {
        if tokens.closes() {
            return Ok(specs);
        }
        specs.push(const_spec(readers, tokens)?)?;
        tokens.ended()?;
    }
    Ok(specs)
}

/// Constants, or constants in brackets.
#[tactic(auto, unfolding(crate::specs::Declarations::group, go_cursor::specs::Reading::close, go_cursor::specs::Reading::expect))]
pub fn const_group(readers: &Readers, tokens: &mut Cursor<'_>) -> Result<HeldConstSpecs, ParseError>
    ensures { Reads (rules.group (rules.const_spec (levels readers.now.height)) (terminals tokens.old)) result tokens.new }
{
    if tokens.begins(TokenKind::LeftParen) {
        tokens.advance();
        let specs = const_specs(readers, tokens)?;
        tokens.expect(TokenKind::RightParen)?;
        return Ok(specs);
    }
    let mut specs = HeldConstSpecs::new(readers.alloc);
    specs.push(const_spec(readers, tokens)?)?;
    Ok(specs)
}

/// Variables after these names and this type.
#[tactic(auto, unfolding(crate::specs::Declarations::typed_var, crate::specs::Declarations::values))]
fn typed_var(
    readers: &Readers,
    tokens: &mut Cursor<'_>,
    names: List<Name>,
    type_: HeldType,
) -> Result<VarSpec, ParseError>
    ensures { Reads (rules.typed_var (levels readers.now.height) names type_ (terminals tokens.old)) result tokens.new }
{
    if !tokens.begins(TokenKind::Assign) {
        return Ok(VarSpec {
            names,
            type_: Some(type_.take()),
            values: List::new(readers.alloc),
        });
    }
    tokens.advance();
    let values = readers.exprs(tokens)?;
    Ok(VarSpec {
        names,
        type_: Some(type_.take()),
        values: values.take(),
    })
}

/// What follows the names of variables.
#[tactic(auto, unfolding(crate::specs::Declarations::var_end, crate::specs::Declarations::values))]
fn var_end(
    readers: &Readers,
    tokens: &mut Cursor<'_>,
    names: List<Name>,
) -> Result<VarSpec, ParseError>
    ensures { Reads (rules.var_end (levels readers.now.height) names (terminals tokens.old)) result tokens.new }
{
    if tokens.begins(TokenKind::Assign) {
        tokens.advance();
        let values = readers.exprs(tokens)?;
        return Ok(VarSpec {
            names,
            type_: None,
            values: values.take(),
        });
    }
    let type_ = HeldType::new(readers.type_below(tokens)?);
    typed_var(readers, tokens, names, type_)
}

/// Variables.
#[tactic(auto, unfolding(crate::specs::Declarations::var_spec))]
fn var_spec(readers: &Readers, tokens: &mut Cursor<'_>) -> Result<VarSpec, ParseError>
    ensures { Reads (rules.var_spec (levels readers.now.height) (terminals tokens.old)) result tokens.new }
{
    let found = names(readers.alloc, tokens)?;
    var_end(readers, tokens, found)
}

/// The variables up to the closing bracket.
fn var_specs(readers: &Readers, tokens: &mut Cursor<'_>) -> Result<HeldVarSpecs, ParseError>
    ensures { Reads (rules.specs (rules.var_spec (levels readers.now.height)) (terminals tokens.old)) result tokens.new }
{
    let mut specs = HeldVarSpecs::new(readers.alloc);
    for _turn in 0..tokens.len() {
        if tokens.closes() {
            return Ok(specs);
        }
        specs.push(var_spec(readers, tokens)?)?;
        tokens.ended()?;
    }
    Ok(specs)
}

/// Variables, or variables in brackets.
#[tactic(auto, unfolding(crate::specs::Declarations::group, go_cursor::specs::Reading::close, go_cursor::specs::Reading::expect))]
pub fn var_group(readers: &Readers, tokens: &mut Cursor<'_>) -> Result<HeldVarSpecs, ParseError>
    ensures { Reads (rules.group (rules.var_spec (levels readers.now.height)) (terminals tokens.old)) result tokens.new }
{
    if tokens.begins(TokenKind::LeftParen) {
        tokens.advance();
        let specs = var_specs(readers, tokens)?;
        tokens.expect(TokenKind::RightParen)?;
        return Ok(specs);
    }
    let mut specs = HeldVarSpecs::new(readers.alloc);
    specs.push(var_spec(readers, tokens)?)?;
    Ok(specs)
}

/// The type that is declared by this name.
#[tactic(auto, unfolding(crate::specs::Declarations::type_end))]
fn type_end(
    readers: &Readers,
    tokens: &mut Cursor<'_>,
    name: Name,
    alias: bool,
) -> Result<TypeSpec, ParseError>
    ensures { Reads (rules.type_end (levels readers.now.height) name alias (terminals tokens.old)) result tokens.new }
{
    let type_ = readers.type_below(tokens)?;
    Ok(TypeSpec { name, alias, type_ })
}

/// A type and its name.
#[tactic(auto, unfolding(crate::specs::Declarations::type_spec))]
fn type_spec(readers: &Readers, tokens: &mut Cursor<'_>) -> Result<TypeSpec, ParseError>
    ensures { Reads (rules.type_spec (levels readers.now.height) (terminals tokens.old)) result tokens.new }
{
    let name = tokens.name(readers.alloc)?;
    if tokens.begins(TokenKind::Assign) {
        tokens.advance();
        return type_end(readers, tokens, name, true);
    }
    type_end(readers, tokens, name, false)
}

/// The types up to the closing bracket.
fn type_specs(readers: &Readers, tokens: &mut Cursor<'_>) -> Result<HeldTypeSpecs, ParseError>
    ensures { Reads (rules.specs (rules.type_spec (levels readers.now.height)) (terminals tokens.old)) result tokens.new }
{
    let mut specs = HeldTypeSpecs::new(readers.alloc);
    for _turn in 0..tokens.len() {
        if tokens.closes() {
            return Ok(specs);
        }
        specs.push(type_spec(readers, tokens)?)?;
        tokens.ended()?;
    }
    Ok(specs)
}

/// A type, or types in brackets.
#[tactic(auto, unfolding(crate::specs::Declarations::group, go_cursor::specs::Reading::close, go_cursor::specs::Reading::expect))]
fn type_group(readers: &Readers, tokens: &mut Cursor<'_>) -> Result<HeldTypeSpecs, ParseError>
    ensures { Reads (rules.group (rules.type_spec (levels readers.now.height)) (terminals tokens.old)) result tokens.new }
{
    if tokens.begins(TokenKind::LeftParen) {
        tokens.advance();
        let specs = type_specs(readers, tokens)?;
        tokens.expect(TokenKind::RightParen)?;
        return Ok(specs);
    }
    let mut specs = HeldTypeSpecs::new(readers.alloc);
    specs.push(type_spec(readers, tokens)?)?;
    Ok(specs)
}

/// The receiver of a method, which a function hasn't.
#[tactic(auto, unfolding(crate::specs::Declarations::receiver))]
fn receiver(readers: &Readers, tokens: &mut Cursor<'_>) -> Result<HeldReceiver, ParseError>
    ensures { Reads (rules.receiver (levels readers.now.height) (terminals tokens.old)) result tokens.new }
{
    if !tokens.begins(TokenKind::LeftParen) {
        return Ok(HeldReceiver::new(None));
    }
    let parameters = readers.parameters(tokens)?;
    only_receiver(tokens, parameters)
}

/// A body, which may be missing.
#[tactic(auto, unfolding(crate::specs::Declarations::optional_body))]
fn optional_body(
    readers: &Readers,
    tokens: &mut Cursor<'_>,
) -> Result<Option<BodyRange>, ParseError>
    ensures { Reads (rules.optional_body (levels readers.now.height) (terminals tokens.old)) result tokens.new }
{
    if !tokens.begins(TokenKind::LeftBrace) {
        return Ok(None);
    }
    Ok(Some(readers.body_below(tokens)?))
}

/// A function or a method, from its name on.
#[tactic(auto, unfolding(crate::specs::Declarations::func_end))]
fn func_end(
    readers: &Readers,
    tokens: &mut Cursor<'_>,
    receiver: HeldReceiver,
) -> Result<Func, ParseError>
    ensures { Reads (rules.func_end (levels readers.now.height) receiver (terminals tokens.old)) result tokens.new }
{
    let name = tokens.name(readers.alloc)?;
    let signature = HeldSignature::new(readers.signature_below(tokens)?);
    let body = optional_body(readers, tokens)?;
    Ok(Func {
        receiver: receiver.take(),
        name,
        signature: signature.take(),
        body,
    })
}

/// A function or a method, from behind `func` on.
#[tactic(auto, unfolding(crate::specs::Declarations::func))]
fn func(readers: &Readers, tokens: &mut Cursor<'_>) -> Result<Func, ParseError>
    ensures { Reads (rules.func (levels readers.now.height) (terminals tokens.old)) result tokens.new }
{
    let receiver = receiver(readers, tokens)?;
    func_end(readers, tokens, receiver)
}

/// A declaration of constants, from behind `const` on, and the semicolon after it.
#[tactic(auto, unfolding(go_cursor::specs::Reading::close, go_cursor::specs::Reading::expect))]
fn const_decl(readers: &Readers, tokens: &mut Cursor<'_>) -> Result<Decl, ParseError>
    ensures { Reads (bind (rules.group (rules.const_spec (levels readers.now.height)) (terminals tokens.old)) (λ xs. close kind.Semicolon (decl.ConstGroup xs))) result tokens.new }
{
    let specs = const_group(readers, tokens)?;
    tokens.expect(TokenKind::Semicolon)?;
    Ok(Decl::ConstGroup(specs.take()))
}

/// A declaration of variables, from behind `var` on, and the semicolon after it.
#[tactic(auto, unfolding(go_cursor::specs::Reading::close, go_cursor::specs::Reading::expect))]
fn var_decl(readers: &Readers, tokens: &mut Cursor<'_>) -> Result<Decl, ParseError>
    ensures { Reads (bind (rules.group (rules.var_spec (levels readers.now.height)) (terminals tokens.old)) (λ xs. close kind.Semicolon (decl.VarGroup xs))) result tokens.new }
{
    let specs = var_group(readers, tokens)?;
    tokens.expect(TokenKind::Semicolon)?;
    Ok(Decl::VarGroup(specs.take()))
}

/// A declaration of types, from behind `type` on, and the semicolon after it.
#[tactic(auto, unfolding(go_cursor::specs::Reading::close, go_cursor::specs::Reading::expect))]
fn type_decl(readers: &Readers, tokens: &mut Cursor<'_>) -> Result<Decl, ParseError>
    ensures { Reads (bind (rules.group (rules.type_spec (levels readers.now.height)) (terminals tokens.old)) (λ xs. close kind.Semicolon (decl.TypeGroup xs))) result tokens.new }
{
    let specs = type_group(readers, tokens)?;
    tokens.expect(TokenKind::Semicolon)?;
    Ok(Decl::TypeGroup(specs.take()))
}

/// A declaration of a function or a method, from behind `func` on, and the semicolon after it.
#[tactic(auto, unfolding(go_cursor::specs::Reading::close, go_cursor::specs::Reading::expect))]
fn func_decl(readers: &Readers, tokens: &mut Cursor<'_>) -> Result<Decl, ParseError>
    ensures { Reads (bind (rules.func (levels readers.now.height) (terminals tokens.old)) (λ f. close kind.Semicolon (decl.FuncDecl f))) result tokens.new }
{
    let func = func(readers, tokens)?;
    let decl = HeldDecl::new(Decl::FuncDecl(boxed_func(readers.alloc, func)?));
    tokens.expect(TokenKind::Semicolon)?;
    Ok(decl.take())
}

/// A declaration and the semicolon after it, if one begins here.
#[tactic(auto, unfolding(crate::specs::Declarations::decl_item))]
fn decl_item(readers: &Readers, tokens: &mut Cursor<'_>) -> Result<Option<Decl>, ParseError>
    ensures { ReadsNext (rules.decl_item (levels readers.now.height) (terminals tokens.old)) (terminals tokens.old) result tokens.new }
{
    if tokens.begins(TokenKind::ConstWord) {
        tokens.advance();
        return Ok(Some(const_decl(readers, tokens)?));
    }
    if tokens.begins(TokenKind::VarWord) {
        tokens.advance();
        return Ok(Some(var_decl(readers, tokens)?));
    }
    if tokens.begins(TokenKind::TypeWord) {
        tokens.advance();
        return Ok(Some(type_decl(readers, tokens)?));
    }
    if tokens.begins(TokenKind::FuncWord) {
        tokens.advance();
        return Ok(Some(func_decl(readers, tokens)?));
    }
    Ok(None)
}

/// The declarations from here on.
pub fn decls(readers: &Readers, tokens: &mut Cursor<'_>) -> Result<HeldDecls, ParseError>
    ensures { Reads (rules.decls (levels readers.now.height) (terminals tokens.old)) result tokens.new }
{
    let mut decls = HeldDecls::new(readers.alloc);
    for _turn in 0..tokens.len() {
        match decl_item(readers, tokens)? {
            None => return Ok(decls),
            Some(decl) => decls.push(decl)?,
        }
    }
    Ok(decls)
}
