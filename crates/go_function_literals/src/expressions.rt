//! The function literals of expressions and types.
ghost use Rattle.std.specs.Prelude.{◌≡◌, ◌++◌, map, OnOk};
ghost use Rattle.go_function_literals.specs.Places as places;
ghost use Rattle.go_function_literals.specs.Places.{element_places, expr_places, exprs_places, field_places, interface_places, joined, parameter_places, post_places, result_places, signature_places, type_places, value_places};

use crate::place::{LiteralPlace, below};
use go_base::boxed::Box;
use go_base::list::List;
use go_base::memory::NoMemory;
use go_syntax::body::BodyRange;
use go_syntax::declaration::{ConstSpec, VarSpec};
use go_syntax::expression::{Element, ElementValue, Expr, Post};
use go_syntax::types::{FieldDecl, FuncResult, InterfaceElem, ParameterDecl, Signature, Type};

pub(crate) fn add_literal(
    found: &mut List<LiteralPlace>,
    body: BodyRange,
    height: usize,
) -> Result<(), NoMemory>
    ensures { OnOk result (found.new ≡ found.old ++ places.literal body height) }
{
    found.push(LiteralPlace { body, height })
}

/// Adds the function literals of an expression of this height.
#[cycle(places)]
pub fn add_expr(found: &mut List<LiteralPlace>, expr: &Expr, height: usize) -> Result<(), NoMemory>
    ensures { OnOk result (found.new ≡ found.old ++ expr_places expr.now height) }
{
    // Arms of equal code stand apart: the prover gives up on one with several patterns.
    match expr {
        Expr::Or(first, others) => {
            add_expr(found, first.value(), height)?;
            add_exprs(found, others.items(), height)
        }
        Expr::And(first, others) => {
            add_expr(found, first.value(), height)?;
            add_exprs(found, others.items(), height)
        }
        Expr::Compare(first, _, others) => {
            add_expr(found, first.value(), height)?;
            add_exprs(found, others.items(), height)
        }
        Expr::Sum(first, _, others) => {
            add_expr(found, first.value(), height)?;
            add_exprs(found, others.items(), height)
        }
        Expr::Product(first, _, others) => {
            add_expr(found, first.value(), height)?;
            add_exprs(found, others.items(), height)
        }
        Expr::Prefix(_, operand) => add_expr(found, operand.value(), below(height)),
        Expr::Primary(operand, posts) => {
            add_expr(found, operand.value(), height)?;
            add_posts(found, posts.items(), height)
        }
        Expr::Literal(_) => Ok(()),
        Expr::Name(_) => Ok(()),
        Expr::FuncLit(signature, body) => {
            add_signature(found, signature.value(), below(height))?;
            add_literal(found, *body, below(height))
        }
        Expr::Composite(type_, elements) => {
            add_type(found, type_.value(), below(height))?;
            add_elements(found, elements.items(), below(below(height)))
        }
        Expr::CompositeArray(type_, elements) => {
            add_type(found, type_.value(), below(height))?;
            add_elements(found, elements.items(), below(below(height)))
        }
        Expr::Type(type_) => add_type(found, type_.value(), height),
        Expr::Paren(inner) => add_expr(found, inner.value(), below(height)),
        Expr::ParenReceiveChan(type_) => add_type(found, type_.value(), below(height)),
    }
}

/// The same of expressions, one after another.
#[cycle(places)]
pub fn add_exprs(
    found: &mut List<LiteralPlace>,
    exprs: &[Expr],
    height: usize,
) -> Result<(), NoMemory>
    ensures { OnOk result (found.new ≡ found.old ++ exprs_places exprs.now height) }
{
    for expr in exprs {
        add_expr(found, expr, height)?;
    }
    Ok(())
}

/// The same of an expression that may be missing.
pub fn add_optional_expr(
    found: &mut List<LiteralPlace>,
    expr: &Option<Expr>,
    height: usize,
) -> Result<(), NoMemory>
    ensures { OnOk result (found.new ≡ found.old ++ places.optional_expr expr.now height) }
{
    match expr {
        None => Ok(()),
        Some(expr) => add_expr(found, expr, height),
    }
}

/// The same of a bound of a slice.
#[cycle(places)]
fn add_bound(
    found: &mut List<LiteralPlace>,
    expr: &Option<Box<Expr>>,
    height: usize,
) -> Result<(), NoMemory>
    ensures { OnOk result (found.new ≡ found.old ++ places.optional_expr expr.now height) }
{
    match expr {
        None => Ok(()),
        Some(expr) => add_expr(found, expr.value(), height),
    }
}

#[cycle(places)]
fn add_posts(found: &mut List<LiteralPlace>, posts: &[Post], height: usize) -> Result<(), NoMemory>
    ensures { OnOk result (found.new ≡ found.old ++ joined (map post_places posts.now) height) }
{
    for post in posts {
        add_post(found, post, height)?;
    }
    Ok(())
}

#[cycle(places)]
fn add_post(found: &mut List<LiteralPlace>, post: &Post, height: usize) -> Result<(), NoMemory>
    ensures { OnOk result (found.new ≡ found.old ++ post_places post.now height) }
{
    match post {
        Post::Selector(_) => Ok(()),
        Post::TypeAssertion(type_) => add_type(found, type_.value(), below(height)),
        Post::Index(index) => add_expr(found, index.value(), below(height)),
        Post::Slice(low, high) => {
            add_bound(found, low, below(height))?;
            add_bound(found, high, below(height))
        }
        Post::FullSlice(low, high, bound) => {
            add_bound(found, low, below(height))?;
            add_expr(found, high.value(), below(height))?;
            add_expr(found, bound.value(), below(height))
        }
        Post::Call(arguments, _) => add_exprs(found, arguments.items(), below(height)),
        Post::CallReceiveChan(type_, arguments, _) => {
            add_type(found, type_.value(), below(height))?;
            add_exprs(found, arguments.items(), below(height))
        }
    }
}

#[cycle(places)]
fn add_elements(
    found: &mut List<LiteralPlace>,
    elements: &[Element],
    height: usize,
) -> Result<(), NoMemory>
    ensures { OnOk result (found.new ≡ found.old ++ joined (map element_places elements.now) height) }
{
    for element in elements {
        if let Some(key) = &element.key {
            add_value(found, key, height)?;
        }
        add_value(found, &element.value, height)?;
    }
    Ok(())
}

#[cycle(places)]
fn add_value(
    found: &mut List<LiteralPlace>,
    value: &ElementValue,
    height: usize,
) -> Result<(), NoMemory>
    ensures { OnOk result (found.new ≡ found.old ++ value_places value.now height) }
{
    match value {
        ElementValue::Value(expr) => add_expr(found, expr, height),
        ElementValue::Literal(elements) => add_elements(found, elements.items(), below(height)),
    }
}

/// Adds the function literals of a type of this height.
#[cycle(places)]
pub fn add_type(found: &mut List<LiteralPlace>, type_: &Type, height: usize) -> Result<(), NoMemory>
    ensures { OnOk result (found.new ≡ found.old ++ type_places type_.now height) }
{
    match type_ {
        Type::Named(_) => Ok(()),
        Type::Paren(inner) => add_type(found, inner.value(), below(height)),
        Type::Pointer(item)
        | Type::Slice(item)
        | Type::Chan(item)
        | Type::SendChan(item)
        | Type::ReceiveChan(item) => add_type(found, item.value(), below(height)),
        Type::Array(length, item) => {
            add_expr(found, length.value(), below(height))?;
            add_type(found, item.value(), below(height))
        }
        Type::Map(key, item) => {
            add_type(found, key.value(), below(height))?;
            add_type(found, item.value(), below(height))
        }
        Type::Func(signature) => add_signature(found, signature.value(), below(height)),
        Type::Struct(fields) => add_fields(found, fields.items(), below(height)),
        Type::Interface(elements) => add_interface(found, elements.items(), below(height)),
    }
}

/// Adds the function literals of parameters and a result of this height.
#[cycle(places)]
pub fn add_signature(
    found: &mut List<LiteralPlace>,
    signature: &Signature,
    height: usize,
) -> Result<(), NoMemory>
    ensures { OnOk result (found.new ≡ found.old ++ signature_places signature.now height) }
{
    let inside = below(height);
    add_parameters(found, signature.parameters.items(), inside)?;
    match &signature.result {
        None => Ok(()),
        Some(given) => add_result(found, given, inside),
    }
}

#[cycle(places)]
fn add_result(
    found: &mut List<LiteralPlace>,
    given: &FuncResult,
    height: usize,
) -> Result<(), NoMemory>
    ensures { OnOk result (found.new ≡ found.old ++ result_places given.now height) }
{
    match given {
        FuncResult::Parameters(parameters) => add_parameters(found, parameters.items(), height),
        FuncResult::Type(type_) => add_type(found, type_, height),
    }
}

#[cycle(places)]
fn add_parameters(
    found: &mut List<LiteralPlace>,
    parameters: &[ParameterDecl],
    height: usize,
) -> Result<(), NoMemory>
    ensures { OnOk result (found.new ≡ found.old ++ joined (map parameter_places parameters.now) height) }
{
    for parameter in parameters {
        add_type(found, &parameter.type_, height)?;
    }
    Ok(())
}

#[cycle(places)]
fn add_fields(
    found: &mut List<LiteralPlace>,
    fields: &[FieldDecl],
    height: usize,
) -> Result<(), NoMemory>
    ensures { OnOk result (found.new ≡ found.old ++ joined (map field_places fields.now) height) }
{
    for field in fields {
        match field {
            FieldDecl::Named(_, type_, _) => add_type(found, type_, height)?,
            FieldDecl::Embedded(_, _, _) => {}
        }
    }
    Ok(())
}

#[cycle(places)]
fn add_interface(
    found: &mut List<LiteralPlace>,
    elements: &[InterfaceElem],
    height: usize,
) -> Result<(), NoMemory>
    ensures { OnOk result (found.new ≡ found.old ++ joined (map interface_places elements.now) height) }
{
    for element in elements {
        match element {
            InterfaceElem::Method(_, signature) => add_signature(found, signature, height)?,
            InterfaceElem::Embedded(_) => {}
        }
    }
    Ok(())
}

fn add_optional_type(
    found: &mut List<LiteralPlace>,
    type_: &Option<Type>,
    height: usize,
) -> Result<(), NoMemory>
    ensures { OnOk result (found.new ≡ found.old ++ places.optional_type type_.now height) }
{
    match type_ {
        None => Ok(()),
        Some(type_) => add_type(found, type_, height),
    }
}

/// The same of types, one after another.
pub fn add_types(
    found: &mut List<LiteralPlace>,
    types: &[Type],
    height: usize,
) -> Result<(), NoMemory>
    ensures { OnOk result (found.new ≡ found.old ++ places.types_places types.now height) }
{
    for type_ in types {
        add_type(found, type_, height)?;
    }
    Ok(())
}

fn add_const(
    found: &mut List<LiteralPlace>,
    spec: &ConstSpec,
    height: usize,
) -> Result<(), NoMemory>
    ensures { OnOk result (found.new ≡ found.old ++ places.const_places spec.now height) }
{
    add_optional_type(found, &spec.type_, height)?;
    add_exprs(found, spec.values.items(), height)
}

fn add_var(found: &mut List<LiteralPlace>, spec: &VarSpec, height: usize) -> Result<(), NoMemory>
    ensures { OnOk result (found.new ≡ found.old ++ places.var_places spec.now height) }
{
    add_optional_type(found, &spec.type_, height)?;
    add_exprs(found, spec.values.items(), height)
}

/// Adds the function literals of a group of constants.
pub fn add_consts(
    found: &mut List<LiteralPlace>,
    specs: &[ConstSpec],
    height: usize,
) -> Result<(), NoMemory>
    ensures { OnOk result (found.new ≡ found.old ++ joined (map places.const_places specs.now) height) }
{
    for spec in specs {
        add_const(found, spec, height)?;
    }
    Ok(())
}

/// Adds the function literals of a group of variables.
pub fn add_vars(
    found: &mut List<LiteralPlace>,
    specs: &[VarSpec],
    height: usize,
) -> Result<(), NoMemory>
    ensures { OnOk result (found.new ≡ found.old ++ joined (map places.var_places specs.now) height) }
{
    for spec in specs {
        add_var(found, spec, height)?;
    }
    Ok(())
}
