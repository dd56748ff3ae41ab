//! References: the names by which a declaration refers to others outside of bodies, and how each one stands there.
ghost use Rattle.std.specs.Prelude.{◌≡◌, ◌++◌, ◌∷◌, [], map, false, Some, None, IfOk, IfSome, IfNone, OnOk};
ghost use Rattle.go_syntax.specs.go_base.Keys.{item_of};
ghost use Rattle.go_references.specs.References as references;
ghost use Rattle.go_references.specs.References.{joined, expr_refs, exprs_refs, post_refs, post_refs_of, element_refs, value_refs, type_refs, signature_refs, result_refs, parameter_refs, field_refs, interface_refs};

use go_syntax::declaration::{ConstSpec, Decl, Func, TypeSpec, VarSpec};
use go_syntax::expression::{Element, ElementValue, Expr, Post};
use go_syntax::go_base::boxed::Box;
use go_syntax::go_base::list::List;
use go_syntax::go_base::memory::NoMemory;
use go_syntax::go_base::operator::PrefixOperator;
use go_syntax::name::{Name, QualifiedName};
use go_syntax::types::{FieldDecl, FuncResult, InterfaceElem, ParameterDecl, Signature, Type};
use std::alloc::Global;
use std::marker::Model;

/// Where a part of a declaration stands.
#[derive(Clone, Copy, Debug)]
pub struct Position {
    /// Whether it stands inside the length of an array.
    pub in_length: bool,
    /// Whether it stands behind no pointer, slice, map, channel or signature.
    pub by_value: bool,
}

/// A name by which a declaration refers to another, borrowed from the syntax, and how it stands there.
#[derive(Debug, Drop)]
pub struct Reference<'a> {
    pub name: &'a Name,
    /// The name behind the period, where this one stands before it as in `p.X`.
    pub selected: Option<&'a Name>,
    /// Whether it is, by itself, a key of a composite literal.
    pub is_key: bool,
    /// Whether it stands inside the length of an array.
    pub in_length: bool,
    /// Whether it stands behind no pointer, slice, map, channel or signature.
    pub by_value: bool,
}

impl<'a> Model for Reference<'a> {
    ghost use Rattle.go_syntax.specs.go_base.Keys.{item_of};
    ghost use Rattle.go_references.specs.Reference.{Reference as Seen};

    ghost Value = { Seen };

    ghost view = { λ r. record { name = r.name.now; selected = item_of r.selected; is_key = r.is_key; in_length = r.in_length; by_value = r.by_value } };
}

/// Where a declaration's own type and values stand.
fn outermost() -> Position
    ensures { result ≡ references.outermost }
{
    Position {
        in_length: false,
        by_value: true,
    }
}

/// The same inside the length of an array.
fn inside_length(at: Position) -> Position
    ensures { result ≡ references.inside_length at }
{
    Position {
        in_length: true,
        by_value: at.by_value,
    }
}

/// The same behind a pointer, a slice, a map, a channel or a signature.
fn behind(at: Position) -> Position
    ensures { result ≡ references.behind at }
{
    Position {
        in_length: at.in_length,
        by_value: false,
    }
}

/// The same behind a `*`, where there is one.
fn behind_if(pointer: bool, at: Position) -> Position
    ensures { result ≡ references.behind_if pointer at }
{
    if pointer { behind(at) } else { at }
}

/// Where the operand of a prefix operator stands.
fn behind_operator(operator: PrefixOperator, at: Position) -> Position
    ensures { result ≡ references.behind_operator operator at }
{
    match operator {
        PrefixOperator::Dereference => behind(at),
        _ => at,
    }
}

fn copy(alloc: Global, name: &Name) -> Result<Name, NoMemory>
    ensures { IfOk result (λ n. n ≡ name.now) }
{
    Ok(Name {
        text: name.text.copy()?,
        place: name.place,
    })
}

fn add_name<'a>(
    refs: &mut List<Reference<'a>>,
    name: &'a Name,
    is_key: bool,
    at: Position,
) -> Result<(), NoMemory>
    ensures { OnOk result (refs.new ≡ refs.old ++ references.reference name.now None is_key at ∷ []) }
{
    refs.push(Reference {
        name,
        selected: None,
        is_key,
        in_length: at.in_length,
        by_value: at.by_value,
    })
}

fn add_qualified<'a>(
    refs: &mut List<Reference<'a>>,
    name: &'a Name,
    selected: &'a Name,
    at: Position,
) -> Result<(), NoMemory>
    ensures { OnOk result (refs.new ≡ refs.old ++ references.reference name.now (Some selected.now) false at ∷ []) }
{
    refs.push(Reference {
        name,
        selected: Some(selected),
        is_key: false,
        in_length: at.in_length,
        by_value: at.by_value,
    })
}

fn add_type_name<'a>(
    refs: &mut List<Reference<'a>>,
    name: &'a QualifiedName,
    at: Position,
) -> Result<(), NoMemory>
    ensures { OnOk result (refs.new ≡ refs.old ++ references.type_name name.now at) }
{
    match &name.qualifier {
        None => add_name(refs, &name.name, false, at),
        Some(qualifier) => add_qualified(refs, qualifier, &name.name, at),
    }
}

/// The name that an expression is by itself.
fn bare_name(expr: &Expr) -> Option<&Name>
    ensures some { IfSome result (λ name. (expr_refs expr.now).bare ≡ Some name.now) }
    ensures none { IfNone result ((expr_refs expr.now).bare ≡ None) }
{
    match expr {
        Expr::Name(name) => Some(name),
        _ => None,
    }
}

/// The name that a key is by itself.
fn bare_key(value: &ElementValue) -> Option<&Name>
    ensures some { IfSome result (λ name. (value_refs value.now).bare ≡ Some name.now) }
    ensures none { IfNone result ((value_refs value.now).bare ≡ None) }
{
    match value {
        ElementValue::Value(expr) => bare_name(expr),
        ElementValue::Literal(_) => None,
    }
}

/// The name that the first post selects.
fn first_selected(posts: &[Post]) -> Option<&Name>
    ensures some { IfSome result (λ name. references.first_selected (map post_refs posts.now) ≡ Some name.now) }
    ensures none { IfNone result (references.first_selected (map post_refs posts.now) ≡ None) }
{
    match posts.first() {
        Some(Post::Selector(name)) => Some(name),
        _ => None,
    }
}

#[cycle(references)]
fn add_expr<'a>(
    refs: &mut List<Reference<'a>>,
    expr: &'a Expr,
    at: Position,
) -> Result<(), NoMemory>
    ensures { OnOk result (refs.new ≡ refs.old ++ (expr_refs expr.now).refs at) }
{
    // Arms of equal code stand apart: the prover gives up on one with several patterns.
    match expr {
        Expr::Or(first, others) => {
            add_expr(refs, first.value(), at)?;
            add_exprs(refs, others.items(), at)
        }
        Expr::And(first, others) => {
            add_expr(refs, first.value(), at)?;
            add_exprs(refs, others.items(), at)
        }
        Expr::Compare(first, _, others) => {
            add_expr(refs, first.value(), at)?;
            add_exprs(refs, others.items(), at)
        }
        Expr::Sum(first, _, others) => {
            add_expr(refs, first.value(), at)?;
            add_exprs(refs, others.items(), at)
        }
        Expr::Product(first, _, others) => {
            add_expr(refs, first.value(), at)?;
            add_exprs(refs, others.items(), at)
        }
        Expr::Prefix(operator, operand) => {
            add_expr(refs, operand.value(), behind_operator(*operator, at))
        }
        Expr::Paren(inner) => add_expr(refs, inner.value(), at),
        Expr::Primary(operand, posts) => {
            add_operand(refs, operand.value(), posts.items(), at)?;
            add_posts(refs, posts.items(), at)
        }
        Expr::Literal(_) => Ok(()),
        Expr::Name(name) => add_name(refs, name, false, at),
        Expr::FuncLit(signature, _) => add_signature(refs, signature.value(), at),
        Expr::Composite(type_, elements) => {
            add_type(refs, type_.value(), at)?;
            add_elements(refs, elements.items(), at)
        }
        Expr::CompositeArray(type_, elements) => {
            add_type(refs, type_.value(), at)?;
            add_elements(refs, elements.items(), at)
        }
        Expr::Type(type_) => add_type(refs, type_.value(), at),
        Expr::ParenReceiveChan(type_) => add_type(refs, type_.value(), behind(at)),
    }
}

#[cycle(references)]
fn add_exprs<'a>(
    refs: &mut List<Reference<'a>>,
    exprs: &'a [Expr],
    at: Position,
) -> Result<(), NoMemory>
    ensures { OnOk result (refs.new ≡ refs.old ++ exprs_refs exprs.now at) }
{
    for expr in exprs {
        add_expr(refs, expr, at)?;
    }
    Ok(())
}

#[cycle(references)]
fn add_optional<'a>(
    refs: &mut List<Reference<'a>>,
    expr: &'a Option<Box<Expr>>,
    at: Position,
) -> Result<(), NoMemory>
    ensures { OnOk result (refs.new ≡ refs.old ++ references.optional_expr expr.now at) }
{
    match expr {
        None => Ok(()),
        Some(expr) => add_expr(refs, expr.value(), at),
    }
}

/// The operand before these posts.
#[cycle(references)]
fn add_operand<'a>(
    refs: &mut List<Reference<'a>>,
    operand: &'a Expr,
    posts: &'a [Post],
    at: Position,
) -> Result<(), NoMemory>
    ensures { OnOk result (refs.new ≡ refs.old ++ references.before_posts (expr_refs operand.now).bare (references.first_selected (map post_refs posts.now)) (expr_refs operand.now).refs at) }
{
    match bare_name(operand) {
        None => add_expr(refs, operand, at),
        Some(name) => match first_selected(posts) {
            None => add_expr(refs, operand, at),
            Some(selected) => add_qualified(refs, name, selected, at),
        },
    }
}

#[cycle(references)]
fn add_posts<'a>(
    refs: &mut List<Reference<'a>>,
    posts: &'a [Post],
    at: Position,
) -> Result<(), NoMemory>
    ensures { OnOk result (refs.new ≡ refs.old ++ joined (map post_refs_of (map post_refs posts.now)) at) }
{
    for post in posts {
        add_post(refs, post, at)?;
    }
    Ok(())
}

#[cycle(references)]
fn add_post<'a>(
    refs: &mut List<Reference<'a>>,
    post: &'a Post,
    at: Position,
) -> Result<(), NoMemory>
    ensures { OnOk result (refs.new ≡ refs.old ++ (post_refs post.now).refs at) }
{
    match post {
        Post::Selector(_) => Ok(()),
        Post::TypeAssertion(type_) => add_type(refs, type_.value(), at),
        Post::Index(index) => add_expr(refs, index.value(), at),
        Post::Slice(low, high) => {
            add_optional(refs, low, at)?;
            add_optional(refs, high, at)
        }
        Post::FullSlice(low, high, bound) => {
            add_optional(refs, low, at)?;
            add_expr(refs, high.value(), at)?;
            add_expr(refs, bound.value(), at)
        }
        Post::Call(arguments, _) => add_exprs(refs, arguments.items(), at),
        Post::CallReceiveChan(type_, arguments, _) => {
            add_type(refs, type_.value(), behind(at))?;
            add_exprs(refs, arguments.items(), at)
        }
    }
}

#[cycle(references)]
fn add_elements<'a>(
    refs: &mut List<Reference<'a>>,
    elements: &'a [Element],
    at: Position,
) -> Result<(), NoMemory>
    ensures { OnOk result (refs.new ≡ refs.old ++ joined (map element_refs elements.now) at) }
{
    for element in elements {
        if let Some(key) = &element.key {
            add_key(refs, key, at)?;
        }
        add_value(refs, &element.value, at)?;
    }
    Ok(())
}

#[cycle(references)]
fn add_key<'a>(
    refs: &mut List<Reference<'a>>,
    key: &'a ElementValue,
    at: Position,
) -> Result<(), NoMemory>
    ensures { OnOk result (refs.new ≡ refs.old ++ references.key_of (value_refs key.now).bare (value_refs key.now).refs at) }
{
    match bare_key(key) {
        None => add_value(refs, key, at),
        Some(name) => add_name(refs, name, true, at),
    }
}

#[cycle(references)]
fn add_value<'a>(
    refs: &mut List<Reference<'a>>,
    value: &'a ElementValue,
    at: Position,
) -> Result<(), NoMemory>
    ensures { OnOk result (refs.new ≡ refs.old ++ (value_refs value.now).refs at) }
{
    match value {
        ElementValue::Value(expr) => add_expr(refs, expr, at),
        ElementValue::Literal(elements) => add_elements(refs, elements.items(), at),
    }
}

#[cycle(references)]
fn add_type<'a>(
    refs: &mut List<Reference<'a>>,
    type_: &'a Type,
    at: Position,
) -> Result<(), NoMemory>
    ensures { OnOk result (refs.new ≡ refs.old ++ type_refs type_.now at) }
{
    match type_ {
        Type::Named(name) => add_type_name(refs, name, at),
        Type::Paren(inner) => add_type(refs, inner.value(), at),
        Type::Pointer(item)
        | Type::Slice(item)
        | Type::Chan(item)
        | Type::SendChan(item)
        | Type::ReceiveChan(item) => add_type(refs, item.value(), behind(at)),
        Type::Array(length, item) => {
            add_expr(refs, length.value(), inside_length(at))?;
            add_type(refs, item.value(), at)
        }
        Type::Map(key, item) => {
            add_type(refs, key.value(), behind(at))?;
            add_type(refs, item.value(), behind(at))
        }
        Type::Func(signature) => add_signature(refs, signature.value(), at),
        Type::Struct(fields) => add_fields(refs, fields.items(), at),
        Type::Interface(elements) => add_interface(refs, elements.items(), at),
    }
}

#[cycle(references)]
fn add_signature<'a>(
    refs: &mut List<Reference<'a>>,
    signature: &'a Signature,
    at: Position,
) -> Result<(), NoMemory>
    ensures { OnOk result (refs.new ≡ refs.old ++ signature_refs signature.now at) }
{
    let inside = behind(at);
    add_parameters(refs, signature.parameters.items(), inside)?;
    match &signature.result {
        None => Ok(()),
        Some(result) => add_result(refs, result, inside),
    }
}

#[cycle(references)]
fn add_result<'a>(
    refs: &mut List<Reference<'a>>,
    given: &'a FuncResult,
    at: Position,
) -> Result<(), NoMemory>
    ensures { OnOk result (refs.new ≡ refs.old ++ result_refs given.now at) }
{
    match given {
        FuncResult::Parameters(parameters) => { add_parameters(refs, parameters.items(), at) }
        FuncResult::Type(type_) => add_type(refs, type_, at),
    }
}

#[cycle(references)]
fn add_parameters<'a>(
    refs: &mut List<Reference<'a>>,
    parameters: &'a [ParameterDecl],
    at: Position,
) -> Result<(), NoMemory>
    ensures { OnOk result (refs.new ≡ refs.old ++ joined (map parameter_refs parameters.now) at) }
{
    for parameter in parameters {
        add_type(refs, &parameter.type_, at)?;
    }
    Ok(())
}

#[cycle(references)]
fn add_fields<'a>(
    refs: &mut List<Reference<'a>>,
    fields: &'a [FieldDecl],
    at: Position,
) -> Result<(), NoMemory>
    ensures { OnOk result (refs.new ≡ refs.old ++ joined (map field_refs fields.now) at) }
{
    for field in fields {
        match field {
            FieldDecl::Named(_, type_, _) => add_type(refs, type_, at)?,
            FieldDecl::Embedded(pointer, name, _) => {
                add_type_name(refs, name, behind_if(*pointer, at))?
            }
        }
    }
    Ok(())
}

#[cycle(references)]
fn add_interface<'a>(
    refs: &mut List<Reference<'a>>,
    elements: &'a [InterfaceElem],
    at: Position,
) -> Result<(), NoMemory>
    ensures { OnOk result (refs.new ≡ refs.old ++ joined (map interface_refs elements.now) at) }
{
    for element in elements {
        match element {
            InterfaceElem::Method(_, signature) => add_signature(refs, signature, at)?,
            InterfaceElem::Embedded(name) => add_type_name(refs, name, at)?,
        }
    }
    Ok(())
}

fn add_typed<'a>(
    refs: &mut List<Reference<'a>>,
    type_: &'a Option<Type>,
    values: &'a [Expr],
) -> Result<(), NoMemory>
    ensures { OnOk
        result
        (refs.new ≡ refs.old ++ (references.optional_type type_.now references.outermost ++ exprs_refs values.now references.outermost)) }
{
    if let Some(type_) = type_ {
        add_type(refs, type_, outermost())?;
    }
    add_exprs(refs, values, outermost())
}

fn add_const<'a>(refs: &mut List<Reference<'a>>, spec: &'a ConstSpec) -> Result<(), NoMemory>
    ensures { OnOk result (refs.new ≡ refs.old ++ references.const_references spec.now) }
{
    add_typed(refs, &spec.type_, spec.values.items())
}

fn add_var<'a>(refs: &mut List<Reference<'a>>, spec: &'a VarSpec) -> Result<(), NoMemory>
    ensures { OnOk result (refs.new ≡ refs.old ++ references.var_references spec.now) }
{
    add_typed(refs, &spec.type_, spec.values.items())
}

fn add_type_spec<'a>(refs: &mut List<Reference<'a>>, spec: &'a TypeSpec) -> Result<(), NoMemory>
    ensures { OnOk result (refs.new ≡ refs.old ++ references.type_references spec.now) }
{
    add_type(refs, &spec.type_, outermost())
}

fn add_func<'a>(refs: &mut List<Reference<'a>>, func: &'a Func) -> Result<(), NoMemory>
    ensures { OnOk result (refs.new ≡ refs.old ++ references.func_references func.now) }
{
    if let Some(receiver) = &func.receiver {
        add_type(refs, &receiver.type_, behind(outermost()))?;
    }
    add_signature(refs, &func.signature, outermost())
}

fn add_consts<'a>(refs: &mut List<Reference<'a>>, specs: &'a [ConstSpec]) -> Result<(), NoMemory>
    ensures { OnOk result (refs.new ≡ refs.old ++ references.all_specs (map references.const_references specs.now)) }
{
    for spec in specs {
        add_const(refs, spec)?;
    }
    Ok(())
}

fn add_vars<'a>(refs: &mut List<Reference<'a>>, specs: &'a [VarSpec]) -> Result<(), NoMemory>
    ensures { OnOk result (refs.new ≡ refs.old ++ references.all_specs (map references.var_references specs.now)) }
{
    for spec in specs {
        add_var(refs, spec)?;
    }
    Ok(())
}

fn add_types<'a>(refs: &mut List<Reference<'a>>, specs: &'a [TypeSpec]) -> Result<(), NoMemory>
    ensures { OnOk result (refs.new ≡ refs.old ++ references.all_specs (map references.type_references specs.now)) }
{
    for spec in specs {
        add_type_spec(refs, spec)?;
    }
    Ok(())
}

// No reference, with room for as many as most declarations have.
fn begun<'a>(alloc: Global) -> Result<List<Reference<'a>>, NoMemory>
    ensures { IfOk result (λ refs. refs ≡ []) }
{
    List::with_room(alloc, 8)
}

/// The references of a type's declaration, in order.
pub fn type_references<'a>(
    alloc: Global,
    spec: &'a TypeSpec,
) -> Result<List<Reference<'a>>, NoMemory>
    ensures { IfOk result (λ refs. refs ≡ references.type_references spec.now) }
{
    let mut refs = begun(alloc)?;
    add_type_spec(&mut refs, spec)?;
    Ok(refs)
}

/// The references of a function outside of its body, in order.
pub fn func_references<'a>(alloc: Global, func: &'a Func) -> Result<List<Reference<'a>>, NoMemory>
    ensures { IfOk result (λ refs. refs ≡ references.func_references func.now) }
{
    let mut refs = begun(alloc)?;
    add_func(&mut refs, func)?;
    Ok(refs)
}

/// The references of a type, where there is one, and of values, in order.
pub fn typed_references<'a>(
    alloc: Global,
    type_: Option<&'a Type>,
    values: &'a [Expr],
) -> Result<List<Reference<'a>>, NoMemory>
    ensures { IfOk result (λ refs. refs ≡ references.optional_type (item_of type_.entry) references.outermost ++ exprs_refs values.now references.outermost) }
{
    let mut refs = begun(alloc)?;
    if let Some(type_) = type_ {
        add_type(&mut refs, type_, outermost())?;
    }
    add_exprs(&mut refs, values, outermost())?;
    Ok(refs)
}

/// The references of a method outside of its body, in order: those of its receiver's type and of its signature.
pub fn method_references<'a>(
    alloc: Global,
    receiver: &'a ParameterDecl,
    func: &'a Func,
) -> Result<List<Reference<'a>>, NoMemory>
    ensures { IfOk result (λ refs. refs ≡ references.parameter_refs receiver.now (references.behind references.outermost) ++ signature_refs func.now.signature references.outermost) }
{
    let mut refs = begun(alloc)?;
    add_type(&mut refs, &receiver.type_, behind(outermost()))?;
    add_signature(&mut refs, &func.signature, outermost())?;
    Ok(refs)
}

/// The references of a declaration outside of bodies: those of its specs, one after another.
pub fn decl_references<'a>(alloc: Global, decl: &'a Decl) -> Result<List<Reference<'a>>, NoMemory>
    ensures { IfOk result (λ refs. refs ≡ references.references_of decl.now) }
{
    let mut refs = begun(alloc)?;
    match decl {
        Decl::ConstGroup(specs) => add_consts(&mut refs, specs.items())?,
        Decl::VarGroup(specs) => add_vars(&mut refs, specs.items())?,
        Decl::TypeGroup(specs) => add_types(&mut refs, specs.items())?,
        Decl::FuncDecl(func) => add_func(&mut refs, func.value())?,
    }
    Ok(refs)
}

/// The names by which a declaration refers to others outside of bodies, in order, each as often as
/// it stands.
pub fn decl_refs(alloc: Global, decl: &Decl) -> Result<List<Name>, NoMemory>
    ensures { IfOk result (λ refs. refs ≡ references.refs_of decl.now) }
{
    let refs = decl_references(alloc, decl)?;
    let mut names = List::new(alloc);
    for reference in refs.items() {
        names.push(copy(alloc, reference.name)?)?;
    }
    Ok(names)
}
