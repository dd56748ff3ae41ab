//! Types and expressions, written as trees. Each part begins with a blank.
use crate::file::push_body;
use go_base::boxed::Box;
use go_base::operator::{CompareOp, PrefixOperator, ProductOperator, SumOperator};
use go_base::text::Text;
use go_syntax::expression::{Element, ElementValue, Expr, Literal, Post};
use go_syntax::name::{Name, QualifiedName};
use go_syntax::types::{FieldDecl, FuncResult, InterfaceElem, ParameterDecl, Signature, Type};
use std::alloc::{AllocError, Global};

/// Writes a text as it is.
pub fn push_word(out: &mut Vec<u8>, word: &str) -> Result<(), AllocError> {
    out.extend_from_slice(word.as_bytes())
}

/// Writes a number.
pub fn push_number(alloc: Global, out: &mut Vec<u8>, number: u32) -> Result<(), AllocError> {
    let digits = format!(in alloc; " {number}")?;
    push_word(out, digits.as_str())
}

/// Writes the bytes of a text.
pub fn push_text(alloc: Global, out: &mut Vec<u8>, text: &Text) -> Result<(), AllocError> {
    let digits = hex::encode(alloc, text.bytes())?;
    push_word(out, " text:")?;
    push_word(out, digits.as_str())
}

fn push_optional_text(
    alloc: Global,
    out: &mut Vec<u8>,
    text: &Option<Text>,
) -> Result<(), AllocError> {
    match text {
        Some(text) => push_text(alloc, out, text),
        None => push_word(out, " -"),
    }
}

/// Writes a name and its offset.
pub fn push_name(alloc: Global, out: &mut Vec<u8>, name: &Name) -> Result<(), AllocError> {
    push_word(out, " ")?;
    out.extend_from_slice(name.text.bytes())?;
    let place = format!(in alloc; "@{}", name.place)?;
    push_word(out, place.as_str())
}

/// Writes names.
pub fn push_names(alloc: Global, out: &mut Vec<u8>, names: &[Name]) -> Result<(), AllocError> {
    push_word(out, " (names")?;
    for name in names {
        push_name(alloc, out, name)?;
    }
    push_word(out, ")")
}

fn push_qualified(
    alloc: Global,
    out: &mut Vec<u8>,
    name: &QualifiedName,
) -> Result<(), AllocError> {
    match &name.qualifier {
        None => push_name(alloc, out, &name.name),
        Some(qualifier) => {
            push_word(out, " (of")?;
            push_name(alloc, out, qualifier)?;
            push_name(alloc, out, &name.name)?;
            push_word(out, ")")
        }
    }
}

fn push_literal(alloc: Global, out: &mut Vec<u8>, literal: &Literal) -> Result<(), AllocError> {
    match literal {
        Literal::Int(number) => {
            let digits = format!(in alloc; " {number}")?;
            push_word(out, digits.as_str())
        }
        Literal::Wide => push_word(out, " wide"),
        Literal::Float => push_word(out, " float"),
        Literal::Imaginary => push_word(out, " imaginary"),
        Literal::Rune(code) => {
            let digits = format!(in alloc; " rune:{code}")?;
            push_word(out, digits.as_str())
        }
        Literal::Str(text) => push_text(alloc, out, text),
    }
}

fn prefix_word(op: PrefixOperator) -> &'static str {
    match op {
        PrefixOperator::Plus => " +",
        PrefixOperator::Minus => " -",
        PrefixOperator::Not => " !",
        PrefixOperator::Xor => " ^",
        PrefixOperator::Dereference => " *",
        PrefixOperator::Address => " &",
        PrefixOperator::Receive => " <-",
    }
}

fn compare_word(op: CompareOp) -> &'static str {
    match op {
        CompareOp::Equal => " ==",
        CompareOp::NotEqual => " !=",
        CompareOp::Less => " <",
        CompareOp::LessEqual => " <=",
        CompareOp::Greater => " >",
        CompareOp::GreaterEqual => " >=",
    }
}

/// An operator of a sum.
pub fn sum_word(op: SumOperator) -> &'static str {
    match op {
        SumOperator::Add => " +",
        SumOperator::Subtract => " -",
        SumOperator::Or => " |",
        SumOperator::Xor => " ^",
    }
}

/// An operator of a product.
pub fn product_word(op: ProductOperator) -> &'static str {
    match op {
        ProductOperator::Multiply => " *",
        ProductOperator::Divide => " /",
        ProductOperator::Remainder => " %",
        ProductOperator::ShiftLeft => " <<",
        ProductOperator::ShiftRight => " >>",
        ProductOperator::And => " &",
        ProductOperator::AndNot => " &^",
    }
}

fn push_compare_ops(out: &mut Vec<u8>, ops: &[CompareOp]) -> Result<(), AllocError> {
    push_word(out, " (compare (operators")?;
    for op in ops {
        push_word(out, compare_word(*op))?;
    }
    push_word(out, ")")
}

fn push_sum_ops(out: &mut Vec<u8>, ops: &[SumOperator]) -> Result<(), AllocError> {
    push_word(out, " (sum (operators")?;
    for op in ops {
        push_word(out, sum_word(*op))?;
    }
    push_word(out, ")")
}

fn push_product_ops(out: &mut Vec<u8>, ops: &[ProductOperator]) -> Result<(), AllocError> {
    push_word(out, " (product (operators")?;
    for op in ops {
        push_word(out, product_word(*op))?;
    }
    push_word(out, ")")
}

// What opens a chain of operators, an operator before an operand, or parentheses.
fn push_head(out: &mut Vec<u8>, expr: &Expr) -> Result<(), AllocError> {
    match expr {
        Expr::Or(_, _) => push_word(out, " (or"),
        Expr::And(_, _) => push_word(out, " (and"),
        Expr::Compare(_, ops, _) => push_compare_ops(out, ops.items()),
        Expr::Sum(_, ops, _) => push_sum_ops(out, ops.items()),
        Expr::Product(_, ops, _) => push_product_ops(out, ops.items()),
        Expr::Prefix(op, _) => {
            push_word(out, " (prefix")?;
            push_word(out, prefix_word(*op))
        }
        Expr::Paren(_) => push_word(out, " (paren"),
        _ => Ok(()),
    }
}

/// Writes an expression.
#[cycle(tree)]
pub fn push_expr(alloc: Global, out: &mut Vec<u8>, expr: &Expr) -> Result<(), AllocError> {
    push_head(out, expr)?;
    match expr {
        Expr::Or(first, others)
        | Expr::And(first, others)
        | Expr::Compare(first, _, others)
        | Expr::Sum(first, _, others)
        | Expr::Product(first, _, others) => {
            push_expr(alloc, out, first.value())?;
            push_exprs(alloc, out, others.items())?;
            push_word(out, ")")
        }
        Expr::Prefix(_, operand) | Expr::Paren(operand) => {
            push_expr(alloc, out, operand.value())?;
            push_word(out, ")")
        }
        Expr::Primary(operand, posts) => {
            push_word(out, " (primary")?;
            push_expr(alloc, out, operand.value())?;
            push_posts(alloc, out, posts.items())
        }
        Expr::Literal(literal) => push_literal(alloc, out, literal),
        Expr::Name(name) => push_name(alloc, out, name),
        Expr::FuncLit(signature, body) => {
            push_word(out, " (function")?;
            push_signature(alloc, out, signature.value())?;
            push_body(alloc, out, body)?;
            push_word(out, ")")
        }
        Expr::Composite(type_, elements) => {
            push_word(out, " (composite")?;
            push_type(alloc, out, type_.value())?;
            push_elements(alloc, out, elements.items())
        }
        Expr::CompositeArray(type_, elements) => {
            push_word(out, " (composite-array")?;
            push_type(alloc, out, type_.value())?;
            push_elements(alloc, out, elements.items())
        }
        Expr::Type(type_) => push_labelled(alloc, out, " (type", type_.value()),
        Expr::ParenReceiveChan(type_) => push_labelled(
            alloc,
            out,
            " (paren-receive",
            type_.value(),
        ),
    }
}

/// Writes expressions.
#[cycle(tree)]
pub fn push_exprs(alloc: Global, out: &mut Vec<u8>, exprs: &[Expr]) -> Result<(), AllocError> {
    for expr in exprs {
        push_expr(alloc, out, expr)?;
    }
    Ok(())
}

#[cycle(tree)]
fn push_optional_expr(
    alloc: Global,
    out: &mut Vec<u8>,
    expr: &Option<Box<Expr>>,
) -> Result<(), AllocError> {
    match expr {
        Some(expr) => push_expr(alloc, out, expr.value()),
        None => push_word(out, " -"),
    }
}

// A type behind a word, and what closes the part.
#[cycle(tree)]
fn push_labelled(
    alloc: Global,
    out: &mut Vec<u8>,
    word: &str,
    type_: &Type,
) -> Result<(), AllocError> {
    push_word(out, word)?;
    push_type(alloc, out, type_)?;
    push_word(out, ")")
}

#[cycle(tree)]
fn push_posts(alloc: Global, out: &mut Vec<u8>, posts: &[Post]) -> Result<(), AllocError> {
    for post in posts {
        push_post(alloc, out, post)?;
    }
    push_word(out, ")")
}

#[cycle(tree)]
fn push_post(alloc: Global, out: &mut Vec<u8>, post: &Post) -> Result<(), AllocError> {
    match post {
        Post::Selector(name) => {
            push_word(out, " (selector")?;
            push_name(alloc, out, name)?;
        }
        Post::TypeAssertion(type_) => {
            push_word(out, " (assertion")?;
            push_type(alloc, out, type_.value())?;
        }
        Post::Index(index) => {
            push_word(out, " (index")?;
            push_expr(alloc, out, index.value())?;
        }
        Post::Slice(low, high) => {
            push_word(out, " (slice")?;
            push_optional_expr(alloc, out, low)?;
            push_optional_expr(alloc, out, high)?;
        }
        Post::FullSlice(low, high, bound) => {
            push_word(out, " (slice")?;
            push_optional_expr(alloc, out, low)?;
            push_expr(alloc, out, high.value())?;
            push_expr(alloc, out, bound.value())?;
        }
        Post::Call(arguments, variadic) => {
            push_word(
                out,
                if *variadic {
                    " (call-variadic"
                } else {
                    " (call"
                },
            )?;
            push_exprs(alloc, out, arguments.items())?;
        }
        Post::CallReceiveChan(type_, arguments, variadic) => {
            push_word(
                out,
                if *variadic {
                    " (call-variadic"
                } else {
                    " (call"
                },
            )?;
            push_labelled(alloc, out, " (receive", type_.value())?;
            push_exprs(alloc, out, arguments.items())?;
        }
    }
    push_word(out, ")")
}

#[cycle(tree)]
fn push_elements(alloc: Global, out: &mut Vec<u8>, elements: &[Element]) -> Result<(), AllocError> {
    for element in elements {
        match &element.key {
            Some(key) => {
                push_word(out, " (keyed")?;
                push_value(alloc, out, key)?;
                push_value(alloc, out, &element.value)?;
                push_word(out, ")")?;
            }
            None => push_value(alloc, out, &element.value)?,
        }
    }
    push_word(out, ")")
}

#[cycle(tree)]
fn push_value(alloc: Global, out: &mut Vec<u8>, value: &ElementValue) -> Result<(), AllocError> {
    match value {
        ElementValue::Value(expr) => push_expr(alloc, out, expr),
        ElementValue::Literal(elements) => {
            push_word(out, " (elements")?;
            push_elements(alloc, out, elements.items())
        }
    }
}

/// Writes a type.
#[cycle(tree)]
pub fn push_type(alloc: Global, out: &mut Vec<u8>, type_: &Type) -> Result<(), AllocError> {
    match type_ {
        Type::Named(name) => push_qualified(alloc, out, name),
        Type::Paren(base) => push_boxed(alloc, out, " (paren", base),
        Type::Pointer(base) => push_boxed(alloc, out, " (pointer", base),
        Type::Slice(element) => push_boxed(alloc, out, " (slice", element),
        Type::Array(length, element) => {
            push_word(out, " (array")?;
            push_expr(alloc, out, length.value())?;
            push_type(alloc, out, element.value())?;
            push_word(out, ")")
        }
        Type::Map(key, element) => {
            push_word(out, " (map")?;
            push_type(alloc, out, key.value())?;
            push_type(alloc, out, element.value())?;
            push_word(out, ")")
        }
        Type::Chan(element) => push_boxed(alloc, out, " (chan", element),
        Type::SendChan(element) => push_boxed(alloc, out, " (send", element),
        Type::ReceiveChan(element) => push_boxed(alloc, out, " (receive", element),
        Type::Func(signature) => push_signature(alloc, out, signature.value()),
        Type::Struct(fields) => push_fields(alloc, out, fields.items()),
        Type::Interface(elements) => push_interface(alloc, out, elements.items()),
    }
}

#[cycle(tree)]
fn push_boxed(
    alloc: Global,
    out: &mut Vec<u8>,
    word: &str,
    type_: &Box<Type>,
) -> Result<(), AllocError> {
    push_word(out, word)?;
    push_type(alloc, out, type_.value())?;
    push_word(out, ")")
}

/// Writes a type, if there is one.
pub fn push_optional_type(
    alloc: Global,
    out: &mut Vec<u8>,
    type_: &Option<Type>,
) -> Result<(), AllocError> {
    match type_ {
        Some(type_) => push_type(alloc, out, type_),
        None => push_word(out, " -"),
    }
}

/// Writes a signature.
#[cycle(tree)]
pub fn push_signature(
    alloc: Global,
    out: &mut Vec<u8>,
    signature: &Signature,
) -> Result<(), AllocError> {
    push_word(out, " (signature (parameters")?;
    push_parameters(alloc, out, signature.parameters.items())?;
    match &signature.result {
        Some(FuncResult::Parameters(results)) => {
            push_word(out, " (results")?;
            push_parameters(alloc, out, results.items())?;
        }
        Some(FuncResult::Type(type_)) => push_type(alloc, out, type_)?,
        None => push_word(out, " -")?,
    }
    push_word(out, ")")
}

#[cycle(tree)]
fn push_parameters(
    alloc: Global,
    out: &mut Vec<u8>,
    parameters: &[ParameterDecl],
) -> Result<(), AllocError> {
    for parameter in parameters {
        push_parameter(alloc, out, parameter)?;
    }
    push_word(out, ")")
}

/// Writes a parameter declaration.
#[cycle(tree)]
pub fn push_parameter(
    alloc: Global,
    out: &mut Vec<u8>,
    parameter: &ParameterDecl,
) -> Result<(), AllocError> {
    push_word(
        out,
        if parameter.variadic {
            " (variadic"
        } else {
            " (parameter"
        },
    )?;
    push_names(alloc, out, parameter.names.items())?;
    push_type(alloc, out, &parameter.type_)?;
    push_word(out, ")")
}

#[cycle(tree)]
fn push_fields(alloc: Global, out: &mut Vec<u8>, fields: &[FieldDecl]) -> Result<(), AllocError> {
    push_word(out, " (struct")?;
    for field in fields {
        push_field(alloc, out, field)?;
    }
    push_word(out, ")")
}

#[cycle(tree)]
fn push_field(alloc: Global, out: &mut Vec<u8>, field: &FieldDecl) -> Result<(), AllocError> {
    let tag = match field {
        FieldDecl::Named(names, type_, tag) => {
            push_word(out, " (field")?;
            push_names(alloc, out, names.items())?;
            push_type(alloc, out, type_)?;
            tag
        }
        FieldDecl::Embedded(pointer, name, tag) => {
            push_word(
                out,
                if *pointer {
                    " (embedded-pointer"
                } else {
                    " (embedded"
                },
            )?;
            push_qualified(alloc, out, name)?;
            tag
        }
    };
    push_optional_text(alloc, out, tag)?;
    push_word(out, ")")
}

#[cycle(tree)]
fn push_interface(
    alloc: Global,
    out: &mut Vec<u8>,
    elements: &[InterfaceElem],
) -> Result<(), AllocError> {
    push_word(out, " (interface")?;
    for element in elements {
        match element {
            InterfaceElem::Method(name, signature) => {
                push_word(out, " (method")?;
                push_name(alloc, out, name)?;
                push_signature(alloc, out, signature)?;
                push_word(out, ")")?;
            }
            InterfaceElem::Embedded(name) => push_qualified(alloc, out, name)?,
        }
    }
    push_word(out, ")")
}
