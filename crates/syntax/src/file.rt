//! Files and declarations, written as trees.
use crate::tree::{
    push_exprs, push_name, push_names, push_number, push_optional_type, push_parameter,
    push_signature, push_text, push_type, push_word,
};
use go_syntax::body::BodyRange;
use go_syntax::declaration::{ConstSpec, Decl, File, Func, ImportSpec, TypeSpec, VarSpec};
use go_syntax::expression::Expr;
use go_syntax::name::Name;
use go_syntax::types::Type;
use std::alloc::{AllocError, Global};

fn push_import(alloc: Global, out: &mut Vec<u8>, spec: &ImportSpec) -> Result<(), AllocError> {
    push_word(out, " (import")?;
    match &spec.name {
        Some(name) => push_name(alloc, out, name)?,
        None => push_word(out, " -")?,
    }
    push_text(alloc, out, &spec.path)?;
    push_number(alloc, out, spec.place)?;
    push_word(out, ")")
}

// A spec of constants or variables.
fn push_spec(
    alloc: Global,
    out: &mut Vec<u8>,
    names: &[Name],
    type_: &Option<Type>,
    values: &[Expr],
) -> Result<(), AllocError> {
    push_word(out, " (spec")?;
    push_names(alloc, out, names)?;
    push_optional_type(alloc, out, type_)?;
    push_word(out, " (values")?;
    push_exprs(alloc, out, values)?;
    push_word(out, "))")
}

/// Writes specs of constants.
pub fn push_consts(
    alloc: Global,
    out: &mut Vec<u8>,
    specs: &[ConstSpec],
) -> Result<(), AllocError> {
    push_word(out, " (const")?;
    for spec in specs {
        push_spec(
            alloc,
            out,
            spec.names.items(),
            &spec.type_,
            spec.values.items(),
        )?;
    }
    push_word(out, ")")
}

/// Writes specs of variables.
pub fn push_vars(alloc: Global, out: &mut Vec<u8>, specs: &[VarSpec]) -> Result<(), AllocError> {
    push_word(out, " (var")?;
    for spec in specs {
        push_spec(
            alloc,
            out,
            spec.names.items(),
            &spec.type_,
            spec.values.items(),
        )?;
    }
    push_word(out, ")")
}

fn push_types(alloc: Global, out: &mut Vec<u8>, specs: &[TypeSpec]) -> Result<(), AllocError> {
    push_word(out, " (types")?;
    for spec in specs {
        push_word(out, if spec.alias { " (alias" } else { " (define" })?;
        push_name(alloc, out, &spec.name)?;
        push_type(alloc, out, &spec.type_)?;
        push_word(out, ")")?;
    }
    push_word(out, ")")
}

/// Writes where a body stands.
pub fn push_body(alloc: Global, out: &mut Vec<u8>, body: &BodyRange) -> Result<(), AllocError> {
    push_word(out, " (body")?;
    push_number(alloc, out, body.start)?;
    push_number(alloc, out, body.end)?;
    push_word(out, ")")
}

fn push_func(alloc: Global, out: &mut Vec<u8>, func: &Func) -> Result<(), AllocError> {
    push_word(out, " (func")?;
    match &func.receiver {
        Some(receiver) => push_parameter(alloc, out, receiver)?,
        None => push_word(out, " -")?,
    }
    push_name(alloc, out, &func.name)?;
    push_signature(alloc, out, &func.signature)?;
    match &func.body {
        Some(body) => push_body(alloc, out, body)?,
        None => push_word(out, " -")?,
    }
    push_word(out, ")")
}

/// Writes a file.
pub fn push_file(alloc: Global, out: &mut Vec<u8>, file: &File) -> Result<(), AllocError> {
    push_word(out, "(file")?;
    push_name(alloc, out, &file.package)?;
    for spec in file.imports.items() {
        push_import(alloc, out, spec)?;
    }
    for decl in file.decls.items() {
        match decl {
            Decl::ConstGroup(specs) => push_consts(alloc, out, specs.items())?,
            Decl::VarGroup(specs) => push_vars(alloc, out, specs.items())?,
            Decl::TypeGroup(specs) => push_types(alloc, out, specs.items())?,
            Decl::FuncDecl(func) => push_func(alloc, out, func.value())?,
        }
    }
    push_word(out, ")")
}
