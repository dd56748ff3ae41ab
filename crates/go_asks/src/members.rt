//! Fields of struct types and elements of interface types.
ghost use Rattle.std.specs.Prelude.{IfOk};
ghost use Rattle.go_base.specs.Lists.{Each, Once};
ghost use Rattle.go_rules.specs.Asks.{AreDistinctNames, ElementMeets, FieldMeets, fields_names, methods_names};
ghost use Rattle.go_selectors.specs.Answers.{Decides};
ghost use Rattle.go_syntax.specs.declared.types.FieldDecl.{out-FieldDecl};
ghost use Rattle.go_syntax.specs.declared.types.InterfaceElem.{out-InterfaceElem};
ghost use Rattle.go_type_terms.specs.Answers.{env_in};

use crate::embedding::{embeds_field, embeds_interface};
use go_base::memory::NoMemory;
use go_expr::go_usability::context::Context;
use go_nodes::distinct::{are_distinct, are_once};
use go_nodes::names::{fields_names, methods_names};
use go_rules::blank::is_blank;
use go_syntax::types::{FieldDecl, InterfaceElem};
use std::alloc::Global;

fn field_meets(context: &Context<'_>, alloc: Global, decl: &FieldDecl) -> Result<bool, NoMemory>
    ensures { IfOk result (λ answer. Decides answer (FieldMeets (env_in context.now) (out-FieldDecl decl.now))) }
{
    match decl {
        FieldDecl::Named(_, _, _) => Ok(true),
        FieldDecl::Embedded(star, name, _) => embeds_field(context, alloc, *star, name),
    }
}

fn fields_meet(context: &Context<'_>, alloc: Global, decls: &[FieldDecl]) -> Result<bool, NoMemory>
    ensures { IfOk result (λ answer. Decides answer (Each (λ d. FieldMeets (env_in context.now) (out-FieldDecl d)) decls.now)) }
{
    for decl in decls {
        if !field_meets(context, alloc, decl)? {
            return Ok(false);
        }
    }
    Ok(true)
}

/// Whether the fields of a struct type have distinct names, and each embedded one may be embedded.
pub(crate) fn structure_meets(
    context: &Context<'_>,
    alloc: Global,
    decls: &[FieldDecl],
) -> Result<bool, NoMemory>
    ensures { IfOk result (λ answer. Decides answer (AreDistinctNames (fields_names decls.now) × Each (λ d. FieldMeets (env_in context.now) (out-FieldDecl d)) decls.now)) }
{
    let names = fields_names(alloc, decls)?;
    if !are_distinct(alloc, names.items())? {
        return Ok(false);
    }
    let each = fields_meet(context, alloc, decls)?;
    Ok(each)
}

fn element_meets(
    context: &Context<'_>,
    alloc: Global,
    element: &InterfaceElem,
) -> Result<bool, NoMemory>
    ensures { IfOk result (λ answer. Decides answer (ElementMeets (env_in context.now) (out-InterfaceElem element.now))) }
{
    match element {
        InterfaceElem::Method(name, _) => Ok(!is_blank(name.text.bytes())),
        InterfaceElem::Embedded(name) => embeds_interface(context, alloc, name),
    }
}

fn elements_meet(
    context: &Context<'_>,
    alloc: Global,
    elements: &[InterfaceElem],
) -> Result<bool, NoMemory>
    ensures { IfOk result (λ answer. Decides answer (Each (λ x. ElementMeets (env_in context.now) (out-InterfaceElem x)) elements.now)) }
{
    for element in elements {
        if !element_meets(context, alloc, element)? {
            return Ok(false);
        }
    }
    Ok(true)
}

/// Whether no two methods that stand in an interface type itself have one name, none is blank, and each
/// embedded interface may be embedded.
pub(crate) fn interface_meets(
    context: &Context<'_>,
    alloc: Global,
    elements: &[InterfaceElem],
) -> Result<bool, NoMemory>
    ensures { IfOk result (λ answer. Decides answer (Once (methods_names elements.now) × Each (λ x. ElementMeets (env_in context.now) (out-InterfaceElem x)) elements.now)) }
{
    let names = methods_names(alloc, elements)?;
    if !are_once(alloc, names.items())? {
        return Ok(false);
    }
    let each = elements_meet(context, alloc, elements)?;
    Ok(each)
}
