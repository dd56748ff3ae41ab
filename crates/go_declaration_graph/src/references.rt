//! The names by which a declaration refers to others, outside of bodies.
ghost use Rattle.std.specs.Prelude.{◌≡◌, ◌||◌, filter, IfOk};
ghost use Rattle.go_declarations.specs.Forms.{form_of};
ghost use Rattle.go_references.specs.References.{in_lengths};
ghost use Rattle.go_typings.specs.DeclarationNodes as nodes;
ghost use Rattle.go_declaration_graph.specs.inner.Rows.{picked};

use crate::lengths::lacks_lengths;
use go_base::list::List;
use go_base::memory::NoMemory;
use go_declarations::form::Form;
use go_references::references::{
    Reference, func_references, method_references, type_references, typed_references,
};
use go_syntax::declaration::VarSpec;
use std::alloc::Global;

/// Of which references of a declaration a row tells the declarations.
#[derive(Clone, Copy)]
pub(crate) enum Kind {
    /// Those that have to be settled first.
    Strong,
    /// Those that stand in the length of an array.
    InLengths,
}

// Those that stand by value or in the length of an array.
fn by_value_or_in_length<'a>(
    alloc: Global,
    references: List<Reference<'a>>,
) -> Result<List<Reference<'a>>, NoMemory>
    ensures { IfOk result (λ rs. rs ≡ filter (λ r. r.by_value || r.in_length) references.entry) }
{
    let mut kept = List::new(alloc);
    for reference in references.into_vec() {
        if reference.by_value || reference.in_length {
            kept.push(reference)?;
        }
    }
    Ok(kept)
}

// Those that stand in the length of an array.
fn in_lengths<'a>(
    alloc: Global,
    references: List<Reference<'a>>,
) -> Result<List<Reference<'a>>, NoMemory>
    ensures { IfOk result (λ rs. rs ≡ in_lengths references.entry) }
{
    let mut kept = List::new(alloc);
    for reference in references.into_vec() {
        if reference.in_length {
            kept.push(reference)?;
        }
    }
    Ok(kept)
}

/// The references of a declaration.
pub(crate) fn all_references<'a>(
    alloc: Global,
    form: Form<'a>,
) -> Result<List<Reference<'a>>, NoMemory>
    ensures { IfOk result (λ rs. rs ≡ nodes.references (form_of form.entry)) }
{
    match form {
        Form::Constants(spec) => typed_references(alloc, spec.type_, spec.values),
        Form::Variables(spec) => {
            typed_references(alloc, spec.type_.as_ref(), spec.values.items())
        }
        Form::Alias(spec) => type_references(alloc, spec),
        Form::Definition(spec) => type_references(alloc, spec),
        Form::Function(func) => func_references(alloc, func),
        Form::Method(receiver, func) => method_references(alloc, receiver, func),
    }
}

// Those of variables that have to be settled first: those of their type, or else of their values.
fn variable_references<'a>(
    alloc: Global,
    spec: &'a VarSpec,
) -> Result<List<Reference<'a>>, NoMemory>
    ensures { IfOk result (λ rs. rs ≡ nodes.variable_references spec.now.type_ spec.now) }
{
    match &spec.type_ {
        Some(form) => typed_references(alloc, Some(form), &[]),
        None => typed_references(alloc, None, spec.values.items()),
    }
}

// Those that have to be settled first.
fn strong_references<'a>(alloc: Global, form: Form<'a>) -> Result<List<Reference<'a>>, NoMemory>
    ensures { IfOk result (λ rs. rs ≡ nodes.strong_references (form_of form.entry)) }
{
    match form {
        Form::Constants(_) => all_references(alloc, form),
        Form::Variables(spec) => variable_references(alloc, spec),
        Form::Alias(_) | Form::Definition(_) => by_value_or_in_length(
            alloc,
            all_references(alloc, form)?,
        ),
        Form::Function(_) | Form::Method(_, _) => Ok(List::new(alloc)),
    }
}

// Those that stand in the length of an array, in the declaration of a type, a function or a method.
fn length_references<'a>(alloc: Global, form: Form<'a>) -> Result<List<Reference<'a>>, NoMemory>
    ensures { IfOk result (λ rs. rs ≡ nodes.length_references (form_of form.entry)) }
{
    if lacks_lengths(form) {
        return Ok(List::new(alloc));
    }
    match form {
        Form::Constants(_) | Form::Variables(_) => Ok(List::new(alloc)),
        _ => in_lengths(alloc, all_references(alloc, form)?),
    }
}

/// The references of a kind.
pub(crate) fn picked_references<'a>(
    alloc: Global,
    kind: Kind,
    form: Form<'a>,
) -> Result<List<Reference<'a>>, NoMemory>
    ensures { IfOk result (λ rs. rs ≡ picked kind (form_of form.entry)) }
{
    match kind {
        Kind::Strong => strong_references(alloc, form),
        Kind::InLengths => length_references(alloc, form),
    }
}
