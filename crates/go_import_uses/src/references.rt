//! The names by which a declaration refers to others, outside of bodies.
ghost use Rattle.std.specs.Prelude.{◌≡◌, IfOk};
ghost use Rattle.go_declarations.specs.Forms.{form_of};
ghost use Rattle.go_references.specs.References.{is_selected};
ghost use Rattle.go_typings.specs.DeclarationNodes as nodes;

use go_base::list::List;
use go_base::memory::NoMemory;
use go_declarations::form::Form;
use go_references::references::{
    Reference, func_references, method_references, type_references, typed_references,
};
use std::alloc::Global;

/// The references of a declaration.
pub(crate) fn references<'a>(alloc: Global, form: Form<'a>) -> Result<List<Reference<'a>>, NoMemory>
    ensures { IfOk result (λ rs. rs ≡ nodes.references (form_of form.entry)) }
{
    match form {
        Form::Constants(spec) => typed_references(alloc, spec.type_, spec.values),
        Form::Variables(spec) => {
            typed_references(alloc, spec.type_.as_ref(), spec.values.items())
        }
        Form::Alias(spec) => type_references(alloc, spec),
        Form::Definition(spec) => type_references(alloc, spec),
        Form::Function(func) => func_references(alloc, func),
        Form::Method(receiver, func) => method_references(alloc, receiver, func),
    }
}

/// Whether a reference stands before a name that it selects.
pub(crate) fn is_selected(reference: &Reference<'_>) -> bool
    ensures { result ≡ is_selected reference.now.selected }
{
    match reference.selected {
        Some(_) => true,
        None => false,
    }
}
