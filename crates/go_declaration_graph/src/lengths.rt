//! Whether names stand in the lengths of arrays.
ghost use Rattle.std.specs.Prelude.{◌≡◌, true, map, []};
ghost use Rattle.go_declarations.specs.Forms.{form_of};
ghost use Rattle.go_references.specs.References.{func_references, in_lengths, joined, parameter_refs, result_refs, signature_refs, type_refs};
ghost use Rattle.go_typings.specs.DeclarationNodes.{length_references, method_references};
ghost use Rattle.go_declaration_graph.specs.inner.Lengths.{NoLength};

use go_declarations::form::Form;
use go_syntax::declaration::Func;
use go_syntax::types::{FuncResult, ParameterDecl, Signature, Type};

// Whether it is easily seen that no name stands in a length in a type.
fn type_lacks(type_: &Type) -> bool
    ensures { result ≡ true → NoLength (type_refs type_.now) }
{
    match type_ {
        Type::Named(_) => true,
        Type::Paren(item)
        | Type::Pointer(item)
        | Type::Slice(item)
        | Type::Chan(item)
        | Type::SendChan(item)
        | Type::ReceiveChan(item) => type_lacks(item.value()),
        Type::Map(key, item) => type_lacks(key.value()) && type_lacks(item.value()),
        Type::Struct(fields) => fields.items().is_empty(),
        Type::Interface(elements) => elements.items().is_empty(),
        Type::Array(_, _) | Type::Func(_) => false,
    }
}

fn parameters_lack(parameters: &[ParameterDecl]) -> bool
    ensures { result ≡ true → NoLength (joined (map parameter_refs parameters.now)) }
{
    for parameter in parameters {
        if !type_lacks(&parameter.type_) {
            return false;
        }
    }
    true
}

fn result_lacks(given: &FuncResult) -> bool
    ensures { result ≡ true → NoLength (result_refs given.now) }
{
    match given {
        FuncResult::Parameters(parameters) => parameters_lack(parameters.items()),
        FuncResult::Type(type_) => type_lacks(type_),
    }
}

fn signature_lacks(signature: &Signature) -> bool
    ensures { result ≡ true → NoLength (signature_refs signature.now) }
{
    if !parameters_lack(signature.parameters.items()) {
        return false;
    }
    match &signature.result {
        None => true,
        Some(given) => result_lacks(given),
    }
}

fn func_lacks(func: &Func) -> bool
    ensures { result ≡ true → in_lengths (func_references func.now) ≡ [] }
{
    if !signature_lacks(&func.signature) {
        return false;
    }
    match &func.receiver {
        None => true,
        Some(receiver) => type_lacks(&receiver.type_),
    }
}

fn method_lacks(receiver: &ParameterDecl, func: &Func) -> bool
    ensures { result ≡ true → in_lengths (method_references receiver.now func.now) ≡ [] }
{
    if !signature_lacks(&func.signature) {
        return false;
    }
    type_lacks(&receiver.type_)
}

/// Whether it is easily seen of the declaration of a function or a method that no name stands in a length in it: that it has no
/// array, function type, field or method of an interface.
pub(crate) fn lacks_lengths(form: Form<'_>) -> bool
    ensures { result ≡ true → length_references (form_of form.entry) ≡ [] }
{
    match form {
        Form::Function(func) => func_lacks(func),
        Form::Method(receiver, func) => method_lacks(receiver, func),
        _ => false,
    }
}
