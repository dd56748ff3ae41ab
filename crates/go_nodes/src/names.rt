//! The names that signatures, struct types and interface types declare.
ghost use Rattle.std.specs.Prelude.{◌≡◌, ◌++◌, OnOk, IfOk};
ghost use Rattle.go_nodes.specs.Trees.{texts_of};
ghost use Rattle.go_rules.specs.Asks as asks;
ghost use Rattle.go_rules.specs.Asks.{field_names, method_names, optional_result_names, parameter_names, texts};
ghost use Rattle.go_syntax.specs.declared.types.FieldDecl.{out-FieldDecl};
ghost use Rattle.go_syntax.specs.declared.types.InterfaceElem.{out-InterfaceElem};

use go_base::list::List;
use go_base::memory::NoMemory;
use go_base::text::Text;
use go_syntax::name::Name;
use go_syntax::types::{FieldDecl, FuncResult, InterfaceElem, ParameterDecl, Signature};
use std::alloc::Global;

/// Adds names.
pub fn push_names<'a>(gathered: &mut List<&'a Text>, names: &'a [Name]) -> Result<(), NoMemory>
    ensures { OnOk result (texts_of gathered.new ≡ texts_of gathered.old ++ texts names.now) }
{
    for name in names {
        gathered.push(&name.text)?;
    }
    Ok(())
}

fn push_parameters<'a>(
    gathered: &mut List<&'a Text>,
    decls: &'a [ParameterDecl],
) -> Result<(), NoMemory>
    ensures { OnOk result (texts_of gathered.new ≡ texts_of gathered.old ++ parameter_names decls.now) }
{
    for decl in decls {
        push_names(gathered, decl.names.items())?;
    }
    Ok(())
}

fn push_result<'a>(
    gathered: &mut List<&'a Text>,
    returned: &'a Option<FuncResult>,
) -> Result<(), NoMemory>
    ensures { OnOk result (texts_of gathered.new ≡ texts_of gathered.old ++ optional_result_names returned.now) }
{
    match returned {
        Some(FuncResult::Parameters(decls)) => push_parameters(gathered, decls.items()),
        Some(FuncResult::Type(_)) => Ok(()),
        None => Ok(()),
    }
}

/// Adds the names of the parameters and results of a signature.
pub fn push_signature<'a>(
    gathered: &mut List<&'a Text>,
    signature: &'a Signature,
) -> Result<(), NoMemory>
    ensures { OnOk result (texts_of gathered.new ≡ texts_of gathered.old ++ asks.signature_names signature.now) }
{
    push_parameters(gathered, signature.parameters.items())?;
    push_result(gathered, &signature.result)
}

fn push_field<'a>(gathered: &mut List<&'a Text>, decl: &'a FieldDecl) -> Result<(), NoMemory>
    ensures { OnOk result (texts_of gathered.new ≡ texts_of gathered.old ++ field_names (out-FieldDecl decl.now)) }
{
    match decl {
        FieldDecl::Named(names, _, _) => push_names(gathered, names.items()),
        FieldDecl::Embedded(_, name, _) => gathered.push(&name.name.text),
    }
}

fn push_method<'a>(
    gathered: &mut List<&'a Text>,
    element: &'a InterfaceElem,
) -> Result<(), NoMemory>
    ensures { OnOk result (texts_of gathered.new ≡ texts_of gathered.old ++ method_names (out-InterfaceElem element.now)) }
{
    match element {
        InterfaceElem::Method(name, _) => gathered.push(&name.text),
        InterfaceElem::Embedded(_) => Ok(()),
    }
}

/// The names of the parameters and results of a signature.
pub fn signature_names<'a>(
    alloc: Global,
    signature: &'a Signature,
) -> Result<List<&'a Text>, NoMemory>
    ensures { IfOk result (λ names. texts_of names ≡ asks.signature_names signature.now) }
{
    let mut gathered = List::new(alloc);
    push_signature(&mut gathered, signature)?;
    Ok(gathered)
}

/// The names of the fields that a struct type declares, an embedded one by the name of its type.
pub fn fields_names<'a>(alloc: Global, decls: &'a [FieldDecl]) -> Result<List<&'a Text>, NoMemory>
    ensures { IfOk result (λ names. texts_of names ≡ asks.fields_names decls.now) }
{
    let mut gathered = List::new(alloc);
    for decl in decls {
        push_field(&mut gathered, decl)?;
    }
    Ok(gathered)
}

/// The names of the methods that stand in an interface type itself.
pub fn methods_names<'a>(
    alloc: Global,
    elements: &'a [InterfaceElem],
) -> Result<List<&'a Text>, NoMemory>
    ensures { IfOk result (λ names. texts_of names ≡ asks.methods_names elements.now) }
{
    let mut gathered = List::new(alloc);
    for element in elements {
        push_method(&mut gathered, element)?;
    }
    Ok(gathered)
}
