//! An order in which the declarations of a package are settled fast. Nothing is proved of it.
use go_base::list::List;
use go_base::memory::NoMemory;
use go_base::text::Text;
use go_declarations::form::Form;
use go_declarations::listing::Declaration;
use go_declared::names::DeclaredNames;
use go_declared::receivers::receiver_name;
use go_graphs::order::depth_first;
use go_references::references::{
    Reference, func_references, method_references, type_references, typed_references,
};
use go_syntax::declaration::{Func, VarSpec};
use go_syntax::types::ParameterDecl;
use std::alloc::Global;

fn push(row: &mut List<u32>, number: usize) -> Result<(), NoMemory> {
    match u32::try_from(number) {
        Ok(number) => row.push(number),
        Err(_) => Ok(()),
    }
}

fn push_named(row: &mut List<u32>, names: &DeclaredNames, name: &Text) -> Result<(), NoMemory> {
    match names.get(name) {
        Some(at) => push(row, at.number),
        None => Ok(()),
    }
}

// Adds all that is named.
fn push_all(
    row: &mut List<u32>,
    names: &DeclaredNames,
    references: &[Reference<'_>],
) -> Result<(), NoMemory> {
    for reference in references {
        push_named(row, names, &reference.name.text)?;
    }
    Ok(())
}

fn is_definition(declarations: &[Declaration<'_>], number: usize) -> bool {
    match declarations.get(number) {
        Some(declaration) => matches!(declaration.form, Form::Definition(_)),
        None => false,
    }
}

// Adds what a type names, unless it's a defined type behind a pointer or the like, whose name suffices there.
fn push_type(
    row: &mut List<u32>,
    declarations: &[Declaration<'_>],
    names: &DeclaredNames,
    reference: &Reference,
) -> Result<(), NoMemory> {
    let number = match names.get(&reference.name.text) {
        Some(at) => at.number,
        None => return Ok(()),
    };
    if reference.by_value || reference.in_length || !is_definition(declarations, number) {
        return push(row, number);
    }
    Ok(())
}

// Adds what types name.
fn push_types(
    row: &mut List<u32>,
    declarations: &[Declaration<'_>],
    names: &DeclaredNames,
    references: &[Reference<'_>],
) -> Result<(), NoMemory> {
    for reference in references {
        push_type(row, declarations, names, reference)?;
    }
    Ok(())
}

// Adds what variables with a type, or else with values, come after: values may call any method, for which `methods` stands.
fn push_variables(
    row: &mut List<u32>,
    alloc: Global,
    declarations: &[Declaration<'_>],
    names: &DeclaredNames,
    methods: usize,
    spec: &VarSpec,
) -> Result<(), NoMemory> {
    match &spec.type_ {
        Some(form) => {
            let references = typed_references(alloc, Some(form), &[])?;
            push_types(row, declarations, names, references.items())
        }
        None => {
            let references = typed_references(alloc, None, spec.values.items())?;
            push_all(row, names, references.items())?;
            push(row, methods)
        }
    }
}

// Adds what a method comes after: its type, and what its signature names.
fn push_method(
    row: &mut List<u32>,
    alloc: Global,
    declarations: &[Declaration<'_>],
    names: &DeclaredNames,
    receiver: &ParameterDecl,
    func: &Func,
) -> Result<(), NoMemory> {
    match receiver_name(receiver) {
        Some(name) => push_named(row, names, name)?,
        None => {}
    }
    let references = method_references(alloc, receiver, func)?;
    push_types(row, declarations, names, references.items())
}

// What a declaration comes after.
fn row_of(
    alloc: Global,
    declarations: &[Declaration<'_>],
    names: &DeclaredNames,
    methods: usize,
    form: Form<'_>,
) -> Result<List<u32>, NoMemory> {
    let mut row = List::new(alloc);
    match form {
        Form::Constants(spec) => {
            let references = typed_references(alloc, spec.type_, spec.values)?;
            push_all(&mut row, names, references.items())?;
        }
        Form::Variables(spec) => {
            push_variables(&mut row, alloc, declarations, names, methods, spec)?;
        }
        Form::Alias(spec) | Form::Definition(spec) => {
            let references = type_references(alloc, spec)?;
            push_types(&mut row, declarations, names, references.items())?;
        }
        Form::Function(func) => {
            let references = func_references(alloc, func)?;
            push_types(&mut row, declarations, names, references.items())?;
        }
        Form::Method(receiver, func) => {
            push_method(&mut row, alloc, declarations, names, receiver, func)?;
        }
    }
    Ok(row)
}

fn is_method(form: Form<'_>) -> bool {
    matches!(form, Form::Method(_, _))
}

// The methods, in order.
fn methods_row(alloc: Global, declarations: &[Declaration<'_>]) -> Result<List<u32>, NoMemory> {
    let mut row = List::new(alloc);
    for number in 0..declarations.len() {
        if is_method(declarations[number].form) {
            push(&mut row, number)?;
        }
    }
    Ok(row)
}

/// An order of declarations in which each comes after what it refers to, where nothing goes round; the number past the last one
/// may stand in it. Most packages are settled by one pass in this order.
pub fn hints(
    alloc: Global,
    declarations: &[Declaration<'_>],
    names: &DeclaredNames,
) -> Result<Vec<u32>, NoMemory> {
    let mut rows = Vec::new(alloc);
    let methods = declarations.len();
    for declaration in declarations {
        rows.push(row_of(alloc, declarations, names, methods, declaration.form)?)?;
    }
    rows.push(methods_row(alloc, declarations)?)?;
    depth_first(alloc, &rows)
}
