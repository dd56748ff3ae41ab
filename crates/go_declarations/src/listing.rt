//! The declarations of a file in order.
ghost use Rattle.std.specs.Prelude.{◌≡◌, ◌++◌, map, OnOk};
ghost use Rattle.go_typings.specs.go_base.Gathered.{gather};
ghost use Rattle.go_declarations.specs.Forms.{form_of, spec_of};
ghost use Rattle.go_declarations.specs.Listings.{declarations_of};
ghost use Rattle.go_declarations.specs.inner.Repeating.{HasSame, given_by, with_names};
ghost use Rattle.go_typings.specs.Declarations as declarations;
ghost use Rattle.go_typings.specs.Declarations.{constants_from, forms, func_form, in_file, no_spec, repeated, variables};

use crate::form::{Constants, Form};
use go_syntax::declaration::{ConstSpec, Decl, Func, TypeSpec, VarSpec};
use go_typings::go_base::list::List;
use go_typings::go_base::memory::NoMemory;

/// A declaration, and the number of its file.
#[derive(Clone, Copy)]
pub struct Declaration<'a> {
    pub file: u32,
    pub form: Form<'a>,
}

// The constants of a spec, by the one that has their type and values; they have none where there is none.
fn constants<'a>(given: Option<&'a ConstSpec>, spec: &'a ConstSpec, place: u64) -> Constants<'a>
    ensures spec { spec_of result ≡ with_names spec.now.names (given_by given.entry) }
    ensures place { result.place ≡ place }
{
    match given {
        Some(given) => Constants {
            names: spec.names.items(),
            type_: given.type_.as_ref(),
            values: given.values.items(),
            place,
        },
        None => Constants {
            names: spec.names.items(),
            type_: None,
            values: &[],
            place,
        },
    }
}

// The spec that has the type and the values of a spec: itself, or, where it has no values, that of the one before.
fn giver<'a>(given: Option<&'a ConstSpec>, spec: &'a ConstSpec) -> Option<&'a ConstSpec>
    ensures { HasSame (given_by result) (repeated (given_by given.entry) spec.now) }
{
    if spec.values.items().is_empty() {
        given
    } else {
        Some(spec)
    }
}

// Adds the constants of a group.
fn push_constants<'a>(
    listed: &mut List<Declaration<'a>>,
    file: u32,
    specs: &'a [ConstSpec],
) -> Result<(), NoMemory>
    ensures { OnOk result (declarations_of listed.new ≡ declarations_of listed.old ++ map (in_file file) (constants_from no_spec 0 specs.now)) }
{
    let mut given = None;
    for place in 0..specs.len() {
        let spec = &specs[place];
        given = giver(given, spec);
        listed.push(Declaration {
            file,
            form: Form::Constants(constants(given, spec, place as u64)),
        })?;
    }
    Ok(())
}

// Adds the variables of a group.
fn push_variables<'a>(
    listed: &mut List<Declaration<'a>>,
    file: u32,
    specs: &'a [VarSpec],
) -> Result<(), NoMemory>
    ensures { OnOk result (declarations_of listed.new ≡ declarations_of listed.old ++ map (in_file file) (map variables specs.now)) }
{
    for spec in specs {
        listed.push(Declaration {
            file,
            form: Form::Variables(spec),
        })?;
    }
    Ok(())
}

// What is declared by a spec of a type.
fn type_form(spec: &TypeSpec) -> Form<'_>
    ensures { form_of result ≡ declarations.type_form spec.now }
{
    if spec.alias {
        Form::Alias(spec)
    } else {
        Form::Definition(spec)
    }
}

// Adds the types of a group.
fn push_types<'a>(
    listed: &mut List<Declaration<'a>>,
    file: u32,
    specs: &'a [TypeSpec],
) -> Result<(), NoMemory>
    ensures { OnOk result (declarations_of listed.new ≡ declarations_of listed.old ++ map (in_file file) (map declarations.type_form specs.now)) }
{
    for spec in specs {
        listed.push(Declaration {
            file,
            form: type_form(spec),
        })?;
    }
    Ok(())
}

// What is declared by a function, which with a receiver is a method.
fn func_form(func: &Func) -> Form<'_>
    ensures { form_of result ≡ declarations.func_form func.now.receiver func.now }
{
    match &func.receiver {
        Some(receiver) => Form::Method(receiver, func),
        None => Form::Function(func),
    }
}

// Adds what a declaration of a file declares.
fn push_decl<'a>(
    listed: &mut List<Declaration<'a>>,
    file: u32,
    decl: &'a Decl,
) -> Result<(), NoMemory>
    ensures { OnOk result (declarations_of listed.new ≡ declarations_of listed.old ++ map (in_file file) (forms decl.now)) }
{
    match decl {
        Decl::ConstGroup(specs) => push_constants(listed, file, specs.items()),
        Decl::VarGroup(specs) => push_variables(listed, file, specs.items()),
        Decl::TypeGroup(specs) => push_types(listed, file, specs.items()),
        Decl::FuncDecl(func) => listed.push(Declaration {
            file,
            form: func_form(func.value()),
        }),
    }
}

/// Adds the declarations of a file, by its number, in the order of their places.
pub fn push_file<'a>(
    listed: &mut List<Declaration<'a>>,
    file: u32,
    decls: &'a [Decl],
) -> Result<(), NoMemory>
    ensures { OnOk result (declarations_of listed.new ≡ declarations_of listed.old ++ map (in_file file) (gather forms decls.now)) }
{
    for decl in decls {
        push_decl(listed, file, decl)?;
    }
    Ok(())
}
