//! The specs of a declaration in a function, each with the type and the values that it has or repeats.
ghost use Rattle.std.specs.Prelude.{◌≡◌, ◌++◌, map, IfOk, OnOk};
ghost use Rattle.go_declarations.specs.Forms.{spec_of};
ghost use Rattle.go_declarations.specs.Listings.{declarations_of};
ghost use Rattle.go_declarations.specs.inner.Repeating.{HasSame, given_by, with_names};
ghost use Rattle.go_local_specs.specs.LocalForms.{forms_in};
ghost use Rattle.go_typings.specs.Declarations.{constants_from, in_file, no_spec, repeated, variables};

use go_base::list::List;
use go_base::memory::NoMemory;
use go_declarations::form::{Constants, Form};
use go_declarations::listing::Declaration;
use go_syntax::declaration::{ConstSpec, VarSpec};
use std::alloc::Global;

// The constants of a spec, by the one that has their type and values; they have none where there is none.
fn constants<'a>(given: Option<&'a ConstSpec>, spec: &'a ConstSpec, place: u64) -> Constants<'a>
    ensures spec { spec_of result ≡ with_names spec.now.names (given_by given.entry) }
    ensures place { result.place ≡ place }
{
    match given {
        Some(given) => Constants {
            names: spec.names.items(),
            type_: given.type_.as_ref(),
            values: given.values.items(),
            place,
        },
        None => Constants {
            names: spec.names.items(),
            type_: None,
            values: &[],
            place,
        },
    }
}

// The spec that has the type and the values of a spec: itself, or, where it has no values, that of the one before.
fn giver<'a>(given: Option<&'a ConstSpec>, spec: &'a ConstSpec) -> Option<&'a ConstSpec>
    ensures { HasSame (given_by result) (repeated (given_by given.entry) spec.now) }
{
    if spec.values.items().is_empty() {
        given
    } else {
        Some(spec)
    }
}

// Adds the constants of a group.
fn push_constants<'a>(
    listed: &mut List<Declaration<'a>>,
    file: u32,
    specs: &'a [ConstSpec],
) -> Result<(), NoMemory>
    ensures { OnOk result (declarations_of listed.new ≡ declarations_of listed.old ++ map (in_file file) (constants_from no_spec 0 specs.now)) }
{
    let mut given = None;
    for place in 0..specs.len() {
        let spec = &specs[place];
        given = giver(given, spec);
        listed.push(Declaration {
            file,
            form: Form::Constants(constants(given, spec, place as u64)),
        })?;
    }
    Ok(())
}

// Adds the variables of a group.
fn push_variables<'a>(
    listed: &mut List<Declaration<'a>>,
    file: u32,
    specs: &'a [VarSpec],
) -> Result<(), NoMemory>
    ensures { OnOk result (declarations_of listed.new ≡ declarations_of listed.old ++ map (in_file file) (map variables specs.now)) }
{
    for spec in specs {
        listed.push(Declaration {
            file,
            form: Form::Variables(spec),
        })?;
    }
    Ok(())
}

/// The specs of a declaration of constants.
pub fn constant_specs<'a>(
    alloc: Global,
    specs: &'a [ConstSpec],
) -> Result<List<Declaration<'a>>, NoMemory>
    ensures { IfOk result (λ listed. forms_in listed ≡ constants_from no_spec 0 specs.now) }
{
    let mut listed = List::new(alloc);
    push_constants(&mut listed, 0, specs)?;
    Ok(listed)
}

/// The specs of a declaration of variables.
pub fn variable_specs<'a>(
    alloc: Global,
    specs: &'a [VarSpec],
) -> Result<List<Declaration<'a>>, NoMemory>
    ensures { IfOk result (λ listed. forms_in listed ≡ map variables specs.now) }
{
    let mut listed = List::new(alloc);
    push_variables(&mut listed, 0, specs)?;
    Ok(listed)
}
