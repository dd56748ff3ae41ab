//! One embedded field further, and what a selector names in a type itself.
ghost use Rattle.std.specs.Prelude.{◌≡◌, ◌++◌, OnOk};
ghost use Rattle.go_base.specs.Gathered.{gather};
ghost use Rattle.go_model.specs.declared.types.term.Term.{out-Term};
ghost use Rattle.go_model.specs.types.DeclaredMethods.{TellsMethod, with_sel};
ghost use Rattle.go_model.specs.types.Selectors.{step, steps, endings, field_ending, declared_ending, method_ending};
ghost use Rattle.go_model.specs.types.Underlying.{declared_methods};
ghost use Rattle.go_selectors.specs.Endings.{endings_of, owner_of};

use crate::ending::{Ending, Target};
use crate::identity::same_sel;
use crate::lookup::Lookup;
use crate::members::{base_of, is_pointer};
use crate::spot::Spot;
use go_base::memory::NoMemory;
use go_model::types::declared_method::DeclaredMethod;
use go_model::types::names::{Sel, TypeName};
use go_model::types::package::MethodOf;
use go_model::types::table::TypeTable;
use go_model::types::term::{Field, Method, Term};

// Up to so many declared methods are walked through.
const FEW_METHODS: usize = 8;

/// Adds the spots that are one embedded field further.
pub(crate) fn push_steps<'a>(
    through: bool,
    fields: &'a [Field],
    all: &mut Vec<Spot<'a>>,
) -> Result<(), NoMemory>
    ensures { OnOk result (all.new.items ≡ all.old.items ++ gather (step through) fields.now) }
{
    for field in fields {
        if field.embedded {
            all.push(Spot::new(through || is_pointer(&field.term), base_of(&field.term)))?;
        }
    }
    Ok(())
}

fn push_fields<'a>(
    sel: &Sel,
    through: bool,
    fields: &'a [Field],
    found: &mut Vec<Ending<'a>>,
) -> Result<(), NoMemory>
    ensures { OnOk result (endings_of found.new.items ≡ endings_of found.old.items ++ gather (field_ending sel.now through) fields.now) }
{
    for field in fields {
        if same_sel(&field.sel, sel) {
            found.push(Ending {
                through,
                target: Target::Field(&field.term),
            })?;
        }
    }
    Ok(())
}

// What the table tells of a long list.
fn told<'a, T: TypeTable>(
    types: &Lookup<'a, T>,
    sel: &Sel,
    term: &Term,
    methods: &[MethodOf],
) -> DeclaredMethod<'a>
    requires { methods.now ≡ declared_methods (T.lookup types.now.table.now) (out-Term term.now) }
    ensures { TellsMethod (with_sel sel.now methods.now) result }
{
    if methods.len() <= FEW_METHODS {
        return DeclaredMethod::Unknown;
    }
    types.declared(term, sel)
}

fn push_each<'a>(
    owner: Option<&'a TypeName>,
    sel: &Sel,
    through: bool,
    methods: &'a [MethodOf],
    found: &mut Vec<Ending<'a>>,
) -> Result<(), NoMemory>
    ensures { OnOk result (endings_of found.new.items ≡ endings_of found.old.items ++ gather (declared_ending (owner_of owner.entry) sel.now through) methods.now) }
{
    for method in methods {
        if same_sel(&method.sel, sel) {
            found.push(Ending {
                through,
                target: Target::Method(owner, method.pointer, &method.signature),
            })?;
        }
    }
    Ok(())
}

// Walks through the methods only where nothing is told.
fn push_declared<'a>(
    owner: Option<&'a TypeName>,
    sel: &Sel,
    through: bool,
    methods: &'a [MethodOf],
    told: DeclaredMethod<'a>,
    found: &mut Vec<Ending<'a>>,
) -> Result<(), NoMemory>
    requires { TellsMethod (with_sel sel.now methods.now) told }
    ensures { OnOk result (endings_of found.new.items ≡ endings_of found.old.items ++ gather (declared_ending (owner_of owner.entry) sel.now through) methods.now) }
{
    match told {
        DeclaredMethod::Absent => Ok(()),
        DeclaredMethod::Once(declared) => {
            found.push(Ending {
                through,
                target: Target::Method(owner, declared.pointer, &declared.signature),
            })?;
            Ok(())
        }
        DeclaredMethod::Unknown => push_each(owner, sel, through, methods, found),
    }
}

fn push_methods<'a>(
    sel: &Sel,
    through: bool,
    methods: &'a [Method],
    found: &mut Vec<Ending<'a>>,
) -> Result<(), NoMemory>
    ensures { OnOk result (endings_of found.new.items ≡ endings_of found.old.items ++ gather (method_ending sel.now through) methods.now) }
{
    for method in methods {
        if same_sel(&method.sel, sel) {
            found.push(Ending {
                through,
                target: Target::Method(None, false, &method.signature),
            })?;
        }
    }
    Ok(())
}

/// Adds the fields and methods that the selector names at a spot itself, and the spots that are one
/// embedded field further.
pub(crate) fn visit<'a, T: TypeTable>(
    types: &Lookup<'a, T>,
    sel: &Sel,
    spot: &Spot<'a>,
    found: &mut Vec<Ending<'a>>,
    all: &mut Vec<Spot<'a>>,
) -> Result<(), NoMemory>
    ensures found { OnOk result (endings_of found.new.items ≡ endings_of found.old.items ++ endings (T.lookup types.now.table.now) sel.now spot.now) }
    ensures steps { OnOk result (all.new.items ≡ all.old.items ++ steps (T.lookup types.now.table.now) spot.now) }
{
    let members = types.members(spot.term());
    push_fields(sel, spot.through(), members.fields, found)?;
    let told = told(types, sel, spot.term(), members.declared);
    push_declared(
        members.owner,
        sel,
        spot.through(),
        members.declared,
        told,
        found,
    )?;
    push_methods(sel, spot.through(), members.methods, found)?;
    push_steps(spot.through(), members.fields, all)
}
