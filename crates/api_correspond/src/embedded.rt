//! The selectors of the fields below the top level of a type.
ghost use Rattle.std.specs.Prelude.{◌≡◌, [], ◌∷◌, IfOk, OnOk};
ghost use Rattle.go_base.specs.Growing.{Grows};
ghost use Rattle.go_model.specs.types.Selectors.{base_of, start};
ghost use Rattle.go_model.specs.types.Terms.{error_type};
ghost use Rattle.go_model.specs.types.Underlying.{under, fields_of};
ghost use Rattle.go_selectors.specs.Answers.{Decides};
ghost use Rattle.go_selectors.specs.Search.{Adds};
ghost use Rattle.api_correspond.specs.Publics.{types_of, IsExported};
ghost use Rattle.api_correspond.specs.inner.Leading.{HoldDeepFields};
ghost use Rattle.api_correspond.specs.inner.Spreading.{SeesTerm, Pushes, PushesOne, PushesEmbedded, IsSelOf, IsFieldSel, TermAt};

use crate::levels::fields_of;
use go_base::memory::NoMemory;
use go_model::types::borrowed::BorrowedTerm;
use go_model::types::names::Sel;
use go_model::types::package::Defined;
use go_model::types::term::{Field, Term};
use go_model::types::world::World;
use go_selectors::lookup::Lookup;
use go_selectors::name::Name;
use indexmap::IndexSet;
use std::alloc::Global;

// Adds a name, and tells whether it wasn't there.
fn add<'a>(names: &mut IndexSet<Name<'a>>, name: Name<'a>) -> Result<bool, NoMemory>
    ensures { IfOk result (Adds names.old.keys names.new.keys name.entry) }
{
    Ok(names.insert(name)?)
}

// Whether a type is a name that was seen before; it is seen.
fn sees<'a>(seen: &mut IndexSet<Name<'a>>, term: &'a Term) -> Result<bool, NoMemory>
    ensures { IfOk result (SeesTerm seen.old.keys seen.new.keys term.now) }
{
    match term {
        Term::Named(name) => Ok(!add(seen, Name::new(name))?),
        _ => Ok(false),
    }
}

// Adds a type, unless it is a name that was seen.
fn push<'a>(
    all: &mut Vec<BorrowedTerm<'a>>,
    seen: &mut IndexSet<Name<'a>>,
    term: &'a Term,
) -> Result<(), NoMemory>
    ensures { OnOk result (Pushes all.old.items seen.old.keys all.new.items seen.new.keys term.now) }
{
    if sees(seen, term)? {
        return Ok(());
    }
    all.push(BorrowedTerm::new(term))?;
    Ok(())
}

fn base_of(term: &Term) -> &Term
    ensures { result.now ≡ base_of term.now }
{
    match term {
        Term::Pointer(base) => base.value(),
        _ => term,
    }
}

// Adds the type of a field, or that to which it points, where it's embedded.
fn push_one<'a>(
    all: &mut Vec<BorrowedTerm<'a>>,
    seen: &mut IndexSet<Name<'a>>,
    field: &'a Field,
) -> Result<(), NoMemory>
    ensures { OnOk result (PushesOne all.old.items seen.old.keys all.new.items seen.new.keys field.now) }
{
    if !field.embedded {
        return Ok(());
    }
    push(all, seen, base_of(&field.term))?;
    Ok(())
}

// Adds the types of embedded fields, and those to which they point.
fn push_embedded<'a>(
    all: &mut Vec<BorrowedTerm<'a>>,
    seen: &mut IndexSet<Name<'a>>,
    fields: &'a [Field],
) -> Result<(), NoMemory>
    ensures { OnOk result (PushesEmbedded all.old.items seen.old.keys all.new.items seen.new.keys fields.now) }
{
    for field in fields {
        push_one(all, seen, field)?;
    }
    Ok(())
}

pub fn is_exported(sel: &Sel) -> bool
    ensures { Decides result (IsExported sel.now) }
{
    sel.package.bytes().is_empty()
}

// Adds the selector of an exported field.
fn push_sel(alloc: Global, field: &Field, sels: &mut Vec<Sel>) -> Result<(), NoMemory>
    ensures { OnOk result (Grows (IsSelOf field.now) sels.old.items sels.new.items) }
{
    if !is_exported(&field.sel) {
        return Ok(());
    }
    let sel = field.sel.copy(alloc)?;
    sels.push(sel)?;
    Ok(())
}

fn push_sels(alloc: Global, fields: &[Field], sels: &mut Vec<Sel>) -> Result<(), NoMemory>
    ensures { OnOk result (Grows (IsFieldSel fields.now) sels.old.items sels.new.items) }
{
    for field in fields {
        push_sel(alloc, field, sels)?;
    }
    Ok(())
}

// The type in which the search for a selector begins.
fn start_of<'a>(types: &Lookup<'a, World>, term: &'a Term) -> &'a Term
    ensures { result.now ≡ (start (types_of types.now.table.now) term.now).term }
{
    match term {
        Term::Pointer(base) => match types.under(base.value()) {
            Term::Pointer(_) => term,
            Term::Interface(_) => term,
            _ => base.value(),
        },
        Term::Named(_) => match types.under(term) {
            Term::Pointer(base) => base.value(),
            _ => term,
        },
        _ => term,
    }
}

fn term_at<'a>(all: &Vec<BorrowedTerm<'a>>, at: usize) -> Option<&'a Term>
    ensures { TermAt all.now.items at result }
{
    match all.get(at) {
        Some(reached) => Some(reached.term()),
        None => None,
    }
}

/// The exported selectors of the fields in all types that are embedded in a type, at any depth.
pub fn deep_fields<'a>(
    alloc: Global,
    error: &'a Defined,
    world: &'a World,
    term: &'a Term,
) -> Result<Vec<Sel>, NoMemory>
    requires { error.now ≡ error_type }
    ensures { IfOk result (λ sels. HoldDeepFields (types_of world.now) term.now sels.items) }
{
    let types = Lookup::new(world, error);
    let mut all = Vec::new(alloc);
    let mut seen = IndexSet::new(alloc);
    let mut sels = Vec::new(alloc);
    let start = start_of(&types, term);
    push_embedded(&mut all, &mut seen, fields_of(types.under(start)))?;
    for at in 0..usize::MAX {
        match term_at(&all, at) {
            Some(reached) => {
                let fields = fields_of(types.under(reached));
                push_sels(alloc, fields, &mut sels)?;
                push_embedded(&mut all, &mut seen, fields)?;
            }
            None => return Ok(sels),
        }
    }
    Err(NoMemory)
}
