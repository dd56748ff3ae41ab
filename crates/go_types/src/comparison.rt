//! Types whose values can be compared.
ghost use Rattle.std.specs.Prelude.{◌≡◌, [], ◌∷◌, IfOk, OnOk};
ghost use Rattle.go_model.specs.worlds.Worlds.{table_of};
ghost use Rattle.go_selectors.specs.Answers.{Decides};
ghost use Rattle.go_model.specs.types.Comparison.{Comparable};
ghost use Rattle.go_selectors.specs.Search.{Adds};
ghost use Rattle.go_types.specs.Parts.{SeesTerm, Pushes, PushesFields, Looked, PartAt};

use go_model::types::borrowed::BorrowedTerm;
use go_model::types::table::TypeTable;
use go_model::types::term::{Field, Term};
use go_model::types::world::World;
use go_selectors::go_base::memory::NoMemory;
use go_selectors::lookup::{Lookup, error_type};
use go_selectors::name::Name;
use indexmap::IndexSet;
use std::alloc::Global;

// Adds a name, and tells whether it wasn't there.
fn add<'a>(names: &mut IndexSet<Name<'a>>, name: Name<'a>) -> Result<bool, NoMemory>
    ensures { IfOk result (Adds names.old.keys names.new.keys name.entry) }
{
    Ok(names.insert(name)?)
}

// Whether a type is a name that was seen before; it is seen.
fn sees<'a>(seen: &mut IndexSet<Name<'a>>, term: &'a Term) -> Result<bool, NoMemory>
    ensures { IfOk result (SeesTerm seen.old.keys seen.new.keys term.now) }
{
    match term {
        Term::Named(name) => Ok(!add(seen, Name::new(name))?),
        _ => Ok(false),
    }
}

// Adds a type, unless it is a name that was seen.
fn push<'a>(
    all: &mut Vec<BorrowedTerm<'a>>,
    seen: &mut IndexSet<Name<'a>>,
    term: &'a Term,
) -> Result<(), NoMemory>
    ensures { OnOk result (Pushes all.old.items seen.old.keys all.new.items seen.new.keys term.now) }
{
    if sees(seen, term)? {
        return Ok(());
    }
    all.push(BorrowedTerm::new(term))?;
    Ok(())
}

fn push_fields<'a>(
    all: &mut Vec<BorrowedTerm<'a>>,
    seen: &mut IndexSet<Name<'a>>,
    fields: &'a [Field],
) -> Result<(), NoMemory>
    ensures { OnOk result (PushesFields all.old.items seen.old.keys all.new.items seen.new.keys fields.now) }
{
    for field in fields {
        push(all, seen, &field.term)?;
    }
    Ok(())
}

// Whether a type is compared by its parts, which are added.
fn look<'a, T: TypeTable>(
    types: &Lookup<'a, T>,
    all: &mut Vec<BorrowedTerm<'a>>,
    seen: &mut IndexSet<Name<'a>>,
    term: &'a Term,
) -> Result<bool, NoMemory>
    ensures { IfOk result (Looked (T.lookup types.now.table.now) term.now all.old.items seen.old.keys all.new.items seen.new.keys) }
{
    match types.under(term) {
        Term::Slice(_) => Ok(false),
        Term::Map(_, _) => Ok(false),
        Term::Func(_) => Ok(false),
        Term::Array(_, element) => {
            push(all, seen, element.value())?;
            Ok(true)
        }
        Term::Struct(fields) => {
            push_fields(all, seen, fields.items())?;
            Ok(true)
        }
        _ => Ok(true),
    }
}

fn part_at<'a>(all: &Vec<BorrowedTerm<'a>>, at: usize) -> Option<&'a Term>
    ensures { PartAt all.now.items at result }
{
    match all.get(at) {
        Some(part) => Some(part.term()),
        None => None,
    }
}

/// Whether two values of a type can be compared, as [`comparable`] says.
pub fn decide<'a, T: TypeTable>(
    alloc: Global,
    types: &Lookup<'a, T>,
    term: &'a Term,
) -> Result<bool, NoMemory>
    ensures { IfOk result (λ answer. Decides answer (Comparable (T.lookup types.now.table.now) term.now)) }
{
    let mut all = Vec::new(alloc);
    let mut seen = IndexSet::new(alloc);
    push(&mut all, &mut seen, term)?;
    for at in 0..usize::MAX {
        match part_at(&all, at) {
            Some(part) => {
                if !look(types, &mut all, &mut seen, part)? {
                    return Ok(false);
                }
            }
            None => return Ok(true),
        }
    }
    Err(NoMemory)
}

/// Whether two values of a type can be compared, where a table of types tells the names in it, as
/// [`comparable`] says.
pub fn comparable_in<T: TypeTable>(alloc: Global, types: &T, term: &Term) -> Result<bool, NoMemory>
    ensures { IfOk result (λ answer. Decides answer (Comparable (T.lookup types.now) term.now)) }
{
    let error = error_type(alloc)?;
    let lookup = Lookup::new(types, &error);
    let answer = decide(alloc, &lookup, term)?;
    Ok(answer)
}

/// Whether two values of a type of a world can be compared: not where a slice, a map or a function
/// is underneath the type, one of its fields or its elements, at any depth; else they can.
pub fn comparable(alloc: Global, world: &World, term: &Term) -> Result<bool, NoMemory>
    ensures { IfOk result (λ answer. Decides answer (Comparable (table_of world.now.packages) term.now)) }
{
    comparable_in(alloc, world, term)
}
