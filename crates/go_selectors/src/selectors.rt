//! Selectors: the field or method at the shallowest depth where there is one.
ghost use Rattle.std.specs.Prelude.{◌≡◌, ◌++◌, IfOk, OnOk, Some};
ghost use Rattle.go_base.specs.Gathered.{gather};
ghost use Rattle.go_model.specs.types.Selectors.{steps, endings, start, is_defined_pointer, bounded_depth, Finds};
ghost use Rattle.go_selectors.specs.Endings.{ending_of, endings_of, owner_of, FindsOne, LayerFinds};
ghost use Rattle.go_model.specs.worlds.Worlds.{table_of};

use crate::ending::{Ending, Target};
use crate::lookup::{Lookup, error_type};
use crate::seen::Seen;
use crate::spot::Spot;
use crate::steps::visit;
use go_base::boxed::Box;
use go_base::memory::NoMemory;
use go_model::types::found::{FieldFound, Found, MethodFound};
use go_model::types::names::{Sel, TypeName};
use go_model::types::table::TypeTable;
use go_model::types::term::Term;
use go_model::types::world::World;
use std::alloc::Global;

// Adds what the selector names in a layer, and the spots one embedded field further.
fn visit_layer<'a, T: TypeTable>(
    types: &Lookup<'a, T>,
    sel: &Sel,
    layer: &Vec<Spot<'a>>,
    found: &mut Vec<Ending<'a>>,
    all: &mut Vec<Spot<'a>>,
) -> Result<(), NoMemory>
    ensures found { OnOk result (endings_of found.new.items ≡ endings_of found.old.items ++ gather (endings (T.lookup types.now.table.now) sel.now) layer.now.items) }
    ensures steps { OnOk result (all.new.items ≡ all.old.items ++ gather (steps (T.lookup types.now.table.now)) layer.now.items) }
{
    for spot in layer {
        visit(types, sel, spot, found, all)?;
    }
    Ok(())
}

impl<'a, T: TypeTable> Lookup<'a, T> {
    /// Where the paths of a selector begin.
    pub(crate) fn start(&self, term: &'a Term) -> Spot<'a>
        ensures { result ≡ start (T.lookup self.now.table.now) term.now }
    {
        match term {
            Term::Pointer(base) => match self.under(base.value()) {
                Term::Pointer(_) => Spot::new(false, term),
                Term::Interface(_) => Spot::new(false, term),
                _ => Spot::new(true, base.value()),
            },
            Term::Named(_) => match self.under(term) {
                Term::Pointer(base) => Spot::new(true, base.value()),
                _ => Spot::new(false, term),
            },
            _ => Spot::new(false, term),
        }
    }

    /// Whether a type is defined over a pointer.
    pub(crate) fn is_defined_pointer(&self, term: &'a Term) -> bool
        ensures { result ≡ is_defined_pointer (T.lookup self.now.table.now) term.now }
    {
        match term {
            Term::Named(_) => matches!(self.under(term), Term::Pointer(_)),
            _ => false,
        }
    }
}

fn bounded_depth(depth: u64) -> u32
    ensures { result ≡ bounded_depth depth }
{
    if depth > 4_294_967_295 {
        return 4_294_967_295;
    }
    depth as u32
}

fn copied(alloc: Global, owner: Option<&TypeName>) -> Result<Option<TypeName>, NoMemory>
    ensures { IfOk result (λ copied. copied ≡ owner_of owner.entry) }
{
    match owner {
        Some(name) => {
            let name = name.copy(alloc)?;
            Ok(Some(name))
        }
        None => Ok(None),
    }
}

// What the only path finds.
fn found_one(
    alloc: Global,
    ending: &Ending<'_>,
    hidden: bool,
    depth: u64,
) -> Result<Found, NoMemory>
    ensures { IfOk result (FindsOne (ending_of ending.now) hidden depth) }
{
    match &ending.target {
        Target::Field(term) => Ok(Found::FieldAt(FieldFound {
            term: term.copy(alloc)?,
            through_pointer: ending.through,
            depth: bounded_depth(depth),
        })),
        Target::Method(owner, pointer, signature) => {
            if hidden {
                return Ok(Found::Nothing);
            }
            Ok(Found::MethodAt(MethodFound {
                signature: signature.copy(alloc)?,
                owner: copied(alloc, *owner)?,
                pointer_receiver: *pointer,
                through_pointer: ending.through,
                depth: bounded_depth(depth),
            }))
        }
    }
}

// An answer, on the heap. What was found is given up variant by variant where it stands by value.
fn boxed(alloc: Global, answer: Found) -> Result<Option<Box<Found>>, NoMemory>
    ensures { IfOk result (λ boxed. boxed ≡ Some answer) }
{
    let answer = Box::new(alloc, answer)?;
    Ok(Some(answer))
}

// The answer, where this layer tells it.
fn verdict(
    alloc: Global,
    found: &Vec<Ending<'_>>,
    layer: &Vec<Spot<'_>>,
    hidden: bool,
    depth: u64,
) -> Result<Option<Box<Found>>, NoMemory>
    ensures { IfOk result (LayerFinds (endings_of found.now.items) layer.now.items hidden depth) }
{
    match found.as_slice() {
        [] => {
            if layer.is_empty() {
                return boxed(alloc, Found::Nothing);
            }
            Ok(None)
        }
        [one] => {
            let answer = found_one(alloc, one, hidden, depth)?;
            boxed(alloc, answer)
        }
        _ => boxed(alloc, Found::Ambiguous),
    }
}

impl<'a, T: TypeTable> Lookup<'a, T> {
    /// What a selector finds in a type, as [`find`] says.
    pub fn find(&self, alloc: Global, term: &'a Term, sel: &Sel) -> Result<Found, NoMemory>
        ensures { IfOk result (Finds (T.lookup self.now.table.now) sel.now term.now) }
    {
        let mut seen = Seen::new(alloc);
        let mut layer = Vec::new(alloc);
        layer.push(self.start(term))?;
        let hidden = self.is_defined_pointer(term);
        for depth in 0..u64::MAX {
            let mut found = Vec::new(alloc);
            let mut all = Vec::new(alloc);
            visit_layer(self, sel, &layer, &mut found, &mut all)?;
            let answered = verdict(alloc, &found, &layer, hidden, depth)?;
            if let Some(answer) = answered {
                return Ok(answer.into_value());
            }
            layer = seen.consolidated(&all)?;
        }
        Err(NoMemory)
    }
}

/// What a selector finds in a type, whose names a table of types tells, as [`find`] says.
pub fn find_in<T: TypeTable>(
    alloc: Global,
    types: &T,
    term: &Term,
    sel: &Sel,
) -> Result<Found, NoMemory>
    ensures { IfOk result (Finds (T.lookup types.now) sel.now term.now) }
{
    let error = error_type(alloc)?;
    let found = Lookup::new(types, &error).find(alloc, term, sel)?;
    Ok(found)
}

/// What a selector finds in a type of a world: nothing where no path ends in it, or where only a
/// method is found in a defined type over a pointer; several fields and methods at the least depth;
/// else the field or the method there.
pub fn find(alloc: Global, world: &World, term: &Term, sel: &Sel) -> Result<Found, NoMemory>
    ensures { IfOk result (Finds (table_of world.now.packages) sel.now term.now) }
{
    find_in(alloc, world, term, sel)
}
