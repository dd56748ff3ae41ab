//! Types that are looked at one after another, each name once.
ghost use Rattle.std.specs.Prelude.{◌≡◌, ◌≤◌, [], length, drop, IfOk, OnOk};
ghost use Rattle.go_base.specs.Gathered.{gather};
ghost use Rattle.go_types.specs.go_selectors.Search.{Adds};
ghost use Rattle.go_types.specs.Parts.{SeesTerm, Pushes, PushesFields, PartAt};
ghost use Rattle.go_model.specs.types.Selectors.{base_of};
ghost use Rattle.go_usability.specs.inner.Levels.{embedded, PushesAll};

use go_base::memory::NoMemory;
use go_model::types::borrowed::BorrowedTerm;
use go_model::types::term::{Field, Term};
use go_types::go_selectors::name::Name;
use indexmap::IndexSet;
use std::alloc::Global;

/// The types that were added, and the names among them.
#[derive(Drop)]
pub(crate) struct Worklist<'a> {
    alloc: Global,
    all: Vec<BorrowedTerm<'a>>,
    seen: IndexSet<Name<'a>>,
}

// Adds a name, and tells whether it wasn't there.
fn add<'a>(names: &mut IndexSet<Name<'a>>, name: Name<'a>) -> Result<bool, NoMemory>
    ensures { IfOk result (Adds names.old.keys names.new.keys name.entry) }
{
    Ok(names.insert(name)?)
}

// Whether a type is a name that was seen before; it is seen.
fn sees<'a>(seen: &mut IndexSet<Name<'a>>, term: &'a Term) -> Result<bool, NoMemory>
    ensures { IfOk result (SeesTerm seen.old.keys seen.new.keys term.now) }
{
    match term {
        Term::Named(name) => Ok(!add(seen, Name::new(name))?),
        _ => Ok(false),
    }
}

fn base_of(term: &Term) -> &Term
    ensures { result.now ≡ base_of term.now }
{
    match term {
        Term::Pointer(base) => base.value(),
        _ => term,
    }
}

impl<'a> Worklist<'a> {
    /// No type.
    pub(crate) fn new(alloc: Global) -> Worklist<'a>
        ensures all { result.all.items ≡ [] }
        ensures seen { result.seen.keys ≡ [] }
    {
        Worklist {
            alloc,
            all: Vec::new(alloc),
            seen: IndexSet::new(alloc),
        }
    }

    /// Adds a type, unless it is a name that was seen.
    pub(crate) fn push(&mut self, term: &'a Term) -> Result<(), NoMemory>
        ensures { OnOk result (Pushes self.old.all.items self.old.seen.keys self.new.all.items self.new.seen.keys term.now) }
    {
        if sees(&mut self.seen, term)? {
            return Ok(());
        }
        self.all.push(BorrowedTerm::new(term))?;
        Ok(())
    }

    /// Adds the types of fields.
    pub(crate) fn push_fields(&mut self, fields: &'a [Field]) -> Result<(), NoMemory>
        ensures { OnOk result (PushesFields self.old.all.items self.old.seen.keys self.new.all.items self.new.seen.keys fields.now) }
    {
        for field in fields {
            self.push(&field.term)?;
        }
        Ok(())
    }

    // Adds the type that a field leads to, where it is embedded.
    fn push_one(&mut self, field: &'a Field) -> Result<(), NoMemory>
        ensures { OnOk result (PushesAll self.old.all.items self.old.seen.keys self.new.all.items self.new.seen.keys (embedded field.now)) }
    {
        if !field.embedded {
            return Ok(());
        }
        self.push(base_of(&field.term))?;
        Ok(())
    }

    /// Adds the types that embedded fields lead to.
    pub(crate) fn push_embedded(&mut self, fields: &'a [Field]) -> Result<(), NoMemory>
        ensures { OnOk result (PushesAll self.old.all.items self.old.seen.keys self.new.all.items self.new.seen.keys (gather embedded fields.now)) }
    {
        for field in fields {
            self.push_one(field)?;
        }
        Ok(())
    }

    /// The type at a place; None behind the last one.
    pub(crate) fn at(&self, at: usize) -> Option<&'a Term>
        ensures { PartAt self.now.all.items at result }
    {
        match self.all.get(at) {
            Some(part) => Some(part.term()),
            None => None,
        }
    }

    /// How many types there are.
    pub(crate) fn len(&self) -> usize
        ensures { result ≡ length self.now.all.items }
    {
        self.all.len()
    }

    /// The types from a place on.
    pub(crate) fn tail(&self, from: usize) -> Result<Vec<BorrowedTerm<'a>>, NoMemory>
        requires { from ≤ length self.now.all.items }
        ensures { IfOk result (λ tail. tail.items ≡ drop from self.now.all.items) }
    {
        let mut tail = Vec::new(self.alloc);
        for part in &self.all[from..] {
            tail.push(BorrowedTerm::new(part.term()))?;
        }
        Ok(tail)
    }
}
