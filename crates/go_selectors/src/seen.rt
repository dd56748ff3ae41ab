//! Which defined types a search has seen.
ghost use Rattle.std.specs.Prelude.{◌≡◌, [], IfOk, OnOk};
ghost use Rattle.go_selectors.specs.Search.{Adds, IsKeyOf, KeepsSeen, Consolidates, RecallsSeen, Sees};

use crate::name::Name;
use crate::spot::Spot;
use go_base::memory::NoMemory;
use go_model::types::term::Term;
use indexmap::IndexSet;
use std::alloc::Global;

/// A defined type, and whether the path to it went through a pointer.
#[derive(Drop, PartialEq, Eq, Hash)]
pub(crate) struct Key<'a> {
    through: bool,
    name: Name<'a>,
}

/// What was seen once, and what twice: a third time tells nothing more.
#[derive(Drop)]
pub(crate) struct Seen<'a> {
    alloc: Global,
    once: IndexSet<Key<'a>>,
    twice: IndexSet<Key<'a>>,
}

// Adds a key, and tells whether it wasn't there.
fn add<'a>(keys: &mut IndexSet<Key<'a>>, key: Key<'a>) -> Result<bool, NoMemory>
    ensures { IfOk result (Adds keys.old.keys keys.new.keys key.entry) }
{
    Ok(keys.insert(key)?)
}

fn again<'a>(key: &Key<'a>) -> Key<'a>
    ensures { result ≡ key.now }
{
    Key {
        through: key.through,
        name: key.name.again(),
    }
}

fn key_of<'a>(spot: &Spot<'a>) -> Option<Key<'a>>
    ensures { IsKeyOf spot.now result }
{
    match spot.term() {
        Term::Named(name) => Some(Key {
            through: spot.through(),
            name: Name::new(name),
        }),
        _ => None,
    }
}

impl<'a> Seen<'a> {
    /// Nothing.
    pub(crate) fn new(alloc: Global) -> Seen<'a>
        ensures once { result.once.keys ≡ [] }
        ensures twice { result.twice.keys ≡ [] }
    {
        Seen {
            alloc,
            once: IndexSet::new(alloc),
            twice: IndexSet::new(alloc),
        }
    }

    // Whether a type was seen twice before.
    fn sees(&mut self, key: Key<'a>) -> Result<bool, NoMemory>
        ensures { IfOk result (Sees self.old.once.keys self.old.twice.keys self.new.once.keys self.new.twice.keys key.entry) }
    {
        if add(&mut self.once, again(&key))? {
            return Ok(false);
        }
        Ok(!add(&mut self.twice, key)?)
    }

    // Whether a spot tells nothing more; else it is kept next.
    fn recalls(&mut self, spot: &Spot<'a>) -> Result<bool, NoMemory>
        ensures { IfOk result (RecallsSeen self.old.once.keys self.old.twice.keys self.new.once.keys self.new.twice.keys spot.now) }
    {
        match key_of(spot) {
            Some(key) => {
                let known = self.sees(key)?;
                Ok(known)
            }
            None => Ok(false),
        }
    }

    fn keep(&mut self, kept: &mut Vec<Spot<'a>>, spot: &Spot<'a>) -> Result<(), NoMemory>
        ensures { OnOk result (KeepsSeen self.old.once.keys self.old.twice.keys self.new.once.keys self.new.twice.keys kept.old.items kept.new.items spot.now) }
    {
        if self.recalls(spot)? {
            return Ok(());
        }
        kept.push(spot.again())?;
        Ok(())
    }

    /// What a layer keeps of these spots.
    pub(crate) fn consolidated(&mut self, all: &Vec<Spot<'a>>) -> Result<Vec<Spot<'a>>, NoMemory>
        ensures { IfOk result (λ kept. Consolidates self.old.once.keys self.old.twice.keys self.new.once.keys self.new.twice.keys all.now.items kept.items) }
    {
        let mut kept = Vec::new(self.alloc);
        for spot in all {
            self.keep(&mut kept, spot)?;
        }
        Ok(kept)
    }
}
