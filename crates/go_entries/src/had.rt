//! Entries by the numbers of their declarations.
ghost use Rattle.std.specs.Prelude.{◌≡◌, ◌<◌, ℕ, None, length, replicate, IfOk, if◌then◌else◌, nat_eq};
ghost use Rattle.go_entries.specs.Entries.{entry_of};
ghost use Rattle.go_entries.specs.HadEntries.{entries_at, found_entry};
ghost use Rattle.go_package_scopes.specs.KeptScopes.{with_entry};

use crate::entry::Entry;
use go_base::memory::NoMemory;
use std::alloc::Global;
use std::marker::Model;

/// For each declaration of a package, by number, its entry where it is had.
pub struct HadEntries {
    entries: Vec<Option<Entry>>,
}

impl Drop for HadEntries {
    fn drop(self) {
        let HadEntries { entries: _ } = self;
    }
}

impl Model for HadEntries {
    ghost use Rattle.std.specs.Coded.{coded_list, codes};
    ghost use Rattle.std.specs.Prelude.{List, Option};
    ghost use Rattle.go_entries.specs.HadEntries.{given};
    ghost use Rattle.go_entries.specs.declared.entry.Entry.{Entry as Had};
    ghost use Rattle.go_entries.specs.contracts.entry.Entry as e;

    ghost Value = { List (Option Had) };

    ghost coded = { Prim.hlevel (codes, e.the_row.coded) };

    ghost view = { λ h. h.entries.items };
}

impl HadEntries {
    /// None is had of so many declarations.
    pub fn new(alloc: Global, count: usize) -> Result<HadEntries, NoMemory>
        ensures { IfOk result (λ had. had ≡ replicate count None) }
    {
        let mut entries = Vec::new(alloc);
        for _ in 0..count {
            entries.push(None)?;
        }
        Ok(HadEntries { entries })
    }

    /// How many declarations there are.
    pub fn count(&self) -> usize
        ensures { result ≡ length self.now }
    {
        self.entries.len()
    }

    /// The entry of the declaration of a number, where it is had.
    pub fn get(&self, number: usize) -> Option<&Entry>
        ensures { found_entry result ≡ entries_at self.now number }
    {
        match self.entries.get(number) {
            Some(entry) => entry.as_ref(),
            None => None,
        }
    }

    /// Gives the declaration of a number this entry.
    pub fn put(&mut self, number: usize, entry: Entry)
        requires { number < length self.old }
        ensures count { length self.new ≡ length self.old }
        ensures put { entries_at self.new ≡ with_entry (entries_at self.old) number (entry_of entry) }
    {
        self.entries[number] = Some(entry);
    }

    /// Takes the entry of the declaration of a number away.
    pub fn remove(&mut self, number: usize)
        requires { number < length self.old }
        ensures count { length self.new ≡ length self.old }
        ensures removed { (n : ℕ) → entries_at self.new n ≡ (if nat_eq n number then None else entries_at self.old n) }
    {
        self.entries[number] = None;
    }
}
