//! The levels that are known of paths.
ghost use Rattle.std.specs.Prelude.{◌≡◌, [], OnOk};
ghost use Rattle.go_rules.specs.Names.{value_at, with_value};

use go_base::memory::NoMemory;
use go_base::text::Text;
use std::alloc::Global;
use std::collections::BTreeMap;
use std::marker::Model;

/// Levels by the paths of packages.
pub(crate) struct KnownLevels {
    entries: BTreeMap<Text, usize>,
}

impl Drop for KnownLevels {
    fn drop(self) {
        let KnownLevels { entries: _ } = self;
    }
}

impl Model for KnownLevels {
    ghost use Rattle.std.specs.Prelude.{ℕ};
    ghost use Rattle.std.specs.Coded.{coded_list, coded×, coded_ℕ};
    ghost use Rattle.go_rules.specs.Names.{Named};

    ghost Value = { Named ℕ };

    ghost coded = { coded_list (coded× (coded_list coded_ℕ) coded_ℕ) };

    ghost view = { λ n. n.entries.entries };
}

impl KnownLevels {
    /// None.
    pub(crate) fn new(alloc: Global) -> KnownLevels
        ensures { result ≡ [] }
    {
        KnownLevels {
            entries: BTreeMap::new(alloc),
        }
    }

    /// The level of a path.
    pub(crate) fn of(&self, path: &Text) -> Option<usize>
        ensures { result ≡ value_at self.now path.now }
    {
        self.entries.get(path).copied()
    }

    /// Gives a path a level.
    pub(crate) fn put(&mut self, path: Text, level: usize) -> Result<(), NoMemory>
        ensures { OnOk result (self.new ≡ with_value self.old path level) }
    {
        self.entries.insert(path, level)?;
        Ok(())
    }
}
