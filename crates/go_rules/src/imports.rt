//! The imports of the files of a package.
ghost use Rattle.std.specs.Prelude.{◌≡◌, [], nat_eq, OnOk, OnErr};
ghost use Rattle.std.specs.BTreeMap.{insert_entry};
ghost use Rattle.std.specs.Map.{lookup};
ghost use Rattle.std.specs.Ordering.{nat_cmp};
ghost use Rattle.go_syntax.specs.go_base.Keys.{item_of};
ghost use Rattle.go_rules.specs.Names.{value_at, with_value};
ghost use Rattle.go_rules.specs.Scopes.{imports_in};

use crate::names::Names;
use go_syntax::go_base::memory::NoMemory;
use go_syntax::go_base::text::Text;
use std::alloc::Global;
use std::collections::BTreeMap;
use std::marker::Model;

/// The paths that each file imports under a name. A file that isn't there imports nothing.
pub(crate) struct Imports {
    files: BTreeMap<u32, Names<Text>>,
}

impl Drop for Imports {
    fn drop(self) {
        let Imports { files: _ } = self;
    }
}

impl Model for Imports {
    ghost use Rattle.std.specs.Prelude.{List, ℕ};
    ghost use Rattle.go_rules.specs.Names.{Named};

    ghost Value = { List (ℕ × Named (List ℕ)) };

    ghost view = { λ i. i.files.entries };
}

impl Imports {
    /// No import.
    pub(crate) fn new(alloc: Global) -> Imports
        ensures { result ≡ [] }
    {
        Imports {
            files: BTreeMap::new(alloc),
        }
    }

    /// The path that a file imports under a name.
    pub(crate) fn get(&self, file: u32, name: &Text) -> Option<&Text>
        ensures { item_of result ≡ value_at (imports_in (lookup (nat_eq file) self.now)) name.now }
    {
        match self.files.get(&file) {
            Some(names) => names.get(name),
            None => None,
        }
    }

    /// The file imports the path under the name.
    pub(crate) fn add(
        &mut self,
        alloc: Global,
        file: u32,
        name: Text,
        path: Text,
    ) -> Result<(), NoMemory>
        ensures ok { OnOk result (self.new ≡ insert_entry nat_cmp self.old file (with_value (imports_in (lookup (nat_eq file) self.old)) name path)) }
        ensures err { OnErr result (self.new ≡ self.old) }
    {
        if let Some(names) = self.files.get_mut(&file) {
            return names.put(name, path);
        }
        let mut names = Names::new(alloc);
        names.put(name, path)?;
        self.files.insert(file, names)?;
        Ok(())
    }
}
