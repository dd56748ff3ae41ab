//! Outlines that are known before files are read.
ghost use Rattle.std.specs.Prelude.{IfOk, IfSome};
ghost use Rattle.go_imports.specs.Outlines.{IsOutlineOf};

use go_base::memory::NoMemory;
use go_base::text::Text;
use go_imports::outline::Outline;
use go_units::unit::{Unit, UnitFile};
use std::alloc::Global;
use std::collections::BTreeMap;

/// Outlines of files that were read before, by the paths of these. A file that has the bytes of the one of its path needn't be parsed again.
pub struct KnownOutlines {
    by_path: BTreeMap<Text, Outline>,
}

impl Drop for KnownOutlines {
    fn drop(self) {
        let KnownOutlines { by_path: _ } = self;
    }
}

impl KnownOutlines {
    /// None.
    pub fn none(alloc: Global) -> KnownOutlines {
        KnownOutlines {
            by_path: BTreeMap::new(alloc),
        }
    }

    /// That of the file of this path too, in place of an earlier one.
    pub fn know(&mut self, path: Text, outline: Outline) -> Result<(), NoMemory> {
        self.by_path.insert(path, outline)?;
        Ok(())
    }

    fn add_file(&mut self, file: &UnitFile) -> Result<(), NoMemory> {
        let path = file.path.copy()?;
        let outline = file.outline.share()?;
        self.know(path, outline)
    }

    fn add_unit(&mut self, unit: &Unit) -> Result<(), NoMemory> {
        for file in unit.files.items() {
            self.add_file(file)?;
        }
        Ok(())
    }

    /// Those of the files of these packages too. Of two files with one path the later one is known.
    pub fn add(&mut self, alloc: Global, units: &[Unit]) -> Result<(), NoMemory> {
        for unit in units {
            self.add_unit(unit)?;
        }
        Ok(())
    }

    /// The outline of the file of this path, where it is known as that of these bytes.
    pub fn find(&self, path: &Text, bytes: &[u8]) -> Result<Option<Outline>, NoMemory>
        ensures { IfOk result (λ found. IfSome found (IsOutlineOf bytes.now)) }
    {
        match self.by_path.get(path) {
            None => Ok(None),
            Some(outline) => {
                if outline.is_of(bytes) {
                    let outline = outline.share()?;
                    return Ok(Some(outline));
                }
                Ok(None)
            }
        }
    }
}
