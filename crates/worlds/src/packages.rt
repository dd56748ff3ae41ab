//! Packages in the making, and the worlds that take them.
use crate::admission::admits;
use crate::objects::{defined, entity, type_entity};
use crate::read::{Stack, split, text};
use crate::refusal::Refusal;
use go_base::list::List;
use go_base::memory::NoMemory;
use go_base::shared::Shared;
use go_base::text::Text;
use go_model::types::package::{Defined, Object, Package};
use go_model::types::world::World;
use std::alloc::Global;

/// A package, of which some lines were read.
#[derive(Drop)]
pub struct Making {
    path: Text,
    name: Text,
    objects: List<Object>,
    defined: List<Defined>,
}

impl Making {
    /// The package of a path and a name, without objects.
    pub fn new(alloc: Global, words: &str) -> Result<Making, Refusal> {
        let (path, name) = split(words)?;
        Ok(Making {
            path: text(alloc, path)?,
            name: text(alloc, name)?,
            objects: List::new(alloc),
            defined: List::new(alloc),
        })
    }

    /// Adds what a line declares. Names stand in the order of their bytes.
    pub fn declare(
        &mut self,
        alloc: Global,
        stack: &mut Stack,
        kind: &str,
        words: &str,
    ) -> Result<(), Refusal> {
        let (word, rest) = split(words)?;
        let entity = if kind == "type" {
            self.defined.push(defined(alloc, stack, word, rest)?)?;
            type_entity(alloc, self.path.bytes(), word)?
        } else {
            entity(alloc, stack, kind, rest)?
        };
        let name = text(alloc, word)?;
        self.objects.push(Object { name, entity })?;
        Ok(())
    }

    /// The whole package.
    pub fn package(self, alloc: Global) -> Result<Package, NoMemory> {
        let Making {
            path,
            name,
            objects,
            defined,
        } = self;
        Ok(Package {
            path,
            name,
            from_std: false,
            objects: Shared::new(alloc, objects)?,
            defined: Shared::new(alloc, defined)?,
        })
    }
}

/// Adds a package to a world, where that stays one.
pub fn add(world: &mut World, package: Package) -> Result<(), Refusal> {
    if !admits(world, &package) {
        return Err(Refusal::WrongLine);
    }
    world.add(package, true)?;
    Ok(())
}
