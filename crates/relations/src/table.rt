//! The defined types that were read.
ghost use Rattle.relations.specs.Entries.{held};

use go_base::text::Text;
use go_model::types::declared_method::DeclaredMethod;
use go_model::types::names::{Sel, TypeName};
use go_model::types::package::Defined;
use go_model::types::table::TypeTable;
use indexmap::IndexMap;
use std::alloc::Global;
use worlds::refusal::Refusal;

/// Defined types by path and name.
#[derive(Drop)]
pub struct Table {
    alloc: Global,
    packages: IndexMap<Text, IndexMap<Text, Defined>>,
}

impl Table {
    /// No type.
    pub fn new(alloc: Global) -> Table {
        Table {
            alloc,
            packages: IndexMap::new(alloc),
        }
    }

    /// Adds a type, whose name isn't there.
    pub fn add(&mut self, name: TypeName, defined: Defined) -> Result<(), Refusal> {
        let (path, name) = name.into_parts();
        let package = self
            .packages
            .entry(path)?
            .or_insert(IndexMap::new(self.alloc));
        if package.insert(name, defined)?.is_some() {
            return Err(Refusal::WrongLine);
        }
        Ok(())
    }
}

impl TypeTable for Table {
    ghost lookup = { λ t. held t.packages };

    fn defined(&self, name: &TypeName) -> Option<&Defined> {
        let package = self.packages.get(&name.path)?;
        package.get(&name.name)
    }

    fn declared(&self, _: &TypeName, _: &Sel) -> DeclaredMethod<'_> {
        DeclaredMethod::Unknown
    }
}
