//! Worlds: typed packages together.
ghost use Rattle.std.specs.Prelude.{◌≡◌, ◌<◌, [], map, OnOk, OnErr, IsOk, IfSome, vec_len, vec_capacity};
ghost use Rattle.go_base.specs.Lists.{Ascending};
ghost use Rattle.go_base.specs.Keys.{first_with, item_of};
ghost use Rattle.go_base.specs.Keys.{placed};
ghost use Rattle.go_model.specs.worlds.Worlds.{IsPackage, IsWorld, with_package, table_of, path_of, object_in};

use crate::types::declared_method::{DeclaredMethod, find_method};
use crate::types::keyed::{find_key, place_for};
use crate::types::names::{Sel, TypeName};
use crate::types::package::{Defined, Object, Package};
use crate::types::table::TypeTable;
use go_base::memory::NoMemory;
use go_base::text::Text;
use std::alloc::Global;
use std::marker::Model;

/// Packages after typing, and the paths of those that are public, each ordered by path. What it keeps
/// is told by the definition of a world: among it, that each name of a defined type in it is one of a
/// package in it, or `error`, and that no package of it is a client's.
pub struct World {
    alloc: Global,
    packages: Vec<Package>,
    public: Vec<Text>,
}

impl Drop for World {
    fn drop(self) {
        let World {
            alloc: _,
            packages: _,
            public: _,
        } = self;
    }
}

impl Model for World {
    ghost use Rattle.go_model.specs.worlds.Worlds.{Packages, IsWorld};
    ghost use Rattle.go_model.specs.contracts.types.term.Term as t;
    ghost use Rattle.go_model.specs.contracts.types.package.Package as p;
    ghost use Rattle.std.specs.Coded.{codes};

    ghost Value = { Packages };

    ghost coded = { Prim.hlevel (codes, t.the_row.coded, p.the_row.coded) };

    ghost view = { λ w. record { packages = w.packages.items; publics = w.public.items } };

    ghost invariant = { λ w. IsWorld (record { packages = w.packages.items; publics = w.public.items }) };
}

fn insert_package(packages: &mut Vec<Package>, package: Package) -> Result<(), NoMemory>
    requires { Ascending (map path_of packages.old.items) }
    ensures ok { OnOk result (packages.new.items ≡ placed path_of «package» packages.old.items) }
    ensures err { OnErr result (packages.new.items ≡ packages.old.items) }
{
    let at = place_for(packages, package.path.bytes());
    packages.insert(at, package)?;
    Ok(())
}

// Where there is room, this succeeds.
fn insert_text(texts: &mut Vec<Text>, text: Text) -> Result<(), NoMemory>
    requires { Ascending texts.old.items }
    ensures room { vec_len texts.old < vec_capacity texts.old → IsOk result }
    ensures ok { OnOk result (texts.new.items ≡ placed (λ t. t) text texts.old.items) }
    ensures err { OnErr result (texts.new.items ≡ texts.old.items) }
{
    let at = place_for(texts, text.bytes());
    texts.insert(at, text)?;
    Ok(())
}

impl World {
    /// No package.
    pub fn empty(alloc: Global) -> World
        ensures { result ≡ record { packages = []; publics = [] } }
    {
        World {
            alloc,
            packages: Vec::new(alloc),
            public: Vec::new(alloc),
        }
    }

    /// Adds a package in its place, which is public or not. No package of its path is there.
    pub fn add(&mut self, package: Package, public: bool) -> Result<(), NoMemory>
        requires { IsWorld (with_package self.old «package» public) }
        ensures ok { OnOk result (self.new ≡ with_package self.old «package» public) }
        ensures err { OnErr result (self.new ≡ self.old) }
    {
        if !public {
            return insert_package(&mut self.packages, package);
        }
        let path = package.path.copy()?;
        self.public.reserve(1)?;
        insert_package(&mut self.packages, package)?;
        insert_text(&mut self.public, path)
    }

    /// The packages, ordered by path.
    pub fn packages(&self) -> &[Package]
        ensures packages { result.now ≡ self.now.packages }
        ensures world { IsWorld self.now }
    {
        &self.packages
    }

    /// The paths of the public packages, ordered.
    pub fn public(&self) -> &[Text]
        ensures { result.now ≡ self.now.publics }
    {
        &self.public
    }
}

impl World {
    /// The package of a path; None where it has none.
    pub fn package(&self, path: &[u8]) -> Option<&Package>
        ensures package { item_of result ≡ first_with path_of self.now.packages path.now }
        ensures kept { IfSome result (λ found. IsPackage (table_of self.now.packages) found.now) }
    {
        find_key(self.packages(), path)
    }

    /// The object of a name in the package of a path; None where there is none.
    pub fn object(&self, path: &[u8], name: &[u8]) -> Option<&Object>
        ensures { item_of result ≡ object_in (first_with path_of self.now.packages path.now) name.now }
    {
        match self.package(path) {
            Some(found) => found.object(name),
            None => None,
        }
    }
}

impl TypeTable for World {
    ghost lookup = { λ w. table_of w.packages };

    fn defined(&self, name: &TypeName) -> Option<&Defined> {
        match self.package(name.path.bytes()) {
            Some(found) => found.defined_type(name.name.bytes()),
            None => None,
        }
    }

    fn declared(&self, name: &TypeName, sel: &Sel) -> DeclaredMethod<'_> {
        match self.package(name.path.bytes()) {
            Some(found) => match found.defined_type(name.name.bytes()) {
                Some(defined) => find_method(defined.methods.items(), sel),
                None => DeclaredMethod::Absent,
            },
            None => DeclaredMethod::Absent,
        }
    }
}
