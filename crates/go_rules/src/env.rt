//! What an expression is typed in.
ghost use Rattle.std.specs.Prelude.{◌≡◌, ◌≢◌, ◌⊎◌, ◌↔◌, ◌∷◌, [], true, drop, IfOk, OnOk, OnErr};
ghost use Rattle.go_syntax.specs.go_base.Keys.{item_of};
ghost use Rattle.go_rules.specs.Environments.{is_among, selector_of};
ghost use Rattle.go_rules.specs.Meanings.{as_seen};
ghost use Rattle.go_rules.specs.Scopes.{env_of, innermost, is_declared, is_imported, new_scopes, with_announced, with_awaited, with_defined, with_import, with_meaning, with_method};

use crate::announced::Announced;
use crate::awaited::Awaited;
use crate::defined_row::DefinedRow;
use crate::exports::is_exported;
use crate::imports::Imports;
use crate::meaning::Meaning;
use crate::methods::is_lacking;
use crate::names::Names;
use crate::predeclared::universe;
use crate::seen::Seen;
use go_model::types::declared_method::DeclaredMethod;
use go_model::types::names::{Sel, TypeName};
use go_model::types::package::{Defined, Entity, MethodOf};
use go_model::types::table::TypeTable;
use go_model::types::world::World;
use go_syntax::go_base::memory::NoMemory;
use go_syntax::go_base::text::Text;
use std::alloc::Global;
use std::collections::LinkedList;
use std::marker::Model;
use thiserror::Error;

/// A name isn't taken into a scope or among the imports of a file.
#[derive(Clone, Copy, Debug, PartialEq, Eq, Error)]
pub enum DeclareError {
    /// The scope, or the file, has the name.
    #[error("the name is there")]
    Already,
    #[error("out of memory")]
    NoMemory,
}

/// The names, objects and types that are known while a package is typed, and the place where an
/// expression stands: the world of its imports, the imports of each file and the file in turn, the
/// objects and defined types of the package that are had, the scopes that are opened, and the value
/// of `iota`. A name means what the innermost opened scope that has it says, else what the file in
/// turn imports under it, else the object of the package; a name that the package is known to
/// declare, and whose object isn't had, means nothing; and any other means what the universe says.
pub struct Env<'w> {
    alloc: Global,
    world: &'w World,
    path: Text,
    bits: u32,
    profile: bool,
    opened: LinkedList<Names<Seen>>,
    imports: Imports,
    file: u32,
    announced: Announced,
    declared: Names<Seen>,
    defined: Names<DefinedRow>,
    awaited: Names<Awaited>,
    iota: Option<u64>,
}

impl Drop for Env<'_> {
    fn drop(self) {
        let Env {
            alloc: _,
            world: _,
            path: _,
            bits: _,
            profile: _,
            opened: _,
            imports: _,
            file: _,
            announced: _,
            declared: _,
            defined: _,
            awaited: _,
            iota: _,
        } = self;
    }
}

impl<'w> Model for Env<'w> {
    ghost use Rattle.std.specs.Prelude.{◌≡◌, ◌⊎◌};
    ghost use Rattle.std.specs.Coded.{codes};
    ghost use Rattle.go_model.specs.contracts.types.package.Defined as d;
    ghost use Rattle.go_model.specs.contracts.types.package.Package as p;
    ghost use Rattle.go_model.specs.contracts.types.term.Term as t;
    ghost use Rattle.go_rules.specs.Scopes.{Scopes};
    ghost use Rattle.go_rules.specs.contracts.seen.Seen as s;

    ghost Value = { Scopes };

    ghost coded = { Prim.hlevel (codes, t.the_row.coded, d.the_row.coded, p.the_row.coded, s.the_row.coded) };

    ghost view = { λ e. record {
      world = e.world.now;
      path = e.path;
      bits = e.bits;
      profile = e.profile;
      opened = e.opened;
      imports = e.imports;
      file = e.file;
      announced = e.announced;
      declared = e.declared;
      defined = e.defined;
      awaited = e.awaited;
      iota = e.iota;
    } };

    ghost invariant = { λ e. (e.bits ≡ 32) ⊎ (e.bits ≡ 64) };
}

impl<'w> Env<'w> {
    /// The package of a path, of which nothing is known, over the world of its imports, where `int`,
    /// `uint` and `uintptr` have so many bits, in a client of the profile or not. No scope is opened
    /// inside of the package's, file 0 is in turn, and `iota` has no value.
    pub fn new(alloc: Global, imports: &'w World, path: Text, bits: u32, profile: bool) -> Env<'w>
        requires { (bits ≡ 32) ⊎ (bits ≡ 64) }
        ensures { result ≡ new_scopes imports.now path bits profile }
    {
        Env {
            alloc,
            world: imports,
            path,
            bits,
            profile,
            opened: LinkedList::new(alloc),
            imports: Imports::new(alloc),
            file: 0,
            announced: Announced::new(alloc),
            declared: Names::new(alloc),
            defined: Names::new(alloc),
            awaited: Names::new(alloc),
            iota: None,
        }
    }
}

// What changes.
impl Env<'_> {
    /// Adds an import to a file: the path that it imports under a name. `Already` comes exactly where
    /// that file has an import of that name.
    pub fn import(&mut self, file: u32, name: Text, path: Text) -> Result<(), DeclareError>
        ensures ok { OnOk result (self.new ≡ with_import self.old file name path) }
        ensures already { (result ≡ Err DeclareError.Already) ↔ (is_imported self.old file name ≡ true) }
        ensures err { OnErr result (self.new ≡ self.old) }
    {
        if self.imports.get(file, &name).is_some() {
            return Err(DeclareError::Already);
        }
        match self.imports.add(self.alloc, file, name, path) {
            Ok(()) => Ok(()),
            Err(NoMemory) => Err(DeclareError::NoMemory),
        }
    }

    /// Makes this file the one whose imports a look-up reads.
    pub fn turn_to(&mut self, file: u32)
        ensures { self.new ≡ record self.old { file = file } }
    {
        self.file = file;
    }

    /// Gives `iota` this value, or none.
    pub fn set_iota(&mut self, place: Option<u64>)
        ensures { self.new ≡ record self.old { iota = place } }
    {
        self.iota = place;
    }

    /// Opens a scope inside of the innermost one.
    pub fn open_scope(&mut self) -> Result<(), NoMemory>
        ensures ok { OnOk result (self.new ≡ record self.old { opened = [] ∷ self.old.opened }) }
        ensures err { OnErr result (self.new ≡ self.old) }
    {
        self.opened.push_front(Names::new(self.alloc))?;
        Ok(())
    }

    /// Ends the innermost scope and its names. A scope is open inside of the package's.
    pub fn close_scope(&mut self)
        requires { self.old.opened ≢ [] }
        ensures { self.new ≡ record self.old { opened = drop 1 self.old.opened } }
    {
        let _closed = self.opened.pop_front();
    }

    /// Notes that the package declares a name, which means nothing from then on, until it is declared.
    pub fn announce(&mut self, name: Text) -> Result<(), NoMemory>
        ensures ok { OnOk result (self.new ≡ with_announced self.old name) }
        ensures err { OnErr result (self.new ≡ self.old) }
    {
        self.announced.put(name)
    }

    /// Gives a name a meaning in the innermost scope. `Already` comes exactly where that scope has the
    /// name.
    pub fn declare(&mut self, name: Text, seen: Seen) -> Result<(), DeclareError>
        ensures ok { OnOk result (self.new ≡ with_meaning self.old name seen) }
        ensures already { (result ≡ Err DeclareError.Already) ↔ (is_declared self.old name ≡ true) }
        ensures err { OnErr result (self.new ≡ self.old) }
    {
        match self.opened.front_mut() {
            Some(scope) => scope.add(name, seen),
            None => self.declared.add(name, seen),
        }
    }

    /// Puts a defined type of the package into the table, in place of one of that name.
    pub fn define(&mut self, defined: Defined) -> Result<(), NoMemory>
        ensures ok { OnOk result (self.new ≡ with_defined self.old defined) }
        ensures err { OnErr result (self.new ≡ self.old) }
    {
        let name = defined.name.copy()?;
        let row = DefinedRow::new(self.alloc, defined)?;
        self.defined.put(name, row)
    }

    /// Adds a method to the package's type of a name, after those that it has; nothing changes where no type of that name is
    /// defined.
    pub fn add_method(&mut self, name: &Text, method: MethodOf) -> Result<(), NoMemory>
        ensures ok { OnOk result (self.new ≡ with_method self.old name.now method) }
        ensures err { OnErr result (self.new ≡ self.old) }
    {
        self.defined.add_method(self.alloc, name, method)
    }

    /// Notes that the package's type of a name has a method with a selector: it is missing until a type
    /// of that name with such a method is defined.
    pub fn await_method(&mut self, name: Text, sel: Sel) -> Result<(), NoMemory>
        ensures ok { OnOk result (self.new ≡ with_awaited self.old name sel) }
        ensures err { OnErr result (self.new ≡ self.old) }
    {
        self.awaited.push(self.alloc, name, sel)
    }
}

// Look-ups.
impl Env<'_> {
    /// What a name means; None where it means nothing.
    pub fn meaning(&self, name: &Text) -> Option<Meaning<'_>>
        ensures { as_seen result ≡ (env_of self.now).meaning name.now }
    {
        if let Some(seen) = innermost(&self.opened, name) {
            return Some(seen.meaning());
        }
        if let Some(path) = self.imports.get(self.file, name) {
            return Some(Meaning::Import(path));
        }
        if let Some(seen) = self.declared.get(name) {
            return Some(seen.meaning());
        }
        if self.announced.has(name) {
            return None;
        }
        match universe(name.bytes()) {
            Some(predeclared) => Some(Meaning::Universe(predeclared)),
            None => None,
        }
    }

    /// What a name means, copied; None where it means nothing.
    pub fn lookup(&self, name: &Text) -> Result<Option<Seen>, NoMemory>
        ensures { IfOk result (λ seen. seen ≡ (env_of self.now).meaning name.now) }
    {
        match self.meaning(name) {
            Some(meaning) => Ok(Some(meaning.copy(self.alloc)?)),
            None => Ok(None),
        }
    }

    /// The object that an imported package, by its path, declares under a name.
    pub fn object(&self, path: &[u8], name: &[u8]) -> Option<&Entity>
        ensures { item_of result ≡ (env_of self.now).object path.now name.now }
    {
        match self.world.object(path, name) {
            Some(object) => Some(&object.entity),
            None => None,
        }
    }

    /// The selector of a name: exported, or of the package that is typed.
    pub fn selector(&self, name: &[u8]) -> Result<Sel, NoMemory>
        ensures { IfOk result (λ sel. sel ≡ selector_of (env_of self.now) name.now) }
    {
        let package: &[u8] = if is_exported(name) {
            b""
        } else {
            self.path.bytes()
        };
        Ok(Sel {
            name: Text::of(self.alloc, name)?,
            package: Text::of(self.alloc, package)?,
        })
    }

    /// Whether a method of a defined type is known by its selector, and its signature isn't had.
    pub fn is_missing(&self, name: &TypeName, sel: &Sel) -> bool
        ensures { result ≡ is_among sel.now ((env_of self.now).missing name.now) }
    {
        if self.path != name.path {
            return false;
        }
        match self.awaited.get(&name.name) {
            Some(known) => is_lacking(known, self.defined.get(&name.name), sel),
            None => false,
        }
    }

    /// The bits of `int`, `uint` and `uintptr`.
    pub fn bits(&self) -> u32
        ensures bits { result ≡ (env_of self.now).bits }
        ensures word { (result ≡ 32) ⊎ (result ≡ 64) }
    {
        self.bits
    }

    /// Whether in a client of the profile.
    pub fn is_profile(&self) -> bool
        ensures { result ≡ (env_of self.now).profile }
    {
        self.profile
    }

    /// The path of the package that is typed.
    pub fn path(&self) -> &[u8]
        ensures { result.now ≡ (env_of self.now).path }
    {
        self.path.bytes()
    }

    /// The value of `iota`, where it has one.
    pub fn iota(&self) -> Option<u64>
        ensures { result ≡ (env_of self.now).iota }
    {
        self.iota
    }
}

impl TypeTable for Env<'_> {
    ghost lookup = { λ s. (env_of s).table };

    fn defined(&self, name: &TypeName) -> Option<&Defined> {
        if self.path == name.path {
            return match self.defined.get(&name.name) {
                Some(row) => Some(row.defined()),
                None => None,
            };
        }
        self.world.defined(name)
    }

    fn declared(&self, name: &TypeName, sel: &Sel) -> DeclaredMethod<'_> {
        if self.path != name.path {
            return self.world.declared(name, sel);
        }
        match self.defined.get(&name.name) {
            Some(row) => row.declared(sel),
            None => DeclaredMethod::Absent,
        }
    }
}

fn innermost<'a>(scopes: &'a LinkedList<Names<Seen>>, name: &Text) -> Option<&'a Seen>
    ensures { item_of result ≡ innermost scopes.now name.now }
{
    for scope in scopes.iter() {
        if let Some(seen) = scope.get(name) {
            return Some(seen);
        }
    }
    None
}
