//! A defined type whose methods are found by their selectors.
ghost use Rattle.std.specs.Prelude.{◌≡◌, ◌++◌, ◌∷◌, [], IfOk, OnOk, OnErr};
ghost use Rattle.go_model.specs.types.DeclaredMethods.{TellsMethod, with_sel};
ghost use Rattle.go_rules.specs.Scopes.{is_had};

use crate::place::{Place, note, note_all};
use go_model::types::declared_method::DeclaredMethod;
use go_model::types::names::Sel;
use go_model::types::package::{Defined, MethodOf};
use go_syntax::go_base::memory::NoMemory;
use std::alloc::Global;
use std::collections::BTreeMap;
use std::marker::Model;

/// A defined type, which a contract sees alone, and the places of its methods by their selectors. `told` says that each has
/// its place, as they have but where a method found no room.
pub(crate) struct DefinedRow {
    defined: Defined,
    places: BTreeMap<Sel, Place>,
    told: bool,
}

impl Drop for DefinedRow {
    fn drop(self) {
        let DefinedRow {
            defined: _,
            places: _,
            told: _,
        } = self;
    }
}

impl Model for DefinedRow {
    ghost use Rattle.std.specs.Prelude.{◌≡◌, true};
    ghost use Rattle.go_model.specs.contracts.types.package.Defined as d;
    ghost use Rattle.go_model.specs.declared.types.package.Defined.{Defined};
    ghost use Rattle.go_rules.specs.inner.Places.{ArePlaces};

    ghost Value = { Defined };

    ghost coded = { d.the_row.coded };

    ghost view = { λ r. r.defined };

    ghost invariant = { λ r. r.told ≡ true → ArePlaces r.defined.methods r.places };
}

fn has_method(methods: &[MethodOf], sel: &Sel) -> bool
    ensures { result ≡ is_had sel.now methods.now }
{
    for method in methods {
        if method.sel == *sel {
            return true;
        }
    }
    false
}

impl DefinedRow {
    /// A defined type.
    pub(crate) fn new(alloc: Global, defined: Defined) -> Result<DefinedRow, NoMemory>
        ensures { IfOk result (λ row. row ≡ defined) }
    {
        let mut places = BTreeMap::new(alloc);
        note_all(alloc, &mut places, defined.methods.items())?;
        Ok(DefinedRow {
            defined,
            places,
            told: true,
        })
    }

    /// The type.
    pub(crate) fn defined(&self) -> &Defined
        ensures { result.now ≡ self.now }
    {
        &self.defined
    }

    /// The method of a selector.
    pub(crate) fn declared(&self, sel: &Sel) -> DeclaredMethod<'_>
        ensures { TellsMethod (with_sel sel.now self.now.methods) result }
    {
        if !self.told {
            return DeclaredMethod::Unknown;
        }
        match self.places.get(sel) {
            Some(Place::Once(at)) => match self.defined.methods.items().get(*at) {
                Some(method) => DeclaredMethod::Once(method),
                None => DeclaredMethod::Absent,
            },
            Some(Place::Several) => DeclaredMethod::Unknown,
            None => DeclaredMethod::Absent,
        }
    }

    /// Whether a method has a selector.
    pub(crate) fn has(&self, sel: &Sel) -> bool
        ensures { result ≡ is_had sel.now self.now.methods }
    {
        if !self.told {
            return has_method(self.defined.methods.items(), sel);
        }
        self.places.contains_key(sel)
    }

    /// Adds a method after those that it has.
    pub(crate) fn add_method(&mut self, alloc: Global, method: MethodOf) -> Result<(), NoMemory>
        ensures ok { OnOk result (self.new ≡ record self.old { methods = self.old.methods ++ method ∷ [] }) }
        ensures err { OnErr result (self.new ≡ self.old) }
    {
        let told = self.told;
        self.told = false;
        let at = self.defined.methods.items().len();
        note(alloc, &mut self.places, &method.sel, at)?;
        self.defined.methods.push(method)?;
        self.told = told;
        Ok(())
    }
}
