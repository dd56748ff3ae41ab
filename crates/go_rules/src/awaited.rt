//! The selectors of methods that are known.
ghost use Rattle.std.specs.Prelude.{◌≡◌, ◌++◌, ◌∷◌, [], OnOk, OnErr};
ghost use Rattle.go_rules.specs.Environments.{is_among};

use go_model::types::names::Sel;
use go_syntax::go_base::list::List;
use go_syntax::go_base::memory::NoMemory;
use std::alloc::Global;
use std::collections::BTreeMap;
use std::marker::Model;

/// Selectors as they came, which a contract sees alone, and once more in order. `told` says that these are the same, as they
/// are but where a selector found no room.
pub(crate) struct Awaited {
    selectors: List<Sel>,
    ordered: BTreeMap<Sel, ()>,
    told: bool,
}

impl Drop for Awaited {
    fn drop(self) {
        let Awaited {
            selectors: _,
            ordered: _,
            told: _,
        } = self;
    }
}

impl Model for Awaited {
    ghost use Rattle.std.specs.Prelude.{◌≡◌, List, true};
    ghost use Rattle.go_model.specs.declared.types.names.Sel.{Sel};
    ghost use Rattle.go_rules.specs.inner.Places.{HoldsEach};

    ghost Value = { List Sel };

    ghost view = { λ a. a.selectors };

    ghost invariant = { λ a. a.told ≡ true → HoldsEach a.selectors a.ordered };
}

fn is_among(selectors: &[Sel], sel: &Sel) -> bool
    ensures { result ≡ is_among sel.now selectors.now }
{
    for selector in selectors {
        if selector == sel {
            return true;
        }
    }
    false
}

impl Awaited {
    /// No selector.
    pub(crate) fn new(alloc: Global) -> Awaited
        ensures { result ≡ [] }
    {
        Awaited {
            selectors: List::new(alloc),
            ordered: BTreeMap::new(alloc),
            told: true,
        }
    }

    /// Whether a selector is among them.
    pub(crate) fn has(&self, sel: &Sel) -> bool
        ensures { result ≡ is_among sel.now self.now }
    {
        if !self.told {
            return is_among(self.selectors.items(), sel);
        }
        self.ordered.contains_key(sel)
    }

    /// Adds a selector.
    pub(crate) fn push(&mut self, alloc: Global, sel: Sel) -> Result<(), NoMemory>
        ensures ok { OnOk result (self.new ≡ self.old ++ sel ∷ []) }
        ensures err { OnErr result (self.new ≡ self.old) }
    {
        let told = self.told;
        self.told = false;
        let key = sel.copy(alloc)?;
        self.ordered.insert(key, ())?;
        self.selectors.push(sel)?;
        self.told = told;
        Ok(())
    }
}
