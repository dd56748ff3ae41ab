//! Names that a package is known to declare.
ghost use Rattle.std.specs.Prelude.{[], ◌≡◌, true, is_some, OnOk, OnErr};
ghost use Rattle.go_rules.specs.Names.{value_at, with_value};
ghost use Rattle.go_rules.specs.inner.Announced.{AllBefore, Rise};

use go_syntax::go_base::memory::NoMemory;
use go_syntax::go_base::text::Text;
use std::alloc::Global;
use std::marker::Model;

/// Names in the order of bytes, each once.
pub(crate) struct Announced {
    names: Vec<Text>,
}

impl Drop for Announced {
    fn drop(self) {
        let Announced { names: _ } = self;
    }
}

impl Model for Announced {
    ghost use Rattle.std.specs.Coded.{coded_list, coded×, coded_ℕ};
    ghost use Rattle.go_rules.specs.Names.{Named};
    ghost use Rattle.go_rules.specs.inner.Announced.{listed, Rise};

    ghost Value = { Named (Unit {0}) };

    ghost view = { λ a. listed a.names.items };

    ghost invariant = { λ a. Rise a.names.items };
}

// Whether a name comes behind each of these.
fn is_behind(names: &[Text], name: &Text) -> bool
    requires { Rise names.now }
    ensures { result ≡ true → AllBefore names.now name.now }
{
    match names.last() {
        Some(last) => last.cmp(name).is_lt(),
        None => true,
    }
}

impl Announced {
    /// No name.
    pub(crate) fn new(alloc: Global) -> Announced
        ensures { result ≡ [] }
    {
        Announced {
            names: Vec::new(alloc),
        }
    }

    /// Whether a name is there.
    pub(crate) fn has(&self, name: &Text) -> bool
        ensures { result ≡ is_some (value_at self.now name.now) }
    {
        self.names.binary_search(name).is_ok()
    }

    /// Adds a name, where it isn't there. One that comes behind all others is compared to the last one alone.
    pub(crate) fn put(&mut self, name: Text) -> Result<(), NoMemory>
        ensures ok { OnOk result (self.new ≡ with_value self.old name tt) }
        ensures err { OnErr result (self.new ≡ self.old) }
    {
        if is_behind(&self.names, &name) {
            self.names.push(name)?;
            return Ok(());
        }
        match self.names.binary_search(&name) {
            Ok(_) => Ok(()),
            Err(at) => {
                self.names.insert(at, name)?;
                Ok(())
            }
        }
    }
}
