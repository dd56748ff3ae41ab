//! What gives declarations their entries, one at a time.
ghost use Rattle.std.specs.Prelude.{◌≡◌, ◌<◌, length, OnOk};
ghost use Rattle.go_typings.specs.Declarations.{declarations};
ghost use Rattle.go_typings.specs.PackageEnvironments.{Entries};
ghost use Rattle.go_typings.specs.Sources.{PackageSource, Setting};
ghost use Rattle.go_settling.specs.Settling.{Attempts};

use go_base::memory::NoMemory;

/// Holds a package and the entries of its declarations that are had so far.
pub trait Giver {
    /// What the package is typed in.
    ghost setting: { Self → Setting };

    /// The package.
    ghost source: { Self → PackageSource };

    /// What is had so far.
    ghost entries: { Self → Entries };

    /// What holds of it between calls, until one of them finds no memory.
    ghost holds: { Self → Type 0 };

    /// How many declarations the package has.
    fn count(&self) -> usize
        requires { holds self.now }
        ensures { result ≡ length (declarations (source self.now)) };

    /// Settles the declaration of a number, where it has no entry and those that are had give it one: then true.
    fn settle(&mut self, number: usize) -> Result<bool, NoMemory>
        requires below { number < length (declarations (source self.old)) }
        requires held { holds self.old }
        ensures held { OnOk result (holds self.new) }
        ensures same_setting { setting self.new ≡ setting self.old }
        ensures same_source { source self.new ≡ source self.old }
        ensures attempts { Attempts (setting self.old) (source self.old) (entries self.old) number result (entries self.new) };
}
