//! Packages that were checked.
ghost use Rattle.std.specs.Prelude.{◌≡◌};

use go_base::list::List;
use go_exposed::skipped::Skipped;
use go_model::types::package::Package;

/// A package, and the declarations that were left out of it, in the order of files and places.
#[derive(Drop)]
pub struct CheckedPackage {
    pub package: Package,
    pub skipped: List<Skipped>,
}

impl CheckedPackage {
    /// The package, and what was left out.
    pub fn into_parts(self) -> (Package, List<Skipped>)
        ensures { result ≡ (self.package, self.skipped) }
    {
        let CheckedPackage { package, skipped } = self;
        (package, skipped)
    }
}
