//! Packages that were checked together.
use go_base::list::List;
use go_exposed::skipped::Skipped;
use go_model::types::world::World;
use go_units::unit::Unit;

/// A package of which something is left out.
pub struct SkippedUnit {
    /// Its files.
    pub unit: Unit,
    /// The declarations that are left out, in the order of files and places.
    pub skipped: List<Skipped>,
}

impl Drop for SkippedUnit {
    fn drop(self) {
        let SkippedUnit {
            unit: _,
            skipped: _,
        } = self;
    }
}

/// The world of packages, and what is left out of them.
pub struct CheckedWorld {
    pub world: World,
    /// The packages of which something is left out, in canonical order.
    pub skipped: List<SkippedUnit>,
}

impl CheckedWorld {
    ghost use Rattle.std.specs.Prelude.{◌≡◌};

    /// The world, moved out.
    pub fn into_world(self) -> World
        ensures { result ≡ self.world }
    {
        let CheckedWorld { world, skipped: _ } = self;
        world
    }
}

impl Drop for CheckedWorld {
    fn drop(self) {
        let CheckedWorld {
            world: _,
            skipped: _,
        } = self;
    }
}
