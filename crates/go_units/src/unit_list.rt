//! The packages of a tree.
ghost use Rattle.std.specs.Prelude.{◌<◌, length};
ghost use Rattle.go_units.specs.UnitOrders.{AreInOrder};

use crate::unit::Unit;
use go_base::list::List;

/// The packages of a tree on a platform, with those of the standard library that they reach, in canonical order.
#[derive(Drop)]
pub struct Units {
    pub packages: List<Unit>,
    pub ghost ordered: { ∥ AreInOrder packages ∥₁ },
    pub ghost few: { length packages < 4294967296 },
}
