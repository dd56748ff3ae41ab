//! What stays the same while packages are checked level by level.
use go_base::list::List;
use go_units::unit::Unit;
use std::snapshot::Snapshot;

/// The packages of a tree and their levels. The syntax of the packages isn't kept by it.
#[derive(Drop)]
pub(crate) struct Plan {
    /// The packages in canonical order, as they were at first.
    pub units: Snapshot<List<Unit>>,
    /// The level of each.
    pub levels: List<usize>,
    pub bits: u32,
}
