//! The entry hook of workers.

/// Hears of each check of a package before it begins. It has no meaning for what is checked; a
/// test counts by it who is inside.
pub trait Gate {
    /// The worker, from 0, is about to check the package of this number, from 0.
    fn enter(&self, worker: u32, package: u32);
}

/// Does nothing.
#[derive(Clone, Copy, Debug)]
pub struct OpenGate;

impl Gate for OpenGate {
    fn enter(&self, _worker: u32, _package: u32) {}
}
