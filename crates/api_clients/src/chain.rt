//! What was typed on the platform before.
ghost use Rattle.api_clients.specs.inner.Chains.{IsChain};

use api_worlds::go_work::typed::TypedUnits;

/// The packages of the last platform that was looked at as they were typed there, for the next one to take over.
pub(crate) struct Chain {
    pub typed: Option<TypedUnits>,
    /// Whether packages are kept and taken over.
    pub keeps: bool,
}

impl Drop for Chain {
    fn drop(self) {
        let Chain { typed: _, keeps: _ } = self;
    }
}

impl Chain {
    /// Before the first platform.
    pub(crate) fn new(keeps: bool) -> Chain
        ensures { IsChain result }
    {
        Chain { typed: None, keeps }
    }
}
