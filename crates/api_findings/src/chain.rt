//! What was typed on the platform before.
ghost use Rattle.api_findings.specs.inner.Chains.{IsChain};

use crate::next_lines::FeaturedUnits;
use api_worlds::go_work::typed::TypedUnits;

/// The packages of each tree of a run as they were typed on the platform before, where there is one, for the next platform to take over.
pub(crate) struct Chain {
    /// Those of the tree that is looked at first, the old one or the only one, with their features.
    pub of_first: Option<FeaturedUnits>,
    /// Those of the new tree, where there is an old one.
    pub of_second: Option<TypedUnits>,
    /// Whether those of a tree alone are kept, for further platforms.
    pub keeps: bool,
}

impl Drop for Chain {
    fn drop(self) {
        let Chain {
            of_first: _,
            of_second: _,
            keeps: _,
        } = self;
    }
}

impl Chain {
    /// Before the first platform.
    pub(crate) fn new(keeps: bool) -> Chain
        ensures { IsChain result }
    {
        Chain {
            of_first: None,
            of_second: None,
            keeps,
        }
    }
}
